//! A journal of records on a disk, each behind a gate that is opened last.
#![tactic(auto)]

mod damage;
mod framed;
mod front;
mod journal;
pub mod laws;
mod opening;
mod reader;
mod writing;

pub use damage::Damage;
pub use journal::{Journal, next_digest};
pub use opening::{OpenFault, header};
pub use reader::{Next, ReadRecordFault, Reader};
