//! A history that outlives its run: each command that it accepts is a record of a journal before the call that adds it answers so.
#![tactic(auto)]

mod appending;
mod damage;
pub mod laws;
mod replaying;
mod store;

pub use appending::{AppendFault, append};
pub use damage::{StoreDamage, StoreFault};
pub use store::{ApplyFault, Store};
