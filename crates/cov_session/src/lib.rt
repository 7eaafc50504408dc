//! Sessions: edits on one variant of a store, made within an ambition, that nobody else sees until they are committed.
#![tactic(auto)]

mod fault;
pub mod laws;
mod opened;
mod session;
mod sessions;
mod siding;
mod viewing;

pub use fault::{NoSession, SessionFault};
pub use opened::Opened;
use session::OpenSession;
pub use sessions::{MOST_SESSIONS, Sessions};
