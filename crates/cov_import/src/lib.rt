//! A conditional text as a new file: its lines are read, made commits, and these are added one after another.
#![tactic(auto)]

mod importing;
mod source;
mod taking;

pub use importing::ImportServer;
pub use source::read_source;
pub use taking::take_in;
