//! The lines of one file, each with its text and its visibility at each position.
#![tactic(auto)]

mod changes;
mod coming;
pub mod laws;
mod lines;
mod sights;

pub use lines::FileLines;
