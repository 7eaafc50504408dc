//! What a history tells of its past: which choice was valid at a position, where a line comes from, and which commits reach a variant.
#![tactic(auto)]

mod blaming;
mod choosing;
mod edit_counts;
mod fault;
mod halving;
pub mod laws;
mod logging;
mod rows;
mod values;

pub use blaming::blame;
pub use choosing::choice_at;
pub use fault::PastFault;
pub use halving::origin;
pub use logging::log;
pub use rows::{BlameRow, BlameRows, LogRow, LogRows};
