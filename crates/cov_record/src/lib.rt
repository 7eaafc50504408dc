//! The bytes of commands, in both directions.
#![tactic(auto)]

mod ahead;
mod by_runs;
mod choices;
mod decoding;
mod edits;
mod encoding;
mod expression;
mod fault;
pub mod laws;
mod side_tests;

pub use decoding::decode;
pub use encoding::encode;
pub use fault::NotARecord;
