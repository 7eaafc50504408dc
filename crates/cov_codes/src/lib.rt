//! Which code each refusal of the crates below has, and which of them is want of memory.
#![tactic(auto)]

pub mod laws;
mod stop;

pub use stop::Stop;
