//! A history from the bytes of a journal, which come in pieces that are cut anywhere.
#![tactic(auto)]

mod accepting;
mod fault;
pub mod laws;
mod reading;
mod replica;

pub use fault::{ReplicaDamage, ReplicaFault};
pub use replica::Replica;
