//! The lines of a file in their order.
#![tactic(auto)]

mod hash;
pub mod laws;
mod order;
mod page;
mod pages;

pub use order::Order;
