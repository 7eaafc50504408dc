//! What histories hold and which commands they accept: definitions, and laws that hold of them whatever any code does.
#![tactic(auto)]

pub mod kept_laws;
pub mod laws;
mod refusal;

pub use refusal::Refusal;
