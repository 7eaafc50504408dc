//! The rules of a history: which choices its constraints allow, and how they complete a partial choice.
#![tactic(auto)]

mod completing;
pub mod laws;
mod lefts;
mod rules;

pub use completing::CompleteFault;
pub use rules::{Invalid, MOST_RULES, Rule, RuleFault, RulePlan, Rules};
