//! Analysis of rules: which options are dead, forced or free, which constraints the others imply, and the nearest valid choice.
#![tactic(auto)]

mod analysis;
mod bounding;
pub mod laws;
mod measuring;
mod ordering;
mod walking;

pub use analysis::{Analysis, OptionState, RuleState};
pub use bounding::{Bounds, check};
pub use walking::Nearest;
