//! Nodes of a table with the values that they have on a choice, nodes that take the places of others, and what is kept of what is
//! shown by values.
#![tactic(auto)]

mod replacing;
mod sights;
mod values;

pub use replacing::{NOT_REPLACED, Replaced, Replacements};
pub use sights::{ShownChange, Sight, Sights};
pub use values::{Evaluated, MOST_VALUES, Values};
