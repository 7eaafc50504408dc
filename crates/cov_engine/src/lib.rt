//! What a history holds for all choices and positions at once, and which commands it accepts.
#![tactic(auto)]

mod addition;
mod counted_commands;
mod counts;
mod engine;
mod evidence;
mod history_index;
mod holders;
mod installing;
pub mod laws;
mod meeting;
mod option_positions;
mod prepared;
mod refusing;
mod rule;
mod sizes;
mod staging;
mod state;
mod summary;
mod sweeping;

pub use counts::Counts;
pub use cov_history::Refusal;
pub use cov_visible::{FileFault, FilePart, FileParts, Visible};
pub use engine::{Engine, NoSuchLine};
pub use holders::{Holders, NoHolders};
pub use prepared::{Prepared, Receipt};
