//! Conditional text: a file with all its variants as one text with conditions.
#![tactic(auto)]

mod enclosing;
mod exporting;
mod expressing;
mod fault;
mod importing;
pub mod laws;
mod open_run;

pub use cov_cond_text::{CondFault, CondText, Conditions, Run, read};
pub use exporting::export;
pub use fault::{ExportFault, ImportFault};
pub use importing::import;
