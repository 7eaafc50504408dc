//! What is kept of each commit, and which commits overtake another, decided by diagrams.
#![tactic(auto)]

mod commits;
mod conditions;
mod few_nodes;
mod mark;
mod meeting;
mod overtaking;
mod places;
mod touches;

pub use commits::Commits;
pub use conditions::conditions_of;
pub use few_nodes::FewNodes;
pub use mark::{CommitMark, mark_of};
pub use overtaking::overtaken;
