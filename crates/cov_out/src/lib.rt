//! Trees of files that are written, row by row.
#![tactic(auto)]

mod folder;
mod in_memory;
mod row;
mod trees;

pub use folder::FolderTrees;
pub use in_memory::MemoryTrees;
pub use row::{OutRow, OutRows};
pub use trees::Trees;
