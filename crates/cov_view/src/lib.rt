//! One variant as a plain tree, and edits of it.
#![tactic(auto)]

mod adding;
mod changing;
mod children;
mod counting;
mod fault;
mod hashing;
mod held;
pub mod laws;
mod line;
mod listing;
mod node_index;
mod node_row;
mod placed_lines;
mod row;
mod row_index;
mod row_lines;
mod rows;
mod shown_tree;
mod soundness;
mod tree;
mod view;

pub use counting::{dirs_in, files_in};
pub use fault::{EditFault, Fault, ListFault, ReadFaultOfView};
pub use hashing::digest;
pub use line::{ViewLine, ViewLines, is_head};
pub use listing::{DirRow, DirRows};
pub use node_row::{NodeRow, NodeRows};
pub use shown_tree::{SharedTree, ShownTree};
pub use tree::{TreeRow, TreeRows};
pub use view::View;
