//! Shared diagrams: reduced ordered binary decision diagrams in one table, where equal functions are equal nodes.
#![tactic(auto)]

mod choices;
mod keeper;
mod memo;
mod operation;
mod results;
mod table;
mod triple;

pub use keeper::{HasNode, append_nodes, renumber_nodes};
pub use table::Table;
pub use triple::{FALSE, Node, Nodes, TRUE, Triple, constant};
