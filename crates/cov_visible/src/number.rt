// Nodes and lines by their numbers.
ghost use Rattle.std.specs.Prelude.{◌≡◌, ◌<◌, ◌^◌};
ghost use Rattle.cov_edit.specs.Numbering.{node_number, line_number};

use cov_base::{LineNo, LineRef, NodeNo, NodeRef};

/// The number of a node that a reference names, so many nodes having been made before.
pub(crate) fn node_number(before: u32, node: &NodeRef) -> NodeNo
    requires { node_number before node.now < 2 ^ 32 }
    ensures { result ≡ node_number before node.now }
{
    match node {
        NodeRef::Old(number) => *number,
        NodeRef::New(index) => NodeNo::new(before + 1 + *index),
    }
}

/// The number of a line that a reference names, so many lines having been made before.
pub(crate) fn line_number(before: u32, line: &LineRef) -> LineNo
    requires { line_number before line.now < 2 ^ 32 }
    ensures { result ≡ line_number before line.now }
{
    match line {
        LineRef::Old(number) => *number,
        LineRef::New(index) => LineNo::new(before + 1 + *index),
    }
}
