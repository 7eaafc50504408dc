// Boolean operations, and where one node or a constant is their result.
ghost use Rattle.std.specs.Prelude.{◌≡◌, ◌<◌, IfSome, IfNone};
ghost use Rattle.cov_dd.specs.Combinations.{IsShortcut};

use crate::{FALSE, Node, TRUE};

#[derive(Clone, Copy, Debug, PartialEq, Eq)]
pub(crate) enum Operation {
    And,
    Or,
    /// The first and not the second.
    Without,
}

/// The result where it doesn't need the nodes' entries. Else the second node has one.
pub(crate) fn shortcut(operation: Operation, a: Node, b: Node) -> Option<Node>
    ensures some { IfSome result (IsShortcut operation a b) }
    ensures none { IfNone result (1 < b) }
{
    match operation {
        Operation::And => shortcut_and(a, b),
        Operation::Or => shortcut_or(a, b),
        Operation::Without => shortcut_without(a, b),
    }
}

fn shortcut_and(a: Node, b: Node) -> Option<Node>
    ensures some { IfSome result (IsShortcut Operation.And a b) }
    ensures none { IfNone result (1 < b) }
{
    if a == FALSE {
        return Some(FALSE);
    }
    if b == FALSE {
        return Some(FALSE);
    }
    if a == TRUE {
        return Some(b);
    }
    if b == TRUE {
        return Some(a);
    }
    if a == b {
        return Some(a);
    }
    None
}

fn shortcut_or(a: Node, b: Node) -> Option<Node>
    ensures some { IfSome result (IsShortcut Operation.Or a b) }
    ensures none { IfNone result (1 < b) }
{
    if a == TRUE {
        return Some(TRUE);
    }
    if b == TRUE {
        return Some(TRUE);
    }
    if a == FALSE {
        return Some(b);
    }
    if b == FALSE {
        return Some(a);
    }
    if a == b {
        return Some(a);
    }
    None
}

fn shortcut_without(a: Node, b: Node) -> Option<Node>
    ensures some { IfSome result (IsShortcut Operation.Without a b) }
    ensures none { IfNone result (1 < b) }
{
    if a == FALSE {
        return Some(FALSE);
    }
    if b == TRUE {
        return Some(FALSE);
    }
    if b == FALSE {
        return Some(a);
    }
    if a == b {
        return Some(FALSE);
    }
    None
}
