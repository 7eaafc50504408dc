// Changes of one row.
ghost use Rattle.std.specs.Prelude.{◌≡◌, ◌++◌, OnOk, OnErr, map, position};
ghost use Rattle.cov_view.specs.Lines.{after_ref, without_ref};
ghost use Rattle.cov_view.specs.References.{same_node};
ghost use Rattle.cov_view.specs.Seen.{at_row, old_line, with_lines_by, with_name_by, with_parent_by};

use crate::row::ViewRow;
use crate::{ViewLine, ViewLines};
use cov_base::{LineRef, Memory, Name, NodeRef, SharedRows};

/// Puts lines at the end of a file, whose row stands at a place.
pub(crate) fn append_lines(
    rows: &mut [ViewRow],
    file: &NodeRef,
    place: Option<usize>,
    lines: ViewLines,
) -> Result<(), Memory>
    requires { place ≡ position (λ r. same_node r.node file.now) rows.old }
    ensures ok { OnOk result (rows.new ≡
        at_row file.now (with_lines_by (λ ls. ls ++ lines)) rows.old) }
    ensures err { OnErr result (rows.new ≡ rows.old) }
{
    match place {
        Some(at) => rows[at].lines.append(lines),
        None => Ok(()),
    }
}

/// Puts shared lines at the end of a file, whose row stands at a place.
pub(crate) fn share_lines(
    rows: &mut [ViewRow],
    file: &NodeRef,
    place: Option<usize>,
    lines: SharedRows,
) -> Result<(), Memory>
    requires { place ≡ position (λ r. same_node r.node file.now) rows.old }
    ensures ok { OnOk result (rows.new ≡ at_row file.now (with_lines_by (λ ls. ls ++ map old_line lines)) rows.old) }
    ensures err { OnErr result (rows.new ≡ rows.old) }
{
    match place {
        Some(at) => rows[at].lines.share(lines),
        None => Ok(()),
    }
}

/// Puts a line directly after its anchor in a file, whose row stands at a place, or first where that is the head.
pub(crate) fn insert_line(
    rows: &mut [ViewRow],
    file: &NodeRef,
    place: Option<usize>,
    after: &LineRef,
    line: ViewLine,
) -> Result<(), Memory>
    requires { place ≡ position (λ r. same_node r.node file.now) rows.old }
    ensures ok { OnOk result (rows.new ≡
        at_row file.now (with_lines_by (after_ref after.now line)) rows.old) }
    ensures err { OnErr result (rows.new ≡ rows.old) }
{
    match place {
        Some(at) => rows[at].lines.insert_after(after, line),
        None => Ok(()),
    }
}

/// Takes a line out of a file, whose row stands at a place.
pub(crate) fn delete_line(
    rows: &mut [ViewRow],
    file: &NodeRef,
    place: Option<usize>,
    line: &LineRef,
)
    requires { place ≡ position (λ r. same_node r.node file.now) rows.old }
    ensures { rows.new ≡ at_row file.now (with_lines_by (without_ref line.now)) rows.old }
{
    match place {
        Some(at) => rows[at].lines.delete(line),
        None => {}
    }
}

/// Gives a node, whose row stands at a place, another name.
pub(crate) fn set_name(rows: &mut [ViewRow], node: &NodeRef, place: Option<usize>, name: Name)
    requires { place ≡ position (λ r. same_node r.node node.now) rows.old }
    ensures { rows.new ≡ at_row node.now (with_name_by name) rows.old }
{
    match place {
        Some(at) => rows[at].name = name,
        None => {}
    }
}

/// Gives a node, whose row stands at a place, another parent.
pub(crate) fn set_parent(
    rows: &mut [ViewRow],
    node: &NodeRef,
    place: Option<usize>,
    parent: &NodeRef,
)
    requires { place ≡ position (λ r. same_node r.node node.now) rows.old }
    ensures { rows.new ≡ at_row node.now (with_parent_by parent.now) rows.old }
{
    match place {
        Some(at) => rows[at].parent = *parent,
        None => {}
    }
}
