// The nodes of a variant.
ghost use Rattle.std.specs.Prelude.{◌≡◌, ◌&&◌, ◌||◌, not, true};
ghost use Rattle.cov_base.specs.Spelling.{is_name};
ghost use Rattle.cov_view.specs.References.{is_root, is_head, same_node};
ghost use Rattle.cov_view.specs.Seen.{has_line_in};

use crate::line::is_head;
use crate::row_lines::RowLines;
use crate::rows::Rows;
use cov_base::{Kind, LineRef, Name, NodeRef};

/// A node but the root, with its lines.
#[derive(Debug, Drop)]
pub struct ViewRow {
    pub(crate) node: NodeRef,
    pub(crate) kind: Kind,
    pub(crate) parent: NodeRef,
    pub(crate) name: Name,
    pub(crate) lines: RowLines,
}

impl ViewRow {
    /// Does nothing; it tells of a row what the type of its name keeps.
    pub(crate) fn name_is_spelt(&self)
        ensures { is_name self.now.name ≡ true }
    {
        self.name.as_slice();
    }
}

/// Whether a line can be put directly after one of a file.
pub(crate) fn shows_anchor(rows: &Rows, file: &NodeRef, after: &LineRef) -> bool
    ensures { result ≡ (is_head after.now || has_line_in rows.now file.now after.now) }
{
    match rows.get(file) {
        Some(row) => is_head(after) || row.lines.has(after),
        None => is_head(after),
    }
}

/// Whether a file has a line that can be taken out; the head can't.
pub(crate) fn shows_line(rows: &Rows, file: &NodeRef, line: &LineRef) -> bool
    ensures { result ≡ (not (is_head line.now) && has_line_in rows.now file.now line.now) }
{
    match rows.get(file) {
        Some(row) => !is_head(line) && row.lines.has(line),
        None => false,
    }
}

pub(crate) fn is_root(node: &NodeRef) -> bool
    ensures { result ≡ is_root node.now }
{
    match node {
        NodeRef::Old(number) => number.number() == 0,
        NodeRef::New(_) => false,
    }
}

pub(crate) fn same_node(left: &NodeRef, right: &NodeRef) -> bool
    ensures { result ≡ same_node left.now right.now }
{
    match left {
        NodeRef::Old(x) => match right {
            NodeRef::Old(y) => x.number() == y.number(),
            NodeRef::New(_) => false,
        },
        NodeRef::New(i) => match right {
            NodeRef::Old(_) => false,
            NodeRef::New(j) => *i == *j,
        },
    }
}
