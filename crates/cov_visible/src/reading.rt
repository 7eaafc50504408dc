// What is read of one variant. It is lent no command, so nothing is replayed.
ghost use Rattle.std.specs.Prelude.{◌≡◌, nat_eq, map, IfOk};
ghost use Rattle.std.specs.List.{list_any};
ghost use Rattle.cov_base.specs.Rows.{is_present};
ghost use Rattle.cov_edit.specs.Touched.{AreRising};
ghost use Rattle.cov_tree.specs.Dated.{rows_at};
ghost use Rattle.cov_view.specs.Paths.{child_node, path_node};
ghost use Rattle.cov_view.specs.References.{is_dir_kind};
ghost use Rattle.cov_view.specs.Refusals.{is_dir};
ghost use Rattle.cov_visible.specs.Parts.{part_node, part_of};
ghost use Rattle.cov_visible.specs.Reading.{IsFileAmong, stored_rows};

use crate::Visible;
use crate::places::part_of;
use cov_base::{Choice, FileRows, Kind, Memory, Name, NodeNo, Position};
use std::alloc::Global;

/// Why a path leads to no file.
#[derive(Clone, Copy, Debug, PartialEq, Eq)]
pub enum FileFault {
    /// A name on the path isn't there.
    NoSuchPath,
    /// The path leads to a directory.
    NotFile,
}

/// The file at a path on a choice at a position.
pub fn file_at(
    visible: &Visible,
    choice: Choice,
    at: Position,
    path: &[Name],
) -> Result<NodeNo, FileFault>
    ensures { IsFileAmong (rows_at visible.now.table choice at visible.now.entries) path.now
        result }
{
    match node_at(visible, choice, at, path) {
        Some(node) => match is_dir(visible, choice, at, node) {
            true => Err(FileFault::NotFile),
            false => Ok(node),
        },
        None => Err(FileFault::NoSuchPath),
    }
}

// The node to which names lead from the root.
fn node_at(visible: &Visible, choice: Choice, at: Position, path: &[Name]) -> Option<NodeNo>
    ensures { result ≡
        path_node (rows_at visible.now.table choice at visible.now.entries) 0 path.now }
{
    let mut node = NodeNo::new(0);
    let mut ahead = path;
    while let [name, rest @ ..] = ahead {
        match child(visible, choice, at, node, name) {
            Some(child) => node = child,
            None => return None,
        }
        ahead = rest;
    }
    Some(node)
}

// The node of that name in a directory.
fn child(
    visible: &Visible,
    choice: Choice,
    at: Position,
    dir: NodeNo,
    name: &Name,
) -> Option<NodeNo>
    ensures { result ≡
        child_node (rows_at visible.now.table choice at visible.now.entries) dir name.now }
{
    visible
        .entries
        .child_at(&visible.table, choice, at, dir, name)
}

// Whether a node is a directory; the root is one.
fn is_dir(visible: &Visible, choice: Choice, at: Position, node: NodeNo) -> bool
    ensures { result ≡ is_dir (rows_at visible.now.table choice at visible.now.entries) node }
{
    if node.number() == 0 {
        return true;
    }
    match visible.entries.kind_at(&visible.table, choice, at, node) {
        Some(kind) => is_dir_kind(kind),
        None => false,
    }
}

fn is_dir_kind(kind: Kind) -> bool
    ensures { result ≡ is_dir_kind kind }
{
    match kind {
        Kind::Dir => true,
        Kind::File => false,
    }
}

/// The lines of a file that are visible on a choice at a position, in order; none where the number isn't a file's.
pub fn lines_at(
    alloc: Global,
    visible: &Visible,
    file: NodeNo,
    choice: Choice,
    at: Position,
) -> Result<FileRows, Memory>
    requires rising { AreRising (map part_node visible.now.files) }
    ensures { IfOk result (λ rows. rows ≡
        stored_rows visible.now.table choice at (part_of visible.now.files file)) }
{
    match part_of(visible.files.as_slice(), file) {
        Some(part) => part.lines.lines_at(&visible.table, choice, at),
        None => Ok(FileRows::new(alloc)),
    }
}

/// Whether a node is present on a choice at a position; the root always is.
pub fn has_node(visible: &Visible, node: NodeNo, choice: Choice, at: Position) -> bool
    ensures { result ≡ is_present (rows_at visible.now.table choice at visible.now.entries) node }
{
    node.number() == 0 || has_row(visible, node, choice, at)
}

fn has_row(visible: &Visible, node: NodeNo, choice: Choice, at: Position) -> bool
    ensures { result ≡
        list_any (λ r.
        nat_eq r.node node) (rows_at visible.now.table choice at visible.now.entries) }
{
    visible
        .entries
        .kind_at(&visible.table, choice, at, node)
        .is_some()
}
