// A view as a tree of paths.
ghost use Rattle.std.specs.Prelude.{◌≡◌, true, ◌∷◌, ◌++◌, [], length, map, reverse, IfOk, OnOk};
ghost use Rattle.cov_base.specs.Spelling.{is_name};
ghost use Rattle.cov_view.specs.SeenTree.{path_by, file_bytes, tree_row, with_view_rows, tree_in, found_row, AreNamed};
ghost use Rattle.cov_view.specs.Tree.{joined, with_tree_row};

use crate::row::ViewRow;
use crate::row_lines::RowLines;
use crate::rows::Rows;
use cov_base::{Kind, List, Memory, NodeRef, Text};
use std::alloc::Global;
use std::collections::BTreeMap;
use std::marker::Model;

/// A file or directory of a tree. Its path has no `/` before it, and a directory has no bytes.
#[derive(Debug, Drop)]
pub struct TreeRow {
    pub path: Text,
    pub kind: Kind,
    pub bytes: Text,
}

/// The files and directories of a tree, in byte order of paths.
pub type TreeRows = List<TreeRow>;

/// The tree of the rows of a view.
pub(crate) fn tree(rows: &Rows) -> Result<TreeRows, Memory>
    ensures tree { IfOk result (λ tree. tree ≡ tree_in rows.now) }
    ensures named { OnOk result (AreNamed rows.now) }
{
    let mut found = Found::new(rows.allocator());
    let mut tree = TreeRows::new(rows.allocator());
    put_nodes(rows, &mut found)?;
    drain(&mut found.rows, &mut tree)?;
    Ok(tree)
}

fn put_nodes(rows: &Rows, found: &mut Found) -> Result<(), Memory>
    ensures rows { OnOk result (found.new ≡ with_view_rows rows.now rows.now found.old) }
    ensures named { OnOk result (AreNamed rows.now) }
{
    let mut ahead = rows.as_slice();
    while let [first, rest @ ..] = ahead {
        put_node(rows, first, found)?;
        ahead = rest;
    }
    Ok(())
}

fn put_node(rows: &Rows, row: &ViewRow, found: &mut Found) -> Result<(), Memory>
    ensures row { OnOk result (found.new ≡ with_tree_row (tree_row rows.now row.now) found.old) }
    ensures named { OnOk result (is_name row.now.name ≡ true) }
{
    row.name_is_spelt();
    let path = path_of(rows, &row.node)?;
    let bytes = file_text(rows.allocator(), row.kind, &row.lines)?;
    found.put(path, row.kind, bytes)
}

// The path of a node.
fn path_of(rows: &Rows, node: &NodeRef) -> Result<Vec<u8>, Memory>
    ensures { IfOk result (λ path. path.items ≡ path_by rows.now (length rows.now) node.now []) }
{
    let mut path = Vec::new(rows.allocator());
    climb(rows, node, &mut path)?;
    path.as_mut_slice().reverse();
    Ok(path)
}

// Climbs from a node to the root, with the path kept from its end to its front.
fn climb(rows: &Rows, start: &NodeRef, back: &mut Vec<u8>) -> Result<(), Memory>
    ensures { OnOk result (reverse back.new.items ≡
        path_by rows.now (length rows.now) start.now (reverse back.old.items)) }
{
    let mut node = *start;
    let mut steps = rows.len();
    while steps > 0 {
        let Some(row) = rows.get(&node) else {
            return Ok(());
        };
        push_back(back, row.name.as_slice())?;
        node = row.parent;
        steps -= 1;
    }
    Ok(())
}

// Puts a name behind a path that is kept from its end to its front.
fn push_back(back: &mut Vec<u8>, name: &[u8]) -> Result<(), Memory>
    ensures { OnOk result (reverse back.new.items ≡ joined name.now (reverse back.old.items)) }
{
    if !back.is_empty() {
        back.push(47)?;
    }
    push_reversed(back, name)
}

fn push_reversed(back: &mut Vec<u8>, name: &[u8]) -> Result<(), Memory>
    ensures { OnOk result (back.new.items ≡ back.old.items ++ reverse name.now) }
{
    let mut ahead = name;
    while let [rest @ .., last] = ahead {
        back.push(*last)?;
        ahead = rest;
    }
    Ok(())
}

// The bytes of a file.
fn file_text(alloc: Global, kind: Kind, lines: &RowLines) -> Result<Text, Memory>
    ensures { IfOk result (λ text. text ≡ file_bytes kind lines.now) }
{
    let mut text = Text::new(alloc);
    match kind {
        Kind::File => lines.append_text(&mut text)?,
        Kind::Dir => {}
    }
    Ok(text)
}

// What stands at a path.
#[derive(Drop)]
struct Content {
    kind: Kind,
    bytes: Text,
}

// Rows in byte order of paths, each path once.
#[derive(Drop)]
struct Found {
    rows: BTreeMap<Vec<u8>, Content>,
}

impl Model for Found {
    ghost use Rattle.std.specs.Prelude.{List, map};
    ghost use Rattle.cov_view.specs.SeenTree.{found_row};
    ghost use Rattle.cov_view.specs.declared.tree.TreeRow.{TreeRow};

    ghost Value = { List TreeRow };

    ghost view = { λ f. map found_row f.rows.entries };
}

impl Found {
    fn new(alloc: Global) -> Found
        ensures { result ≡ [] }
    {
        Found {
            rows: BTreeMap::new(alloc),
        }
    }

    fn put(&mut self, path: Vec<u8>, kind: Kind, bytes: Text) -> Result<(), Memory>
        ensures { OnOk result (self.new ≡
            with_tree_row (record { path = path.items; kind = kind; bytes = bytes }) self.old) }
    {
        self.rows.insert(path, Content { kind, bytes })?;
        Ok(())
    }
}

// Moves rows to a list.
fn drain(found: &mut BTreeMap<Vec<u8>, Content>, rows: &mut TreeRows) -> Result<(), Memory>
    ensures { OnOk result (rows.new ≡ rows.old ++ map found_row found.old.entries) }
{
    while let Some((path, content)) = found.pop_first() {
        put_row(rows, path, content)?;
    }
    Ok(())
}

fn put_row(rows: &mut TreeRows, path: Vec<u8>, content: Content) -> Result<(), Memory>
    ensures { OnOk result (rows.new ≡ rows.old ++ found_row (path, content) ∷ []) }
{
    let row = TreeRow {
        path: Text::from_slice(*path.allocator(), path.as_slice())?,
        kind: content.kind,
        bytes: content.bytes,
    };
    rows.push(row)
}
