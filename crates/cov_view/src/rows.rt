// The rows of a view.
ghost use Rattle.std.specs.Prelude.{◌≡◌, ◌<◌, [], ◌∷◌, ◌++◌, false, IfOk, IfSome, OnOk, OnErr, length, map, position, slice_get};
ghost use Rattle.std.specs.Option.{option_copied};
ghost use Rattle.cov_base.specs.Rows.{AreOnce};
ghost use Rattle.cov_view.specs.Lines.{after_ref, without_ref};
ghost use Rattle.cov_view.specs.References.{same_node};
ghost use Rattle.cov_view.specs.Seen.{row_at, has_row, kind_in, is_there, has_child, child_in, has_child_beside, has_child_of, has_children, lies_within, StandOnce, at_row, old_line, with_lines_by, with_name_by, with_parent_by, without_node};
ghost use Rattle.cov_view.specs.Shown.{bare_row, bare_rows};

use crate::changing::{append_lines, delete_line, insert_line, set_name, set_parent, share_lines};
use crate::row::{ViewRow, is_root, same_node};
use crate::row_index::RowIndex;
use crate::row_lines::RowLines;
use crate::{NodeRow, SharedTree, ShownTree, ViewLine, ViewLines};
use cov_base::{Kind, LineRef, Memory, Name, NodeRef, SharedRows};
use std::alloc::Global;
use std::marker::Model;

/// The rows in the order in which they were added, and what they are found by; no node stands twice.
#[derive(Debug, Drop)]
pub(crate) struct Rows {
    rows: Vec<ViewRow>,
    index: RowIndex,
}

impl Model for Rows {
    ghost use Rattle.std.specs.Prelude.{List};
    ghost use Rattle.cov_view.specs.declared.row.ViewRow.{ViewRow};
    ghost use Rattle.cov_view.specs.Finding.{Finds};
    ghost use Rattle.cov_view.specs.Seen.{StandOnce};

    ghost Value = { List ViewRow };

    ghost view = { λ r. r.rows.items };

    ghost invariant = { λ r. StandOnce r.rows.items × Finds r.index r.rows.items };
}

impl Rows {
    pub(crate) fn new(alloc: Global) -> Rows
        ensures { result ≡ [] }
    {
        Rows {
            rows: Vec::new(alloc),
            index: RowIndex::new(alloc),
        }
    }

    /// The rows of a tree, without lines. They share its names and what it is found by.
    pub(crate) fn of_tree(tree: SharedTree) -> Result<Rows, Memory>
        ensures rows { IfOk result (λ rows. rows ≡ bare_rows tree) }
        ensures once { OnOk result (AreOnce tree) }
    {
        let rows = bare_rows(tree.lend())?;
        Ok(Rows {
            rows,
            index: RowIndex::shared(tree),
        })
    }

    pub(crate) fn allocator(&self) -> Global {
        *self.rows.allocator()
    }

    /// Appends the row of a node that has none yet.
    pub(crate) fn push(&mut self, row: ViewRow) -> Result<(), Memory>
        requires { has_row self.old row.node ≡ false }
        ensures ok { OnOk result (self.new ≡ self.old ++ row ∷ []) }
        ensures err { OnErr result (self.new ≡ self.old) }
    {
        self.rows.reserve(1)?;
        self.index
            .note(*self.rows.allocator(), self.rows.as_slice(), &row)?;
        self.rows.push_reserved(row);
        Ok(())
    }

    /// Where the row of a node stands.
    pub(crate) fn place(&self, node: &NodeRef) -> Option<usize>
        ensures place { result ≡ position (λ r. same_node r.node node.now) self.now }
        ensures within { IfSome result (λ at. at < length self.now) }
    {
        self.index.place(self.rows.as_slice(), node)
    }

    /// The row of a node.
    pub(crate) fn get(&self, node: &NodeRef) -> Option<&ViewRow>
        ensures { option_copied result ≡ row_at self.now node.now }
    {
        match self.place(node) {
            Some(at) => self.row(at),
            None => None,
        }
    }

    /// The kind of a node, if it is there.
    pub(crate) fn kind_of(&self, node: &NodeRef) -> Option<Kind>
        ensures { result ≡ kind_in self.now node.now }
    {
        if is_root(node) {
            return Some(Kind::Dir);
        }
        match self.get(node) {
            Some(row) => Some(row.kind),
            None => None,
        }
    }

    /// Whether a node is there.
    pub(crate) fn is_there(&self, node: &NodeRef) -> bool
        ensures { result ≡ is_there self.now node.now }
    {
        self.kind_of(node).is_some()
    }

    /// Whether a directory has a node of that name.
    pub(crate) fn has_child(&self, dir: &NodeRef, name: &[u8]) -> bool
        ensures { result ≡ has_child self.now dir.now name.now }
    {
        self.child_in(dir, name).is_some()
    }

    /// The node of that name in a directory.
    pub(crate) fn child_in(&self, dir: &NodeRef, name: &[u8]) -> Option<NodeRef>
        ensures { result ≡ child_in self.now dir.now name.now }
    {
        self.index.child_in(self.rows.as_slice(), dir, name)
    }

    /// Whether the directory of a node, if it has a row, has a node of that name.
    pub(crate) fn has_child_beside(&self, node: &NodeRef, name: &[u8]) -> bool
        ensures { result ≡ has_child_beside self.now (row_at self.now node.now) name.now }
    {
        match self.get(node) {
            Some(row) => self.has_child(&row.parent, name),
            None => false,
        }
    }

    /// Whether a directory has a node with the name of another, if that has a row.
    pub(crate) fn has_child_of(&self, dir: &NodeRef, node: &NodeRef) -> bool
        ensures { result ≡ has_child_of self.now dir.now (row_at self.now node.now) }
    {
        match self.get(node) {
            Some(row) => self.has_child(dir, row.name.as_slice()),
            None => false,
        }
    }

    /// Whether some node has a node as its parent. It takes time in the rows.
    pub(crate) fn has_children(&self, node: &NodeRef) -> bool
        ensures { result ≡ has_children self.now node.now }
    {
        self.rows.iter().any(|row| same_node(&row.parent, node))
    }

    /// Whether a node is another, or lies below it. It takes time in the depth of the node.
    pub(crate) fn lies_within(&self, top: &NodeRef, node: &NodeRef) -> bool
        ensures { result ≡ lies_within self.now (length self.now) top.now node.now }
    {
        let mut at = *node;
        'steps: for _ in 0..self.rows.as_slice().len() {
            if same_node(&at, top) {
                return true;
            }
            match self.get(&at) {
                Some(row) => at = row.parent,
                None => return false,
            }
        }
        same_node(&at, top)
    }

    fn row(&self, at: usize) -> Option<&ViewRow>
        ensures row { option_copied result ≡ slice_get self.now at }
        ensures once { StandOnce self.now }
    {
        self.rows.get(at)
    }

    pub(crate) fn len(&self) -> usize
        ensures { result ≡ length self.now }
    {
        self.rows.len()
    }

    /// All rows, in the order in which they were added.
    pub(crate) fn as_slice(&self) -> &[ViewRow]
        ensures rows { result.now ≡ self.now }
        ensures once { StandOnce self.now }
    {
        self.rows.as_slice()
    }

    /// Puts lines at the end of a file, all of them or none.
    pub(crate) fn append_lines(&mut self, file: &NodeRef, lines: ViewLines) -> Result<(), Memory>
        ensures ok { OnOk result (self.new ≡
            at_row file.now (with_lines_by (λ ls. ls ++ lines)) self.old) }
        ensures err { OnErr result (self.new ≡ self.old) }
    {
        let place = self.place(file);
        append_lines(&mut self.rows, file, place, lines)
    }

    /// Puts shared lines at the end of a file, all of them or none. Its row is looked up where it isn't at an index.
    pub(crate) fn share_lines_at(
        &mut self,
        index: usize,
        file: &NodeRef,
        lines: SharedRows,
    ) -> Result<(), Memory>
        ensures ok { OnOk result (self.new ≡
            at_row file.now (with_lines_by (λ ls. ls ++ map old_line lines)) self.old) }
        ensures err { OnErr result (self.new ≡ self.old) }
    {
        let place = self.place_near(index, file);
        share_lines(&mut self.rows, file, place, lines)
    }

    // Where the row of a node stands, without a look-up where it is at an index.
    fn place_near(&self, index: usize, node: &NodeRef) -> Option<usize>
        ensures { result ≡ position (λ r. same_node r.node node.now) self.now }
    {
        match self.row(index) {
            Some(row) if same_node(&row.node, node) => Some(index),
            _ => self.place(node),
        }
    }

    /// Puts a line directly after its anchor in a file, or first where that is the head.
    pub(crate) fn insert_line(
        &mut self,
        file: &NodeRef,
        after: &LineRef,
        line: ViewLine,
    ) -> Result<(), Memory>
        ensures ok { OnOk result (self.new ≡
            at_row file.now (with_lines_by (after_ref after.now line)) self.old) }
        ensures err { OnErr result (self.new ≡ self.old) }
    {
        let place = self.place(file);
        insert_line(&mut self.rows, file, place, after, line)
    }

    /// Takes a line out of a file, without memory and in one pass over the lines of that file.
    pub(crate) fn delete_line(&mut self, file: &NodeRef, line: &LineRef)
        ensures { self.new ≡ at_row file.now (with_lines_by (without_ref line.now)) self.old }
    {
        let place = self.place(file);
        delete_line(&mut self.rows, file, place, line);
    }

    /// Gives a node another name.
    pub(crate) fn set_name(&mut self, node: &NodeRef, name: Name) -> Result<(), Memory>
        ensures ok { OnOk result (self.new ≡ at_row node.now (with_name_by name) self.old) }
        ensures err { OnErr result (self.new ≡ self.old) }
    {
        let place = self.place(node);
        self.index.change_name(
            *self.rows.allocator(),
            self.rows.as_slice(),
            node,
            place,
            name.as_slice(),
        )?;
        set_name(&mut self.rows, node, place, name);
        Ok(())
    }

    /// Gives a node another parent, without memory.
    pub(crate) fn set_parent(&mut self, node: &NodeRef, parent: &NodeRef)
        ensures { self.new ≡ at_row node.now (with_parent_by parent.now) self.old }
    {
        let place = self.place(node);
        self.index.change_parent(
            *self.rows.allocator(),
            self.rows.as_slice(),
            node,
            place,
            parent,
        );
        set_parent(&mut self.rows, node, place, parent);
    }

    /// Takes the row of a node out, without memory and in the time that the rows behind it take to close up.
    pub(crate) fn remove(&mut self, node: &NodeRef)
        ensures { self.new ≡ without_node node.now self.old }
    {
        let place = self.place(node);
        self.index
            .remove(*self.rows.allocator(), self.rows.as_slice(), node, place);
        match place {
            Some(at) => {
                self.rows.remove(at);
            }
            None => {}
        }
    }
}

// The rows of a tree, without lines. They share its names.
fn bare_rows(tree: &ShownTree) -> Result<Vec<ViewRow>, Memory>
    ensures rows { IfOk result (λ rows. rows.items ≡ bare_rows tree.now) }
    ensures once { OnOk result (AreOnce tree.now) }
{
    let mut rows = Vec::with_capacity(tree.allocator(), tree.len())?;
    'rows: for row in tree.as_slice() {
        rows.push(bare_row(tree.allocator(), row)?)?;
    }
    Ok(rows)
}

fn bare_row(alloc: Global, row: &NodeRow) -> Result<ViewRow, Memory>
    ensures { IfOk result (λ bare. bare ≡ bare_row row.now) }
{
    Ok(ViewRow {
        node: NodeRef::Old(row.node),
        kind: row.kind,
        parent: NodeRef::Old(row.parent),
        name: row.name.copy()?,
        lines: RowLines::new(alloc),
    })
}
