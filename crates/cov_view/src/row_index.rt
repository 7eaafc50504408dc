// What the rows of a view are found by.
ghost use Rattle.std.specs.Prelude.{◌≡◌, [], ◌∷◌, ◌++◌, false, List, IfSome, OnOk, OnErr, position};
ghost use Rattle.cov_view.specs.Finding.{Finds};
ghost use Rattle.cov_view.specs.Keys.{IsIndexOf};
ghost use Rattle.cov_view.specs.References.{same_node};
ghost use Rattle.cov_view.specs.Seen.{has_row, child_in, at_row, with_name_by, with_parent_by, without_node, StandOnce};
ghost use Rattle.cov_view.specs.Shown.{bare_rows};
ghost use Rattle.cov_view.specs.declared.row.ViewRow.{ViewRow};

use crate::SharedTree;
use crate::children::child_among;
use crate::node_index::NodeIndex;
use crate::row::{ViewRow, same_node};
use cov_base::{Memory, NodeRef};
use std::alloc::Global;

/// What the rows of a view are found by. It is that of the tree that the view shares, until an edit changes the tree.
#[derive(Debug)]
pub(crate) struct RowIndex {
    found_by: FoundBy,
}

/// An index of the view's own or of a tree; or none, where an own one found no memory, and what is looked up is looked for in
/// the rows.
#[derive(Debug, Drop)]
enum FoundBy {
    Own(NodeIndex),
    Shared(SharedTree),
    GivenUp,
}

// It is dropped by a call, so that whoever drops one needn't know what it holds.
impl Drop for RowIndex {
    fn drop(self) {
        let RowIndex { found_by } = self;
        drop(found_by);
    }
}

impl RowIndex {
    pub(crate) fn new(alloc: Global) -> RowIndex
        ensures { Finds result [] }
    {
        RowIndex {
            found_by: FoundBy::Own(NodeIndex::new(alloc)),
        }
    }

    /// That of a tree.
    pub(crate) fn shared(tree: SharedTree) -> RowIndex
        ensures { Finds result (bare_rows tree) }
    {
        RowIndex {
            found_by: FoundBy::Shared(tree),
        }
    }

    // The index, None where it was given up.
    fn index(&self) -> Option<&NodeIndex>
        ensures { IfSome result (λ index. (rows : List ViewRow) → Finds self.now rows →
            IsIndexOf index.now rows) }
    {
        match &self.found_by {
            FoundBy::Own(own) => Some(own),
            FoundBy::Shared(tree) => Some(tree.lend().index()),
            FoundBy::GivenUp => None,
        }
    }

    /// Where the row of a node stands.
    pub(crate) fn place(&self, rows: &[ViewRow], node: &NodeRef) -> Option<usize>
        requires { Finds self.now rows.now }
        ensures { result ≡ position (λ r. same_node r.node node.now) rows.now }
    {
        match self.index() {
            Some(index) => index.place(node),
            None => find(rows, node),
        }
    }

    /// The node of that name in a directory. It takes no memory.
    pub(crate) fn child_in(&self, rows: &[ViewRow], dir: &NodeRef, name: &[u8]) -> Option<NodeRef>
        requires { Finds self.now rows.now }
        ensures { result ≡ child_in rows.now dir.now name.now }
    {
        match self.index() {
            Some(index) => index.child_in(rows, dir, name),
            None => child_among(rows, dir, name),
        }
    }

    // Makes it the view's own.
    fn make_own(&mut self, alloc: Global, rows: &[ViewRow]) -> Result<(), Memory>
        requires index { Finds self.old rows.now }
        requires once { StandOnce rows.now }
        ensures { Finds self.new rows.now }
    {
        if let FoundBy::Own(_) = &self.found_by {
            return Ok(());
        }
        self.found_by = FoundBy::Own(NodeIndex::of_rows(alloc, rows)?);
        Ok(())
    }

    /// Notes the row of a node that joins others.
    pub(crate) fn note(
        &mut self,
        alloc: Global,
        rows: &[ViewRow],
        row: &ViewRow,
    ) -> Result<(), Memory>
        requires index { Finds self.old rows.now }
        requires once { StandOnce rows.now }
        requires fresh { has_row rows.now row.now.node ≡ false }
        ensures ok { OnOk result (Finds self.new (rows.now ++ row.now ∷ [])) }
        ensures err { OnErr result (Finds self.new rows.now) }
    {
        self.make_own(alloc, rows)?;
        match &mut self.found_by {
            FoundBy::Own(own) => own.note(&row.node, &row.parent, row.name.as_slice()),
            FoundBy::Shared(_) | FoundBy::GivenUp => {
                self.found_by = FoundBy::GivenUp;
                Ok(())
            }
        }
    }

    /// Notes that a node, whose row stands at a place, gets another name.
    pub(crate) fn change_name(
        &mut self,
        alloc: Global,
        rows: &[ViewRow],
        node: &NodeRef,
        place: Option<usize>,
        name: &[u8],
    ) -> Result<(), Memory>
        requires index { Finds self.old rows.now }
        requires once { StandOnce rows.now }
        requires place { place ≡ position (λ r. same_node r.node node.now) rows.now }
        ensures ok { OnOk result (Finds self.new
            (at_row node.now (with_name_by name.now) rows.now)) }
        ensures err { OnErr result (Finds self.new rows.now) }
    {
        let name = Vec::from_slice(alloc, name)?;
        self.make_own(alloc, rows)?;
        match &mut self.found_by {
            FoundBy::Own(own) => {
                own.make_room()?;
                own.change_name(rows, node, place, name);
            }
            FoundBy::Shared(_) | FoundBy::GivenUp => self.found_by = FoundBy::GivenUp,
        }
        Ok(())
    }

    /// Notes that a node, whose row stands at a place, gets another directory. Where an own index finds no memory, it is given up.
    pub(crate) fn change_parent(
        &mut self,
        alloc: Global,
        rows: &[ViewRow],
        node: &NodeRef,
        place: Option<usize>,
        parent: &NodeRef,
    )
        requires index { Finds self.old rows.now }
        requires once { StandOnce rows.now }
        requires place { place ≡ position (λ r. same_node r.node node.now) rows.now }
        ensures { Finds self.new (at_row node.now (with_parent_by parent.now) rows.now) }
    {
        let _ = self.make_own(alloc, rows);
        match &mut self.found_by {
            FoundBy::Own(own) => own.change_parent(rows, node, place, parent),
            FoundBy::Shared(_) | FoundBy::GivenUp => self.found_by = FoundBy::GivenUp,
        }
    }

    /// Notes that the row of a node, which stands at a place, is removed. Where an own index finds no memory, it is given up.
    pub(crate) fn remove(
        &mut self,
        alloc: Global,
        rows: &[ViewRow],
        node: &NodeRef,
        place: Option<usize>,
    )
        requires index { Finds self.old rows.now }
        requires once { StandOnce rows.now }
        requires place { place ≡ position (λ r. same_node r.node node.now) rows.now }
        ensures { Finds self.new (without_node node.now rows.now) }
    {
        let _ = self.make_own(alloc, rows);
        match &mut self.found_by {
            FoundBy::Own(own) => own.remove(rows, node, place),
            FoundBy::Shared(_) | FoundBy::GivenUp => self.found_by = FoundBy::GivenUp,
        }
    }
}

// Where the row of a node stands, which is looked for in the rows.
fn find(rows: &[ViewRow], node: &NodeRef) -> Option<usize>
    ensures { result ≡ position (λ r. same_node r.node node.now) rows.now }
{
    rows.iter().position(|row| same_node(&row.node, node))
}
