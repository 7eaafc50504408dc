// What rows are found by.
ghost use Rattle.std.specs.Prelude.{◌≡◌, [], List, IfOk, OnOk, OnErr, is_some, position};
ghost use Rattle.cov_view.specs.Keys.{IsIndexOf, JoinsIndex};
ghost use Rattle.cov_view.specs.References.{same_node};
ghost use Rattle.cov_view.specs.Seen.{child_in, has_row, at_row, with_name_by, with_parent_by, without_node, StandOnce};
ghost use Rattle.cov_view.specs.declared.row.ViewRow.{ViewRow};

use crate::children::Children;
use crate::row::ViewRow;
use cov_base::{Memory, NodeRef};
use indexmap::IndexSet;
use std::alloc::Global;

/// Where the row of each node stands, and the node of each name in each directory.
#[derive(Debug)]
pub(crate) struct NodeIndex {
    places: IndexSet<NodeRef>,
    children: Children,
}

// It is dropped by a call, so that whoever drops one needn't know what it holds.
impl Drop for NodeIndex {
    fn drop(self) {
        let NodeIndex { places, children } = self;
        drop(places);
        drop(children);
    }
}

impl NodeIndex {
    pub(crate) fn new(alloc: Global) -> NodeIndex
        ensures { IsIndexOf result [] }
    {
        NodeIndex {
            places: IndexSet::new(alloc),
            children: Children::new(alloc),
        }
    }

    /// Where the row of a node stands.
    pub(crate) fn place(&self, node: &NodeRef) -> Option<usize>
        ensures place { (rows : List ViewRow) → IsIndexOf self.now rows →
            result ≡ position (λ r. same_node r.node node.now) rows }
        ensures found { (rows : List ViewRow) → IsIndexOf self.now rows →
            is_some result ≡ has_row rows node.now }
    {
        self.places.get_index_of(node)
    }

    /// The node of that name in a directory.
    pub(crate) fn child_in(&self, rows: &[ViewRow], dir: &NodeRef, name: &[u8]) -> Option<NodeRef>
        requires { IsIndexOf self.now rows.now }
        ensures { result ≡ child_in rows.now dir.now name.now }
    {
        self.children.node(rows, dir, name)
    }

    /// Notes the row of a node that joins others.
    pub(crate) fn note(&mut self, node: &NodeRef, dir: &NodeRef, name: &[u8]) -> Result<(), Memory>
        ensures ok { OnOk result (JoinsIndex node.now dir.now name.now self.old self.new) }
        ensures err { OnErr result
            ((rows : List ViewRow) → IsIndexOf self.old rows → IsIndexOf self.new rows) }
    {
        self.places.reserve(1)?;
        self.children.note(node, dir, name)?;
        match self.places.insert(*node) {
            Ok(_) => {}
            Err(_) => unreachable!(),
        }
        Ok(())
    }

    /// An index of rows.
    pub(crate) fn of_rows(alloc: Global, rows: &[ViewRow]) -> Result<NodeIndex, Memory>
        requires { StandOnce rows.now }
        ensures { IfOk result (λ index. IsIndexOf index rows.now) }
    {
        let mut index = NodeIndex::new(alloc);
        'rows: for row in rows {
            index.note(&row.node, &row.parent, row.name.as_slice())?;
        }
        Ok(index)
    }

    /// Makes room for another name.
    pub(crate) fn make_room(&mut self) -> Result<(), Memory>
        ensures { (rows : List ViewRow) → IsIndexOf self.old rows → IsIndexOf self.new rows }
    {
        self.children.make_room()
    }

    /// Notes that a node, whose row stands at a place, gets another name, as `Children` does.
    pub(crate) fn change_name(
        &mut self,
        rows: &[ViewRow],
        node: &NodeRef,
        place: Option<usize>,
        name: Vec<u8>,
    )
        requires index { IsIndexOf self.old rows.now }
        requires once { StandOnce rows.now }
        requires place { place ≡ position (λ r. same_node r.node node.now) rows.now }
        ensures { IsIndexOf self.new (at_row node.now (with_name_by name.items) rows.now) }
    {
        self.children.change_name(rows, node, place, name);
    }

    /// Notes that a node, whose row stands at a place, gets another directory. It takes no memory.
    pub(crate) fn change_parent(
        &mut self,
        rows: &[ViewRow],
        node: &NodeRef,
        place: Option<usize>,
        parent: &NodeRef,
    )
        requires index { IsIndexOf self.old rows.now }
        requires once { StandOnce rows.now }
        requires place { place ≡ position (λ r. same_node r.node node.now) rows.now }
        ensures { IsIndexOf self.new (at_row node.now (with_parent_by parent.now) rows.now) }
    {
        self.children.change_parent(rows, node, place, parent);
    }

    /// Notes that the row of a node, which stands at a place, is removed. It takes no memory.
    pub(crate) fn remove(&mut self, rows: &[ViewRow], node: &NodeRef, place: Option<usize>)
        requires index { IsIndexOf self.old rows.now }
        requires once { StandOnce rows.now }
        requires place { place ≡ position (λ r. same_node r.node node.now) rows.now }
        ensures { IsIndexOf self.new (without_node node.now rows.now) }
    {
        self.children.remove_row(rows, node, place);
        match place {
            Some(at) => {
                self.places.shift_remove_index(at);
            }
            None => {}
        }
    }
}
