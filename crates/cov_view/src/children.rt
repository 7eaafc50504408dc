// The names in directories, each found with one look-up.
ghost use Rattle.std.specs.Prelude.{◌≡◌, ◌∷◌, ◌++◌, [], true, false, None, IfSome, OnOk, OnErr, position};
ghost use Rattle.cov_view.specs.Keys.{is_child, indexed, IsIndex, JoinsNames, RemovesName};
ghost use Rattle.cov_view.specs.References.{same_node};
ghost use Rattle.cov_view.specs.Seen.{child_in, at_row, with_name_by, with_parent_by, without_node, StandOnce};

use crate::row::{ViewRow, same_node};
use cov_base::{Memory, NodeRef};
use indexmap::{Equivalent, IndexMap};
use std::alloc::Global;
use std::hash::Hash;

/// What a node is found by: its directory and its name, in memory of its own or, for a look-up, borrowed.
#[derive(Debug, PartialEq, Eq, Hash, Drop)]
pub(crate) struct ChildKey<D, N> {
    pub(crate) dir: D,
    pub(crate) name: N,
}

impl<D: Eq + Hash> Equivalent<ChildKey<D, Vec<u8>>> for &ChildKey<D, &[u8]> {
    ghost use Rattle.std.specs.Prelude.{◌≡◌, ◌&&◌, nat_eq};
    ghost use Rattle.std.specs.Cmp.{first_so, second_so};
    ghost use Rattle.std.specs.Cmp.Lexicographic.{nat_list_eq_equiv, bytes_decides};
    ghost use Rattle.std.specs.Hash.{slice, u8};
    ghost use Rattle.std.specs.Str.{bytes_eq};
    ghost use Rattle.std.proofs.Common.{ap};

    ghost equivalent = { λ q k. D.eq q.now.dir k.dir && bytes_eq q.now.name.now k.name.items };

    ghost respects_hash = { λ q k h i. D.respects_eq q.now.dir k.dir (first_so (D.eq q.now.dir k.dir) (bytes_eq q.now.name.now k.name.items) h) i ++ ap (slice u8) ((bytes_decides q.now.name.now k.name.items).0 (second_so (D.eq q.now.dir k.dir) (bytes_eq q.now.name.now k.name.items) h)) i };

    ghost respects_eq = { λ q x y h i. D.Eq.laws.congr q.now.dir x.dir y.dir (first_so (D.eq q.now.dir x.dir) (bytes_eq q.now.name.now x.name.items) h) i && nat_list_eq_equiv.congr q.now.name.now x.name.items y.name.items (second_so (D.eq q.now.dir x.dir) (bytes_eq q.now.name.now x.name.items) h) i };

    fn equivalent(&self, key: &ChildKey<D, Vec<u8>>) -> bool {
        self.dir == key.dir && self.name == key.name.as_slice()
    }
}

/// The node of each name in each directory. Where two nodes of a directory have one name, or where the key of a node that is
/// moved finds no room, the index is given up, and what is looked up from then on is looked for in the rows.
#[derive(Debug, Drop)]
pub(crate) struct Children {
    nodes: IndexMap<ChildKey<NodeRef, Vec<u8>>, NodeRef>,
    is_kept: bool,
}

impl Children {
    pub(crate) fn new(alloc: Global) -> Children
        ensures { IsIndex result.is_kept [] result.nodes.entries }
    {
        Children {
            nodes: IndexMap::new(alloc),
            is_kept: true,
        }
    }

    /// The node of that name in a directory. It takes no memory, and time in the name, or in the rows once the index was
    /// given up.
    pub(crate) fn node(&self, rows: &[ViewRow], dir: &NodeRef, name: &[u8]) -> Option<NodeRef>
        requires { IsIndex self.now.is_kept rows.now self.now.nodes.entries }
        ensures { result ≡ child_in rows.now dir.now name.now }
    {
        if self.is_kept {
            return self.look_up(dir, name);
        }
        child_among(rows, dir, name)
    }

    fn look_up(&self, dir: &NodeRef, name: &[u8]) -> Option<NodeRef>
        ensures { result ≡ indexed self.now.nodes.entries dir.now name.now }
    {
        self.nodes.get(&ChildKey { dir: *dir, name }).copied()
    }

    /// Notes the node of a name in a directory, whose row joins others.
    pub(crate) fn note(&mut self, node: &NodeRef, dir: &NodeRef, name: &[u8]) -> Result<(), Memory>
        ensures ok { OnOk result (JoinsNames node.now dir.now name.now self.old.is_kept
            self.old.nodes.entries self.new.is_kept self.new.nodes.entries) }
        ensures kept { OnErr result (self.new.is_kept ≡ self.old.is_kept) }
        ensures nodes { OnErr result (self.new.nodes.entries ≡ self.old.nodes.entries) }
    {
        if !self.is_kept {
            return Ok(());
        }
        let key = ChildKey {
            dir: *dir,
            name: Vec::from_slice(*self.nodes.allocator(), name)?,
        };
        self.make_room()?;
        self.put(key, node);
        Ok(())
    }

    /// Makes room for one key, and for some that are moved later without memory.
    pub(crate) fn make_room(&mut self) -> Result<(), Memory>
        ensures kept { self.new.is_kept ≡ self.old.is_kept }
        ensures nodes { self.new.nodes.entries ≡ self.old.nodes.entries }
    {
        let more = self.nodes.len() / 4 + 1;
        self.nodes.reserve(more)?;
        Ok(())
    }

    /// Notes that the row of a node, which stands at a place, is removed.
    pub(crate) fn remove_row(&mut self, rows: &[ViewRow], node: &NodeRef, place: Option<usize>)
        requires index { IsIndex self.old.is_kept rows.now self.old.nodes.entries }
        requires place { place ≡ position (λ r. same_node r.node node.now) rows.now }
        ensures { IsIndex self.new.is_kept (without_node node.now rows.now) self.new.nodes.entries }
    {
        match place {
            Some(at) => {
                self.take(&rows[at]);
            }
            None => {}
        }
    }

    /// Notes that a node, whose row stands at a place, gets another directory. It takes no memory.
    pub(crate) fn change_parent(
        &mut self,
        rows: &[ViewRow],
        node: &NodeRef,
        place: Option<usize>,
        parent: &NodeRef,
    )
        requires index { IsIndex self.old.is_kept rows.now self.old.nodes.entries }
        requires once { StandOnce rows.now }
        requires place { place ≡ position (λ r. same_node r.node node.now) rows.now }
        ensures { IsIndex self.new.is_kept (at_row node.now (with_parent_by parent.now) rows.now)
            self.new.nodes.entries }
    {
        let Some(at) = place else {
            return;
        };
        match self.take(&rows[at]) {
            Some(name) => self.put(ChildKey { dir: *parent, name }, node),
            None => self.is_kept = false,
        }
    }

    /// Notes that a node, whose row stands at a place, gets another name. It takes no memory, and gives the index up where
    /// no room was made before.
    pub(crate) fn change_name(
        &mut self,
        rows: &[ViewRow],
        node: &NodeRef,
        place: Option<usize>,
        name: Vec<u8>,
    )
        requires index { IsIndex self.old.is_kept rows.now self.old.nodes.entries }
        requires once { StandOnce rows.now }
        requires place { place ≡ position (λ r. same_node r.node node.now) rows.now }
        ensures { IsIndex self.new.is_kept (at_row node.now (with_name_by name.items) rows.now)
            self.new.nodes.entries }
    {
        let Some(at) = place else {
            return;
        };
        let dir = rows[at].parent;
        self.take(&rows[at]);
        self.put(ChildKey { dir, name }, node);
    }

    // Takes the key of a row out, and gives its name.
    fn take(&mut self, row: &ViewRow) -> Option<Vec<u8>>
        ensures kept { self.new.is_kept ≡ self.old.is_kept }
        ensures left { RemovesName row.now.parent row.now.name self.old.nodes.entries
            self.new.nodes.entries }
        ensures name { IfSome result (λ name. name.items ≡ row.now.name) }
    {
        let key = ChildKey {
            dir: row.parent,
            name: row.name.as_slice(),
        };
        match self.nodes.swap_remove_entry(&key) {
            Some((key, _)) => Some(key.name),
            None => None,
        }
    }

    // Notes the node of a key, which takes no memory, or gives the index up.
    fn put(&mut self, key: ChildKey<NodeRef, Vec<u8>>, node: &NodeRef)
        ensures { self.new.is_kept ≡ true →
            (self.old.is_kept ≡ true) ×
            (indexed self.old.nodes.entries key.dir key.name.items ≡ None) ×
            (self.new.nodes.entries ≡ self.old.nodes.entries ++ (key, node.now) ∷ []) }
    {
        if self.nodes.len() == self.nodes.capacity() {
            self.is_kept = false;
            return;
        }
        if self.nodes.contains_key(&key) {
            self.is_kept = false;
            return;
        }
        match self.nodes.insert(key, *node) {
            Ok(_) => {}
            Err(_) => unreachable!(),
        }
    }
}

/// The node of that name in a directory, which is looked for in the rows.
pub(crate) fn child_among(rows: &[ViewRow], dir: &NodeRef, name: &[u8]) -> Option<NodeRef>
    ensures { result ≡ child_in rows.now dir.now name.now }
{
    match find_child(rows, dir, name) {
        Some(at) => Some(rows[at].node),
        None => None,
    }
}

// The place of the first row of that name in a directory.
fn find_child(rows: &[ViewRow], dir: &NodeRef, name: &[u8]) -> Option<usize>
    ensures { result ≡ position (is_child dir.now name.now) rows.now }
{
    rows.iter().position(|row| is_child(row, dir, name))
}

fn is_child(row: &ViewRow, dir: &NodeRef, name: &[u8]) -> bool
    ensures { result ≡ is_child dir.now name.now row.now }
{
    same_node(&row.parent, dir) && row.name.as_slice() == name
}
