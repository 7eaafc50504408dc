// A node with its own changes.
ghost use Rattle.std.specs.Prelude.{◌≡◌, ◌<◌, ◌≤◌, ◌+◌, ◌++◌, [], length, take, drop, IfOk, OnOk};
ghost use Rattle.cov_tree.specs.Dated.{entry_at, newest_entry, with_no_room};
ghost use Rattle.cov_tree.specs.Installing.{IsChanged};
ghost use Rattle.cov_tree.specs.Renumbered.{entry_visibilities, entry_without_vis, Gets};

use crate::entry::{Entry, Place, Places};
use crate::renumbering::{append_lists, renumber_lists};
use cov_base::{Kind, Memory, NodeNo, OlderLists, Position};
use cov_dd::{Node, Nodes, append_nodes};
use std::alloc::Global;
use std::mem;

/// A node but the root, with the places that it has from its newest change on, and those that it had before. A node that was
/// never changed takes no memory for older ones.
#[derive(Drop)]
pub struct DatedEntry {
    pub(crate) node: NodeNo,
    pub(crate) kind: Kind,
    pub(crate) from: Position,
    pub(crate) places: Places,
    pub(crate) older: OlderLists<Place>,
}

impl DatedEntry {
    /// A node that is made at a position. It takes no memory.
    pub(crate) fn new(alloc: Global, entry: Entry, at: Position) -> DatedEntry
        ensures node { result.node ≡ entry.node }
        ensures kind { result.kind ≡ entry.kind }
        ensures from { result.from ≡ at }
        ensures places { result.places ≡ entry.places }
        ensures older { result.older.lists ≡ [] }
    {
        DatedEntry {
            node: entry.node,
            kind: entry.kind,
            from: at,
            places: entry.places,
            older: OlderLists::new(alloc),
        }
    }

    /// Makes room for a change.
    pub(crate) fn reserve(&mut self) -> Result<(), Memory>
        ensures same { with_no_room self.new ≡ with_no_room self.old }
        ensures room { OnOk result (0 < self.new.older.room) }
    {
        self.older.reserve()
    }

    /// Sets the places from a position on. It takes no memory.
    pub(crate) fn set(&mut self, places: Places, at: Position)
        requires room { 0 < self.old.older.room }
        ensures { IsChanged at places self.old self.new }
    {
        let places = mem::replace(&mut self.places, places);
        if self.from == at {
            return;
        }
        let from = mem::replace(&mut self.from, at);
        self.older.push(from, places.into_items());
    }

    /// The places at a position.
    pub(crate) fn places_at(&self, position: Position) -> &[Place]
        ensures { result.now ≡ (entry_at position self.now).places }
    {
        if self.from <= position {
            return self.places.as_slice();
        }
        self.older.at(position)
    }

    /// Appends each visibility, those of the newest change first.
    pub(crate) fn append_nodes(&self, into: &mut Nodes) -> Result<(), Memory>
        ensures ok { OnOk result (into.new ≡ into.old ++ entry_visibilities self.now) }
        ensures front { take (length into.old) into.new ≡ into.old }
    {
        append_nodes(self.places.as_slice(), into)?;
        append_lists(self.older.as_slice(), into)
    }

    /// Puts those of a list from a place on in their places. It answers the place after the last, and takes no memory.
    pub(crate) fn renumber(&mut self, alloc: Global, from: &[Node], first: u64) -> u64
        requires { first + length (entry_visibilities self.old) ≤ length from.now }
        ensures next { result ≡ first + length (entry_visibilities self.old) }
        ensures entry { Gets entry_visibilities entry_without_vis self.old self.new
            (drop first from.now) }
    {
        let second = self.places.renumber(from, first);
        renumber_lists(&mut self.older, alloc, from, second)
    }

    /// The node as it is since its newest change, in memory of its own.
    pub(crate) fn newest(&self) -> Result<Entry, Memory>
        ensures { IfOk result (λ entry. entry ≡ newest_entry self.now) }
    {
        Ok(Entry {
            node: self.node,
            kind: self.kind,
            places: self.places.copy()?,
        })
    }
}
