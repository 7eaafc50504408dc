// Which nodes ever stood under a name in a directory.
ghost use Rattle.std.specs.Prelude.{◌≡◌, ℕ, [], true, nat_eq, IfOk, OnOk};
ghost use Rattle.cov_base.specs.Rows.{has_node};
ghost use Rattle.cov_tree.specs.declared.entry.Place.{Place as PlaceValue};
ghost use Rattle.cov_tree.specs.Noted.{noted_at, is_noted, AreNoted, ArePlanNoted, Keeps};

use crate::entry::{Entry, Place};
use cov_base::{Memory, Name, NodeNo};
use indexmap::{Equivalent, IndexMap};
use std::alloc::Global;
use std::hash::Hash;

/// A directory and a name in it, in memory of its own or, for a look-up, borrowed.
#[derive(Debug, PartialEq, Eq, Hash, Drop)]
pub(crate) struct NameKey<D, N> {
    dir: D,
    name: N,
}

impl<D: Eq + Hash> Equivalent<NameKey<D, Vec<u8>>> for &NameKey<D, &[u8]> {
    ghost use Rattle.std.specs.Prelude.{◌≡◌, ◌++◌, ◌&&◌, nat_eq};
    ghost use Rattle.std.specs.Cmp.{first_so, second_so};
    ghost use Rattle.std.specs.Cmp.Lexicographic.{nat_list_eq_equiv, bytes_decides};
    ghost use Rattle.std.specs.Hash.{slice, u8};
    ghost use Rattle.std.specs.Str.{bytes_eq};
    ghost use Rattle.std.proofs.Common.{ap};

    ghost equivalent = { λ q k. D.eq q.now.dir k.dir && bytes_eq q.now.name.now k.name.items };

    ghost respects_hash = { λ q k h i. D.respects_eq q.now.dir k.dir (first_so (D.eq q.now.dir k.dir) (bytes_eq q.now.name.now k.name.items) h) i ++ ap (slice u8) ((bytes_decides q.now.name.now k.name.items).0 (second_so (D.eq q.now.dir k.dir) (bytes_eq q.now.name.now k.name.items) h)) i };

    ghost respects_eq = { λ q x y h i. D.Eq.laws.congr q.now.dir x.dir y.dir (first_so (D.eq q.now.dir x.dir) (bytes_eq q.now.name.now x.name.items) h) i && nat_list_eq_equiv.congr q.now.name.now x.name.items y.name.items (second_so (D.eq q.now.dir x.dir) (bytes_eq q.now.name.now x.name.items) h) i };

    fn equivalent(&self, key: &NameKey<D, Vec<u8>>) -> bool {
        self.dir == key.dir && self.name == key.name.as_slice()
    }
}

/// The nodes that were noted under each name in each directory, each once: those that ever stood there, and those of which a plan
/// that was never installed had it.
#[derive(Drop)]
pub(crate) struct NotedNodes {
    nodes: IndexMap<NameKey<NodeNo, Vec<u8>>, Vec<NodeNo>>,
}

impl NotedNodes {
    pub(crate) fn new(alloc: Global) -> NotedNodes
        ensures { result.nodes.entries ≡ [] }
    {
        NotedNodes {
            nodes: IndexMap::new(alloc),
        }
    }

    /// The nodes that were noted under a name in a directory. It takes no memory.
    pub(crate) fn at(&self, dir: NodeNo, name: &Name) -> &[NodeNo]
        ensures { result.now ≡ noted_at self.now.nodes.entries dir name.now }
    {
        let name = name.as_slice();
        match self.nodes.get(&NameKey { dir, name }) {
            Some(nodes) => nodes.as_slice(),
            None => &[],
        }
    }

    /// Notes the nodes of a plan at each of their places.
    pub(crate) fn note_all(&mut self, plan: &[Entry]) -> Result<(), Memory>
        ensures kept { Keeps self.old.nodes.entries self.new.nodes.entries }
        ensures ok { OnOk result (ArePlanNoted self.new.nodes.entries plan.now) }
    {
        'plan: for entry in plan {
            self.note_places(entry.node, entry.places.as_slice())?;
        }
        Ok(())
    }

    // Notes a node at each of its places.
    fn note_places(&mut self, node: NodeNo, places: &[Place]) -> Result<(), Memory>
        ensures kept { Keeps self.old.nodes.entries self.new.nodes.entries }
        ensures ok { OnOk result (AreNoted self.new.nodes.entries node places.now) }
    {
        'places: for place in places {
            self.note(node, place)?;
        }
        Ok(())
    }

    // Notes a node at a place.
    fn note(&mut self, node: NodeNo, place: &Place) -> Result<(), Memory>
        ensures kept { Keeps self.old.nodes.entries self.new.nodes.entries }
        ensures ok { OnOk result (is_noted self.new.nodes.entries node place.now ≡ true) }
    {
        let name = place.name.as_slice();
        match self.nodes.get_mut(&NameKey {
            dir: place.parent,
            name,
        }) {
            Some(nodes) => add(nodes, node),
            None => self.note_first(node, place),
        }
    }

    // Notes the first node of a place.
    fn note_first(&mut self, node: NodeNo, place: &Place) -> Result<(), Memory>
        requires none { noted_at self.old.nodes.entries place.now.parent place.now.name ≡ [] }
        ensures kept { Keeps self.old.nodes.entries self.new.nodes.entries }
        ensures ok { OnOk result (is_noted self.new.nodes.entries node place.now ≡ true) }
    {
        let alloc = *self.nodes.allocator();
        let key = NameKey {
            dir: place.parent,
            name: Vec::from_slice(alloc, place.name.as_slice())?,
        };
        let nodes = vec![in alloc; node]?;
        self.nodes.insert(key, nodes)?;
        Ok(())
    }
}

// Adds a node that isn't there.
fn add(nodes: &mut Vec<NodeNo>, node: NodeNo) -> Result<(), Memory>
    ensures kept { (n : ℕ) → has_node n nodes.old.items ≡ true → has_node n nodes.new.items ≡ true }
    ensures ok { OnOk result (has_node node nodes.new.items ≡ true) }
{
    if nodes.iter().any(|other| *other == node) {
        return Ok(());
    }
    nodes.push(node)?;
    Ok(())
}
