// The table without what no root reaches.
ghost use Rattle.std.specs.Prelude.{◌≡◌, ◌<◌, ◌≤◌, ◌∷◌, ◌++◌, ℕ, [], length, map, replicate, slice_index, true, false, IfOk, OnOk, OnErr, IsTrue, IsFalse};
ghost use Rattle.std.specs.List.{AllByRecursion};
ghost use Rattle.cov_dd.specs.Diagrams.{diagram_size};
ghost use Rattle.cov_dd.specs.Marks.{is_marked, kept_of, AreChildrenMarked, AreMarked, AreNodesMarked, AreSpread, HasKept, IsClosed};
ghost use Rattle.cov_dd.specs.Sweeps.{AreReached, AreRenumbered};

use super::{Table, place};
use crate::{FALSE, Node, Nodes, TRUE, Triple};
use cov_base::Memory;
use indexmap::IndexSet;
use std::alloc::Global;
use std::marker::Model;

impl Table {
    /// Keeps the nodes that the roots reach and no others, and puts in the place of each root its node from now on, which has the
    /// same options and values. Other nodes of before are no longer of this table. After want of memory all is as before. It takes
    /// time in the number of nodes and roots.
    pub fn sweep(&mut self, roots: &mut Nodes) -> Result<(), Memory>
        requires { AllByRecursion (λ a. a < diagram_size self.old) roots.old }
        ensures roots { OnOk result (AreRenumbered self.old self.new roots.old roots.new) }
        ensures reached { OnOk result (AreReached self.new roots.new) }
        ensures fewer { diagram_size self.new ≤ diagram_size self.old }
        ensures table_err { OnErr result (self.new ≡ self.old) }
        ensures roots_err { OnErr result (roots.new ≡ roots.old) }
    {
        let marks = self.marked(roots.as_slice())?;
        let Kept { entries, numbers } = self.marked_entries(marks.as_slice())?;
        renumber(roots, numbers.as_slice());
        self.entries = entries;
        self.conjunctions.clear();
        Ok(())
    }

    // Which nodes are FALSE, TRUE or reached from the roots.
    fn marked(&self, roots: &[Node]) -> Result<Vec<bool>, Memory>
        requires { AllByRecursion (λ a. a < diagram_size self.now) roots.now }
        ensures { IfOk result (λ marks. AreMarked self.now roots.now marks.items) }
    {
        let mut marks = vec![in self.allocator(); false; self.entries.len() + 2]?;
        self.mark_reached(roots, marks.as_mut_slice());
        Ok(marks)
    }

    fn mark_reached(&self, roots: &[Node], marks: &mut [bool])
        requires roots { AllByRecursion (λ a. a < diagram_size self.now) roots.now }
        requires empty { marks.old ≡ replicate (diagram_size self.now) false }
        ensures { AreMarked self.now roots.now marks.new }
    {
        // Reading a field brings the table's invariant into the proof.
        let _ = &self.entries;
        mark(&[FALSE, TRUE], marks);
        mark(roots, marks);
        self.mark_below(marks);
    }

    // Marks all that marked nodes reach. Children stand before their parents, so it goes down once.
    fn mark_below(&self, marks: &mut [bool])
        requires { length marks.old ≡ diagram_size self.now }
        ensures { AreSpread self.now 0 marks.old marks.new }
    {
        // Reading a field brings the table's invariant into the proof.
        let _ = &self.entries;
        let mut node = marks.len() as Node;
        while node > 0 {
            node -= 1;
            self.mark_children(node, marks);
        }
    }

    // Marks the children of a node that is marked.
    fn mark_children(&self, node: Node, marks: &mut [bool])
        requires long { length marks.old ≡ diagram_size self.now }
        requires node { node < diagram_size self.now }
        ensures { AreChildrenMarked self.now node marks.old marks.new }
    {
        if !marks[node as usize] {
            return;
        }
        let Some(triple) = self.entry(node) else {
            return;
        };
        mark(&[triple.off, triple.on], marks);
    }

    // The marked entries with their new numbers.
    fn marked_entries(&self, marks: &[bool]) -> Result<Kept, Memory>
        requires long { length marks.now ≡ diagram_size self.now }
        requires constants { (n : ℕ) → n < 2 → is_marked marks.now n ≡ true }
        requires closed { IsClosed (is_marked marks.now) self.now }
        ensures { IfOk result (λ kept. kept ≡ kept_of (is_marked marks.now) self.now) }
    {
        // Reading a field brings the table's invariant into the proof.
        let _ = &self.entries;
        let count = marks.iter().filter(|is_marked| **is_marked).count();
        let mut kept = Kept::with_capacity(self.allocator(), marks.len(), count)?;
        let mut node: Node = 2;
        while let Some(triple) = self.entry(node) {
            kept.add(triple, marks[node as usize])?;
            node += 1;
        }
        Ok(kept)
    }
}

// Marks some nodes.
fn mark(nodes: &[Node], marks: &mut [bool])
    requires { AllByRecursion (λ a. a < length marks.old) nodes.now }
    ensures { AreNodesMarked nodes.now marks.old marks.new }
{
    let mut ahead = nodes;
    while let [node, rest @ ..] = ahead {
        marks[*node as usize] = true;
        ahead = rest;
    }
}

// Puts the number of each node in its place.
fn renumber(nodes: &mut Nodes, numbers: &[Node])
    requires { AllByRecursion (λ a. a < length numbers.now) nodes.old }
    ensures { nodes.new ≡ map (slice_index numbers.now) nodes.old }
{
    // What `len` ensures bounds the index for the proof.
    let _count = nodes.len();
    let mut index = 0;
    while let Some(node) = nodes.get(index) {
        nodes.set(index, numbers[node as usize]);
        index += 1;
    }
}

/// Entries that are kept, and the number of each node that was met. Contracts see the entries newest first.
#[derive(Drop)]
struct Kept {
    entries: IndexSet<Triple>,
    numbers: Vec<Node>,
}

impl Model for Kept {
    ghost use Rattle.std.specs.Prelude.{reverse};
    ghost use Rattle.cov_dd.specs.Marks.{KeptValue};

    ghost Value = { KeptValue };

    ghost view = { λ k. record { entries = reverse k.entries.keys; numbers = k.numbers.items } };
}

impl Kept {
    // With room for so many numbers and entries. FALSE and TRUE keep their numbers.
    fn with_capacity(alloc: Global, numbers: usize, entries: usize) -> Result<Kept, Memory>
        ensures entries { IfOk result (λ kept. kept.entries ≡ []) }
        ensures numbers { IfOk result (λ kept. kept.numbers ≡ 0 ∷ 1 ∷ []) }
    {
        let mut room = Vec::with_capacity(alloc, numbers)?;
        room.push(FALSE)?;
        room.push(TRUE)?;
        Ok(Kept {
            entries: IndexSet::with_capacity(alloc, entries)?,
            numbers: room,
        })
    }

    // Gives the next node its number, and keeps its entry if it is marked.
    fn add(&mut self, triple: Triple, is_kept: bool) -> Result<(), Memory>
        requires off { triple.off < length self.old.numbers }
        requires on { triple.on < length self.old.numbers }
        ensures numbers { OnOk result (self.new.numbers ≡
            self.old.numbers ++ diagram_size self.old.entries ∷ []) }
        ensures kept { IsTrue is_kept → OnOk result (HasKept self.old self.new triple) }
        ensures left { IsFalse is_kept → OnOk result (self.new.entries ≡ self.old.entries) }
    {
        let renumbered = Triple {
            option: triple.option,
            off: self.numbers[triple.off as usize],
            on: self.numbers[triple.on as usize],
        };
        self.numbers.push(self.entries.len() as Node + 2)?;
        if !is_kept {
            return Ok(());
        }
        place(&mut self.entries, renumbered)?;
        Ok(())
    }
}
