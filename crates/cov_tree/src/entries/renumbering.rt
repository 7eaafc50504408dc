// The visibilities of all nodes, listed and renumbered.
ghost use Rattle.std.specs.Prelude.{◌≡◌, ◌≤◌, ◌+◌, ◌++◌, length, take, drop, vec_len, vec_capacity, OnOk, OnErr};
ghost use Rattle.cov_tree.specs.Renumbered.{all_numbers, entry_visibilities, entry_without_vis, visibilities, without_visibilities, AllGet, KeepsRows};

use super::Entries;
use crate::dated::DatedEntry;
use cov_base::Memory;
use cov_dd::{Node, Nodes};

impl Entries {
    /// Appends every visibility that nodes have at some position, or none where there is no memory.
    pub fn nodes(&self, into: &mut Nodes) -> Result<(), Memory>
        ensures ok { OnOk result (into.new ≡ into.old ++ visibilities self.now) }
        ensures err { OnErr result (into.new ≡ into.old) }
    {
        let before = into.len();
        match append(self.entries.as_slice(), into) {
            Ok(()) => Ok(()),
            Err(error) => {
                into.cut(before);
                Err(error)
            }
        }
    }

    /// Puts the nodes of a list from a place on in the places of the visibilities, in the order of `nodes`. It answers the place after
    /// the last, lets the trees that are kept go, and takes no memory.
    pub fn renumber(&mut self, from: &Nodes, first: u64) -> u64
        requires { first + length (visibilities self.old) ≤ length from.now }
        ensures next { result ≡ first + length (visibilities self.old) }
        ensures nodes { visibilities self.new ≡
            take (length (visibilities self.old)) (drop first from.now) }
        ensures same { without_visibilities self.new ≡ without_visibilities self.old }
        ensures rows { KeepsRows self.old self.new }
    {
        self.trees.let_go();
        renumber_all(&mut self.entries, from.as_slice(), first)
    }
}

// Appends the visibilities of nodes.
fn append(entries: &[DatedEntry], into: &mut Nodes) -> Result<(), Memory>
    ensures ok { OnOk result (into.new ≡ into.old ++ all_numbers entry_visibilities entries.now) }
    ensures front { take (length into.old) into.new ≡ into.old }
{
    let mut ahead = entries;
    while let [entry, rest @ ..] = ahead {
        entry.append_nodes(into)?;
        ahead = rest;
    }
    Ok(())
}

// Gives nodes the visibilities of a list from a place on.
fn renumber_all(entries: &mut Vec<DatedEntry>, from: &[Node], first: u64) -> u64
    requires { first + length (all_numbers entry_visibilities entries.old.items) ≤ length from.now }
    ensures next { result ≡ first + length (all_numbers entry_visibilities entries.old.items) }
    ensures entries { AllGet entry_visibilities entry_without_vis
        entries.old.items entries.new.items (drop first from.now) }
    ensures capacity { vec_capacity entries.new ≡ vec_capacity entries.old }
    ensures len { vec_len entries.new ≡ vec_len entries.old }
{
    let alloc = *entries.allocator();
    let mut next = first;
    let mut index = 0;
    while index < entries.len() {
        next = entries[index].renumber(alloc, from, next);
        index += 1;
    }
    next
}
