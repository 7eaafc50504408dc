// The nodes below a node, in the order of a walk.
ghost use Rattle.std.specs.Prelude.{◌≡◌, ◌<◌, ◌++◌, ◌∷◌, [], not, nat_eq, IfOk, OnOk, if◌then◌else◌};
ghost use Rattle.std.specs.List.{list_any, position};
ghost use Rattle.cov_dd.specs.Diagrams.{diagram_size};
ghost use Rattle.cov_vis.specs.Visiting.{Visits};

use cov_base::Memory;
use cov_dd::{Node, Table};
use indexmap::IndexSet;
use std::alloc::Global;
use std::marker::Model;

/// Nodes in the order in which they were met, each once.
#[derive(Drop)]
pub(crate) struct Nodes {
    met: IndexSet<Node>,
}

impl Model for Nodes {
    ghost use Rattle.std.specs.Prelude.{List, ℕ};

    ghost Value = { List ℕ };

    ghost view = { λ n. n.met.keys };
}

impl Nodes {
    pub(crate) fn new(alloc: Global) -> Nodes
        ensures { result ≡ [] }
    {
        Nodes {
            met: IndexSet::new(alloc),
        }
    }

    /// Puts a node behind the others; false where it is among them.
    pub(crate) fn put(&mut self, node: Node) -> Result<bool, Memory>
        ensures new { IfOk result (λ new. new ≡ not (list_any (nat_eq node) self.old)) }
        ensures nodes { IfOk result (λ new.
            self.new ≡ (if new then self.old ++ node ∷ [] else self.old)) }
    {
        let (_, new) = self.met.insert_full(node)?;
        Ok(new)
    }

    /// Where a node stands, None exactly where it isn't there.
    pub(crate) fn place(&self, node: Node) -> Option<u64>
        ensures { result ≡ position (nat_eq node) self.now }
    {
        match self.met.get_index_of(&node) {
            Some(index) => Some(index as u64),
            None => None,
        }
    }

    pub(crate) fn as_slice(&self) -> &[Node]
        ensures { result.now ≡ self.now }
    {
        self.met.as_slice()
    }
}

/// Puts a node behind those met, then what lies below its off side, then what lies below its on side, but FALSE, TRUE and what was
/// met before. It goes no deeper than there are options, and takes time in the number of nodes met.
pub(crate) fn visit(table: &Table, node: Node, met: &mut Nodes) -> Result<(), Memory>
    requires within { node < diagram_size table.now }
    ensures visits { OnOk result (Visits table.now met.old node met.new) }
{
    let triple = match table.entry(node) {
        Some(triple) => triple,
        None => return Ok(()),
    };
    if !met.put(node)? {
        return Ok(());
    }
    match visit(table, triple.off, met) {
        Ok(()) => {}
        Err(error) => return Err(error),
    }
    match visit(table, triple.on, met) {
        Ok(()) => Ok(()),
        Err(error) => Err(error),
    }
}
