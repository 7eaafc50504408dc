// Which nodes take the places of which.
ghost use Rattle.std.specs.Prelude.{◌≡◌, [], None, Some, true, OnOk};
ghost use Rattle.cov_values.specs.Replaced.{found_by, found_in, IsReplacedStill};

use crate::values::MOST_VALUES;
use cov_base::Memory;
use cov_dd::{FALSE, Node};
use std::alloc::Global;
use std::marker::Model;

/// A node, and the one that takes its place.
#[derive(Clone, Copy)]
pub struct Replaced {
    node: Node,
    by: Node,
}

/// FALSE stays as it is.
pub const NOT_REPLACED: Replaced = Replaced {
    node: FALSE,
    by: FALSE,
};

/// Which node takes the place of each of a few, which are gone through one by one. FALSE stays as it is.
#[derive(Drop)]
pub struct Replacements {
    each: Vec<Replaced>,
}

impl Model for Replacements {
    ghost use Rattle.std.specs.Prelude.{List};
    ghost use Rattle.cov_values.specs.declared.replacing.Replaced.{Replaced};

    ghost Value = { List Replaced };

    ghost view = { λ r. r.each.items };
}

impl Replacements {
    /// No node is replaced.
    pub fn new(alloc: Global) -> Replacements
        ensures { result ≡ [] }
    {
        Replacements {
            each: Vec::new(alloc),
        }
    }

    /// Which node takes the place of a node.
    pub fn get(&self, node: Node) -> Option<Node>
        ensures { result ≡ found_by self.now node }
    {
        if node == FALSE {
            return Some(FALSE);
        }
        found(self.each.as_slice(), node)
    }

    /// Whether a node takes the place of another from now on: it doesn't where another one does, where too many are replaced, or
    /// where there is no memory.
    pub fn put(&mut self, node: Node, by: Node) -> bool
        ensures there { result ≡ true → found_by self.new node ≡ Some by }
        ensures still { IsReplacedStill self.old self.new }
    {
        match self.get(node) {
            Some(other) => other == by,
            None => match self.add(node, by) {
                Ok(()) => true,
                Err(_) => false,
            },
        }
    }

    /// The same, once it was done for another node: that one may be the same, and isn't looked for then.
    pub fn put_next(&mut self, node: Node, by: Node, last: &mut Replaced) -> bool
        requires { found_by self.old last.old.node ≡ Some last.old.by }
        ensures there { result ≡ true → found_by self.new node ≡ Some by }
        ensures still { IsReplacedStill self.old self.new }
        ensures last { result ≡ true → found_by self.new last.new.node ≡ Some last.new.by }
    {
        if node == last.node {
            return by == last.by;
        }
        *last = Replaced { node, by };
        self.put(node, by)
    }

    fn add(&mut self, node: Node, by: Node) -> Result<(), Memory>
        requires { found_by self.old node ≡ None }
        ensures there { OnOk result (found_by self.new node ≡ Some by) }
        ensures still { IsReplacedStill self.old self.new }
    {
        if self.each.len() >= MOST_VALUES {
            return Err(Memory);
        }
        self.each.push(Replaced { node, by })?;
        Ok(())
    }
}

// What takes the place of a node that is among these.
fn found(replaced: &[Replaced], node: Node) -> Option<Node>
    ensures { result ≡ found_in replaced.now node }
{
    let mut ahead = replaced;
    while let [first, rest @ ..] = ahead {
        if first.node == node {
            return Some(first.by);
        }
        ahead = rest;
    }
    None
}
