// What keeps nodes, listed and renumbered.
ghost use Rattle.std.specs.Prelude.{◌≡◌, ◌≤◌, ◌+◌, ◌++◌, ℕ, length, map, take, drop, vec_len, vec_capacity, OnOk};
ghost use Rattle.cov_base.specs.Replacing.{having};

use crate::{Node, Nodes};
use cov_base::Memory;

/// What keeps one node.
pub trait HasNode {
    // the node
    ghost node_of: { Self → ℕ };
    // the same with this node in the place of its own
    ghost having_node: { ℕ → Self → Self };

    fn node(&self) -> Node
        ensures { result ≡ node_of self.now };

    /// Puts a node in the place of its own, without memory.
    fn set_node(&mut self, node: Node)
        ensures { self.new ≡ having_node node self.old };

    // the node put in is its own
    ghost has_that_node: { (n : ℕ) (x : Self) → node_of (having_node n x) ≡ n };
}

/// Appends the node of each. At an `Err` those in front are still there, and behind them may be some of these.
pub fn append_nodes<T: HasNode>(items: &[T], into: &mut Nodes) -> Result<(), Memory>
    ensures ok { OnOk result (into.new ≡ into.old ++ map T.node_of items.now) }
    ensures front { take (length into.old) into.new ≡ into.old }
{
    let mut ahead = items;
    while let [item, rest @ ..] = ahead {
        into.push(item.node())?;
        ahead = rest;
    }
    Ok(())
}

/// Puts the nodes of a list from a place on in the places of theirs, without memory, and answers the place after the last.
pub fn renumber_nodes<T: HasNode>(items: &mut Vec<T>, from: &[Node], first: u64) -> u64
    requires { first + length items.old.items ≤ length from.now }
    ensures next { result ≡ first + length items.old.items }
    ensures items { items.new.items ≡
        having T.having_node items.old.items (drop first from.now) }
    ensures capacity { vec_capacity items.new ≡ vec_capacity items.old }
    ensures len { vec_len items.new ≡ vec_len items.old }
{
    let mut index = 0;
    while index < items.len() {
        items[index].set_node(from[first as usize + index]);
        index += 1;
    }
    first + items.len() as u64
}
