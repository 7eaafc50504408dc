// Nodes with an option set.
ghost use Rattle.std.specs.Prelude.{◌≡◌, ◌<◌, ◌≤◌, ◌+◌, IfOk, IfSome, IfNone};
ghost use Rattle.cov_dd.specs.Diagrams.{diagram_size, top, span, Extends, Stands};
ghost use Rattle.cov_dd.specs.Reached.{size};
ghost use Rattle.cov_dd.specs.Cofactors.{cofactor, AreCofactors, Restricts};

use super::Table;
use crate::memo::{Memo, Pair};
use crate::{FALSE, Node, Triple};
use cov_base::{Memory, OptionId, Steps, Tally, Uncounted};

impl Table {
    /// The node that has on each choice the node's value on that choice with the option set. It makes at most one
    /// entry for each node reached from the given one.
    pub fn restrict(&mut self, a: Node, option: OptionId, on: bool) -> Result<Node, Memory>
        requires { a < diagram_size self.old }
        ensures extends { Extends self.old self.new }
        ensures stands { IfOk result (λ r.
            Stands self.new r (top self.old a) (span self.old a) (cofactor self.old a option on)) }
        ensures entries { diagram_size self.new ≤ diagram_size self.old + size self.old a }
    {
        let mut memo = Memo::new(*self.entries.allocator());
        self.restrict_below(a, option, on, &mut memo)
    }

    // One step down a node. The memo keeps a node from being met twice; each is the first of a pair with FALSE.
    fn restrict_below(
        &mut self,
        a: Node,
        option: OptionId,
        on: bool,
        memo: &mut Memo,
    ) -> Result<Node, Memory>
        requires a { a < diagram_size self.old }
        requires right { AreCofactors option on self.old memo.old.made }
        ensures restricts { Restricts option on self.old self.new a memo.old.made memo.new.made }
        ensures stands { IfOk result (λ r.
            Stands self.new r (top self.old a) (span self.old a) (cofactor self.old a option on)) }
    {
        if let Some(node) = self.restricted(a, option, on) {
            return Ok(node);
        }
        let pair = Pair {
            left: a,
            right: FALSE,
        };
        if let Some(node) = memo.find(pair) {
            return Ok(node);
        }
        let first = OptionId::new(self.top_of(a));
        let sides = self.sides(a, first);
        let off_side = match self.restrict_below(sides.off, option, on, memo) {
            Ok(node) => node,
            Err(error) => return Err(error),
        };
        let on_side = match self.restrict_below(sides.on, option, on, memo) {
            Ok(node) => node,
            Err(error) => return Err(error),
        };
        let triple = Triple {
            option: first,
            off: off_side,
            on: on_side,
        };
        let steps = &mut Steps::<Uncounted>::new();
        self.join(pair, triple, memo, &mut Tally::new(), steps)
    }

    // The cofactor where it needs no new entry. Else the node's own option comes before the one that is set.
    fn restricted(&self, a: Node, option: OptionId, on: bool) -> Option<Node>
        requires { a < diagram_size self.now }
        ensures some { IfSome result (λ r.
            Stands self.now r (top self.now a) (span self.now a) (cofactor self.now a option on)) }
        ensures none { IfNone result (top self.now a < option) }
    {
        // Reading a field brings the table's invariant into the proof.
        let _ = &self.entries;
        let number = option.number();
        let first = self.top_of(a);
        if number < first {
            return Some(a);
        }
        if first < number {
            return None;
        }
        Some(self.side(a, option, on))
    }

    // The node that a node is where its own option has a value.
    fn side(&self, a: Node, option: OptionId, on: bool) -> Node
        requires a { a < diagram_size self.now }
        requires own { top self.now a ≡ option }
        ensures { Stands self.now result (top self.now a) (span self.now a)
            (cofactor self.now a option on) }
    {
        // Reading a field brings the table's invariant into the proof.
        let _ = &self.entries;
        // What `number` ensures bounds the option for the proof.
        let _below_128 = option.number();
        let sides = self.sides(a, option);
        if on {
            return sides.on;
        }
        sides.off
    }
}
