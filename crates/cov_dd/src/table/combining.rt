// Boolean operations on nodes. Each goes down both nodes option by option, and no deeper than there are options.
ghost use Rattle.std.specs.Prelude.{◌≡◌, ◌<◌, ◌≤◌, ◌+◌, ◌-◌, ◌*◌, ℕ, Bool, min, max, not, ◌&&◌, ◌||◌, IfOk, IfSome, IfNone, OnOk, OnErr};
ghost use Rattle.cov_dd.specs.declared.operation.Operation.{Operation};
ghost use Rattle.cov_dd.specs.Diagrams.{diagram_size, top, span, value_in, Extends, Stands};
ghost use Rattle.cov_dd.specs.Memos.{IsKey};
ghost use Rattle.cov_dd.specs.Reached.{size};
ghost use Rattle.cov_dd.specs.Combinations.{first_option, joint_span, both_in, AreRight, IsResult, IsRight, IsNodeOf, IsSides, Runs, Joins, Rests};

use super::Table;
use crate::memo::{Memo, Pair};
use crate::operation::{Operation, shortcut};
use crate::{Node, TRUE, Triple};
use cov_base::{CHOICE_WIDTH, Ledger, Memory, OptionId, Steps, Tally, Uncounted};

/// The nodes that a node is where an option is off and where it is on.
#[derive(Clone, Copy, Debug)]
pub(super) struct Sides {
    pub(super) off: Node,
    pub(super) on: Node,
}

impl Table {
    /// The node that is true where both are. There is one tick for each `make`.
    pub fn and<L: Ledger>(&mut self, a: Node, b: Node, steps: &mut Steps<L>) -> Result<Node, Memory>
        requires a { a < diagram_size self.old }
        requires b { b < diagram_size self.old }
        ensures extends { Extends self.old self.new }
        ensures stands { IfOk result (λ r.
            Stands self.new r (first_option self.old a b) (joint_span self.old a b)
            (λ c. value_in self.old a c && value_in self.old b c)) }
        ensures rising { steps.old ≤ steps.new }
        ensures bound { steps.new - steps.old ≤ size self.old a * size self.old b }
        ensures entries { diagram_size self.new ≤ diagram_size self.old + (steps.new - steps.old) }
    {
        if let Some(node) = self.settled(Operation::And, a, b) {
            return Ok(node);
        }
        let pair = Pair { left: a, right: b };
        if let Some(node) = self.recall(pair) {
            return Ok(node);
        }
        let node = match self.combine(Operation::And, a, b, &mut Tally::new(), steps) {
            Ok(node) => node,
            Err(error) => return Err(error),
        };
        self.remember(pair, node);
        Ok(node)
    }

    /// The node that is true where one of both is.
    pub fn or(&mut self, a: Node, b: Node) -> Result<Node, Memory>
        requires a { a < diagram_size self.old }
        requires b { b < diagram_size self.old }
        ensures extends { Extends self.old self.new }
        ensures stands { IfOk result (λ r.
            Stands self.new r (first_option self.old a b) (joint_span self.old a b)
            (λ c. value_in self.old a c || value_in self.old b c)) }
    {
        let steps = &mut Steps::<Uncounted>::new();
        self.combine(Operation::Or, a, b, &mut Tally::new(), steps)
    }

    /// The node that is true where the first is and the second isn't.
    pub fn without(&mut self, a: Node, b: Node) -> Result<Node, Memory>
        requires a { a < diagram_size self.old }
        requires b { b < diagram_size self.old }
        ensures extends { Extends self.old self.new }
        ensures stands { IfOk result (λ r.
            Stands self.new r (first_option self.old a b) (joint_span self.old a b)
            (λ c. value_in self.old a c && not (value_in self.old b c))) }
    {
        let steps = &mut Steps::<Uncounted>::new();
        self.combine(Operation::Without, a, b, &mut Tally::new(), steps)
    }

    /// The node that is true where the node isn't.
    pub fn not(&mut self, a: Node) -> Result<Node, Memory>
        requires { a < diagram_size self.old }
        ensures extends { Extends self.old self.new }
        ensures stands { IfOk result (λ r.
            Stands self.new r (top self.old a) (span self.old a)
            (λ c. not (value_in self.old a c))) }
    {
        // Reading a field brings the table's invariant into the proof.
        let _ = &self.entries;
        self.without(TRUE, a)
    }

    // The node of a conjunction, if it is remembered from an earlier call.
    fn recall(&mut self, pair: Pair) -> Option<Node>
        ensures same { self.new ≡ self.old }
        ensures some { IfSome result (IsResult Operation.And self.old pair) }
    {
        self.conjunctions.find(pair)
    }

    // Remembers the node of a conjunction for later calls, unless there is no memory for it.
    fn remember(&mut self, pair: Pair, node: Node)
        requires { IsRight Operation.And self.old (pair, node) }
        ensures { self.new ≡ self.old }
    {
        self.conjunctions.put(pair, node);
    }

    // The node of an operation on two nodes. Each node that it makes is one tick.
    fn combine<L: Ledger>(
        &mut self,
        operation: Operation,
        a: Node,
        b: Node,
        makes: &mut Tally,
        steps: &mut Steps<L>,
    ) -> Result<Node, Memory>
        requires a { a < diagram_size self.old }
        requires b { b < diagram_size self.old }
        ensures extends { Extends self.old self.new }
        ensures stands { IfOk result (λ r.
            Stands self.new r (first_option self.old a b) (joint_span self.old a b)
            (both_in operation self.old a b)) }
        ensures rising { steps.old ≤ steps.new }
        ensures bound { steps.new - steps.old ≤ size self.old a * size self.old b }
        ensures entries { diagram_size self.new ≤ diagram_size self.old + (steps.new - steps.old) }
        ensures ticks { steps.new + makes.old.number ≡ steps.old + makes.new.number }
    {
        let mut memo = Memo::new(*self.entries.allocator());
        self.descend(operation, a, b, &mut memo, makes, steps)
    }

    // One step down both nodes at their first option. The memo keeps a pair from being met twice.
    fn descend<L: Ledger>(
        &mut self,
        operation: Operation,
        a: Node,
        b: Node,
        memo: &mut Memo,
        makes: &mut Tally,
        steps: &mut Steps<L>,
    ) -> Result<Node, Memory>
        requires a { a < diagram_size self.old }
        requires b { b < diagram_size self.old }
        requires right { AreRight operation self.old memo.old.made }
        ensures runs { Runs operation self.old self.new a b
            memo.old.made memo.new.made steps.old steps.new }
        ensures ticks { steps.new + makes.old.number ≡ steps.old + makes.new.number }
        ensures stands { IfOk result (λ r.
            Stands self.new r (first_option self.old a b) (joint_span self.old a b)
            (both_in operation self.old a b)) }
    {
        if let Some(node) = self.settled(operation, a, b) {
            return Ok(node);
        }
        let pair = Pair { left: a, right: b };
        if let Some(node) = memo.find(pair) {
            return Ok(node);
        }
        let option = self.first_of(a, b);
        let left = self.sides(a, option);
        let right = self.sides(b, option);
        let off = match self.descend(operation, left.off, right.off, memo, makes, steps) {
            Ok(off) => off,
            Err(error) => return Err(error),
        };
        let on = match self.descend(operation, left.on, right.on, memo, makes, steps) {
            Ok(on) => on,
            Err(error) => return Err(error),
        };
        self.join(pair, Triple { option, off, on }, memo, makes, steps)
    }

    // The result where it needs no entry. Else the second node has one.
    fn settled(&self, operation: Operation, a: Node, b: Node) -> Option<Node>
        requires a { a < diagram_size self.now }
        requires b { b < diagram_size self.now }
        ensures some { IfSome result (λ r.
            Stands self.now r (first_option self.now a b) (joint_span self.now a b)
            (both_in operation self.now a b)) }
        ensures none { IfNone result (1 < b) }
    {
        // Reading a field brings the table's invariant into the proof.
        let _ = &self.entries;
        shortcut(operation, a, b)
    }

    // Makes the node of a triple for a pair, or changes nothing.
    pub(super) fn join<L: Ledger>(
        &mut self,
        pair: Pair,
        triple: Triple,
        memo: &mut Memo,
        makes: &mut Tally,
        steps: &mut Steps<L>,
    ) -> Result<Node, Memory>
        requires off { triple.off < diagram_size self.old }
        requires on { triple.on < diagram_size self.old }
        requires off_above { triple.option < top self.old triple.off }
        requires on_above { triple.option < top self.old triple.on }
        requires fresh { IsKey memo.old.made pair → ⊥ }
        ensures ok { IfOk result (Joins self.old self.new pair triple
            memo.old.made memo.new.made steps.old steps.new) }
        ensures err { OnErr result (Rests self.old self.new
            memo.old.made memo.new.made steps.old steps.new) }
        ensures ticks { steps.new + makes.old.number ≡ steps.old + makes.new.number }
    {
        memo.reserve()?;
        let node = self.make_counted(triple, makes)?;
        steps.tick();
        memo.put(pair, node);
        Ok(node)
    }

    // Makes the node of a triple, and counts that.
    fn make_counted(&mut self, triple: Triple, makes: &mut Tally) -> Result<Node, Memory>
        requires off { triple.off < diagram_size self.old }
        requires on { triple.on < diagram_size self.old }
        requires off_above { triple.option < top self.old triple.off }
        requires on_above { triple.option < top self.old triple.on }
        ensures extends { Extends self.old self.new }
        ensures one { diagram_size self.new ≤ diagram_size self.old + 1 }
        ensures stands { IfOk result (IsNodeOf self.old self.new triple) }
        ensures err { OnErr result (self.new ≡ self.old) }
        ensures counted { OnOk result (makes.new.number ≡ makes.old.number + 1) }
        ensures uncounted { OnErr result (makes.new.number ≡ makes.old.number) }
    {
        let node = self.make(triple.option, triple.off, triple.on)?;
        *makes = Tally::after(makes);
        Ok(node)
    }

    // The first option of two nodes, of which the second has one.
    fn first_of(&self, a: Node, b: Node) -> OptionId
        requires within { b < diagram_size self.now }
        requires inner { 1 < b }
        ensures first { result ≡ first_option self.now a b }
        ensures below { result < CHOICE_WIDTH }
    {
        OptionId::new(self.top_of(a).min(self.top_of(b)))
    }

    // The option of a node, `CHOICE_WIDTH` for FALSE and TRUE.
    pub(super) fn top_of(&self, a: Node) -> u8
        ensures top { result ≡ top self.now a }
        ensures inner { 1 < a → a < diagram_size self.now → result < CHOICE_WIDTH }
    {
        match self.entry(a) {
            Some(triple) => triple.option.number(),
            None => CHOICE_WIDTH,
        }
    }

    pub(super) fn sides(&self, a: Node, option: OptionId) -> Sides
        requires within { a < diagram_size self.now }
        requires first { option ≤ top self.now a }
        requires below { option < CHOICE_WIDTH }
        ensures { IsSides self.now a option result.off result.on }
    {
        // Reading a field brings the table's invariant into the proof.
        let _ = &self.entries;
        match self.entry(a) {
            Some(triple) if triple.option == option => Sides {
                off: triple.off,
                on: triple.on,
            },
            _ => Sides { off: a, on: a },
        }
    }
}
