// What is kept of a commit.
ghost use Rattle.std.specs.Prelude.{◌≡◌, ◌<◌, ◌≤◌, ◌++◌, ℕ, List, Bool, length, take, drop, IfOk, OnOk};
ghost use Rattle.std.specs.List.{AllByRecursion};
ghost use Rattle.cov_dd.specs.Diagrams.{diagram_size, Extends};
ghost use Rattle.cov_edit.specs.Sides.{unsided};
ghost use Rattle.cov_edit.specs.Touched.{touched};
ghost use Rattle.cov_overtaking.specs.Marks.{within_of, mark_nodes, mark_having};
ghost use Rattle.cov_overtaking.specs.Overtakers.{touches_of};
ghost use Rattle.cov_overtaking.specs.Touches.{have_node_on, touched_in};

use crate::few_nodes::FewNodes;
use crate::places::places_of;
use crate::touches::Touches;
use cov_base::{Memory, NodeNos, Position};
use cov_dd::{Node, Nodes, Table};
use cov_edit::Edits;
use std::alloc::Global;

/// What is kept of a commit: the position after it, and the old nodes that its edits touch, rising. If `each` is empty, they are
/// all touched exactly where `node` is true. Else `each` has a node of the table for each of them, true where one of the edits
/// that touch it applies, and `node` is that of the ambition.
#[derive(Drop)]
pub struct CommitMark {
    pub position: Position,
    pub node: Node,
    pub touched: NodeNos,
    pub each: FewNodes,
}

/// The mark of a commit whose ambition has a node, given a node for each of its edits, true where it applies, and the old nodes
/// that they touch. Where all edits have the same node it takes no memory.
pub fn mark_of(
    alloc: Global,
    table: &mut Table,
    position: Position,
    node: Node,
    conditions: &[Node],
    edits: &Edits,
    nodes: NodeNos,
) -> Result<CommitMark, Memory>
    requires node { node < diagram_size table.old }
    requires count { length conditions.now ≡ length edits.now }
    requires conditions { AllByRecursion (λ n. n < diagram_size table.old) conditions.now }
    requires touched { nodes ≡ touched (unsided edits.now) }
    ensures extends { Extends table.old table.new }
    ensures position { IfOk result (λ mark. mark.position ≡ position) }
    ensures touched { IfOk result (λ mark. mark.touched ≡ nodes) }
    ensures of_table { IfOk result (λ mark.
        AllByRecursion (λ n. n < diagram_size table.new) (mark_nodes mark)) }
    ensures long { IfOk result (λ mark. length (within_of mark) ≡ length mark.touched) }
    ensures are { IfOk result (λ mark. (x : ℕ) (c : List Bool) →
        have_node_on table.new mark.touched (within_of mark) x c
        ≡ touched_in table.old conditions.now (unsided edits.now) x c) }
{
    let places = places_of(
        alloc,
        table,
        node,
        conditions,
        edits.as_slice(),
        nodes.as_slice(),
    )?;
    let each = FewNodes::of(places.each)?;
    Ok(CommitMark {
        position,
        node: places.within,
        touched: nodes,
        each,
    })
}

impl CommitMark {
    /// The nodes that the commit touches, and where.
    pub(crate) fn touches(&self) -> Touches<'_>
        ensures { result ≡ touches_of self.now }
    {
        Touches::new(self.touched.as_slice(), self.node, self.each.as_slice())
    }

    /// Appends its nodes of the table. At an `Err` those in front are still there, and behind them may be some of these.
    pub(crate) fn append_nodes(&self, into: &mut Nodes) -> Result<(), Memory>
        ensures ok { OnOk result (into.new ≡ into.old ++ mark_nodes self.now) }
        ensures front { take (length into.old) into.new ≡ into.old }
    {
        into.push(self.node)?;
        append_all(self.each.as_slice(), into)
    }

    /// Puts the first nodes of a list in the places of its own, without memory, and answers those behind them.
    pub(crate) fn renumber<'a>(&mut self, from: &'a [Node]) -> &'a [Node]
        requires { length (mark_nodes self.old) ≤ length from.now }
        ensures mark { self.new ≡ mark_having self.old from.now }
        ensures rest { result.now ≡ drop (length (mark_nodes self.old)) from.now }
    {
        let [node, rest @ ..] = from else {
            unreachable!()
        };
        self.node = *node;
        self.each.replace_all(rest);
        &rest[self.each.as_slice().len()..]
    }
}

// Appends nodes. At an `Err` those in front are still there, and behind them may be some of these.
fn append_all(nodes: &[Node], into: &mut Nodes) -> Result<(), Memory>
    ensures ok { OnOk result (into.new ≡ into.old ++ nodes.now) }
    ensures front { take (length into.old) into.new ≡ into.old }
{
    let mut ahead = nodes;
    while let [node, rest @ ..] = ahead {
        into.push(*node)?;
        ahead = rest;
    }
    Ok(())
}
