// Nodes that edits touch, and where, as they are walked through.
ghost use Rattle.std.specs.Prelude.{◌≡◌, [], map, drop, slice_get, slice_index_or, IfSome};
ghost use Rattle.cov_overtaking.specs.Touches.{touch_node, touches_within, touches_from};

use cov_base::NodeNo;
use cov_dd::Node;
use std::marker::Model;

/// A node, and the node of the table that is true where it is touched.
#[derive(Clone, Copy)]
pub(crate) struct Touch {
    pub(crate) node: NodeNo,
    pub(crate) within: Node,
}

/// Nodes that are touched, each where a node of the table is true: that at its place, or else one for all.
#[derive(Drop)]
pub(crate) struct Touches<'a> {
    nodes: &'a [NodeNo],
    within: Node,
    each: &'a [Node],
}

impl<'a> Model for Touches<'a> {
    ghost use Rattle.std.specs.Prelude.{List};
    ghost use Rattle.cov_overtaking.specs.declared.touches.Touch.{Touch};
    ghost use Rattle.cov_overtaking.specs.Touches.{touches_within};

    ghost Value = { List Touch };

    ghost view = { λ t. touches_within t.nodes.now t.within t.each.now };
}

impl<'a> Touches<'a> {
    pub(crate) fn new(nodes: &'a [NodeNo], within: Node, each: &'a [Node]) -> Touches<'a>
        ensures { result ≡ touches_within nodes.now within each.now }
    {
        Touches {
            nodes,
            within,
            each,
        }
    }

    /// The same, to be walked through.
    pub(crate) fn copy(&self) -> Touches<'a>
        ensures { result ≡ self.now }
    {
        Touches {
            nodes: self.nodes,
            within: self.within,
            each: self.each,
        }
    }

    pub(crate) fn nodes(&self) -> &'a [NodeNo]
        ensures { result.now ≡ map touch_node self.now }
    {
        self.nodes
    }

    /// Where all nodes are touched, None where each has its own.
    pub(crate) fn everywhere(&self) -> Option<Node>
        ensures { IfSome result (λ n. self.now ≡ touches_within (map touch_node self.now) n []) }
    {
        match self.each {
            [] => Some(self.within),
            _ => None,
        }
    }

    /// The first node, None exactly where there is none.
    pub(crate) fn first(&self) -> Option<Touch>
        ensures { result ≡ slice_get self.now 0 }
    {
        let within = first_or(self.each, self.within);
        match self.nodes {
            [node, ..] => Some(Touch {
                node: *node,
                within,
            }),
            [] => None,
        }
    }

    /// Goes on behind the first node.
    pub(crate) fn advance(&mut self)
        ensures { self.new ≡ drop 1 self.old }
    {
        self.nodes = behind_first(self.nodes);
        self.each = behind_first(self.each);
    }

    /// Goes on to the first node that isn't below one.
    pub(crate) fn skip_below(&mut self, node: NodeNo)
        ensures { self.new ≡ touches_from node self.old }
    {
        while let Some(touch) = self.first() {
            if touch.node >= node {
                return;
            }
            self.advance();
        }
    }
}

// The items behind the first, none where there is none.
fn behind_first<T>(items: &[T]) -> &[T]
    ensures { result.now ≡ drop 1 items.now }
{
    match items {
        [_, rest @ ..] => rest,
        [] => items,
    }
}

/// The first node of the table in a list, or another where there is none.
pub(crate) fn first_or(nodes: &[Node], other: Node) -> Node
    ensures { result ≡ slice_index_or nodes.now 0 other }
{
    match nodes {
        [first, ..] => *first,
        [] => other,
    }
}
