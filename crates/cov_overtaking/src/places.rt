// Where nodes are touched by edits, each of which applies where a node of the table is true.
ghost use Rattle.std.specs.Prelude.{◌≡◌, ◌<◌, ◌&&◌, ◌||◌, ℕ, List, Bool, length, replicate, nat_eq, IfOk, OnOk};
ghost use Rattle.std.specs.List.{list_all, AllByRecursion};
ghost use Rattle.cov_dd.specs.Diagrams.{diagram_size, value_in, Extends};
ghost use Rattle.cov_edit.specs.Touched.{has_number, touched, touches, AreRising};
ghost use Rattle.cov_overtaking.specs.Marks.{nodes_within};
ghost use Rattle.cov_overtaking.specs.Touches.{have_node_on, touched_in, IsPlaceIn, IsJoinedAt};

use crate::touches::first_or;
use cov_base::{Memory, NodeNo};
use cov_dd::{FALSE, Node, Nodes, Table};
use cov_edit::{Edit, touched_by};
use std::alloc::Global;

/// Where nodes are touched: all where `within` is true if `each` is empty, else each where the node at its place is.
#[derive(Drop)]
pub(crate) struct Places {
    pub(crate) within: Node,
    pub(crate) each: Nodes,
}

/// Where rising nodes are touched by edits. There is a node of the table for each edit, true where it applies, and one that
/// stands where there is none for all. Where all edits have the same it takes no memory. Else each edit is found by halving.
pub(crate) fn places_of(
    alloc: Global,
    table: &mut Table,
    within: Node,
    conditions: &[Node],
    edits: &[Edit],
    nodes: &[NodeNo],
) -> Result<Places, Memory>
    requires within { within < diagram_size table.old }
    requires count { length conditions.now ≡ length edits.now }
    requires conditions { AllByRecursion (λ n. n < diagram_size table.old) conditions.now }
    requires rising { AreRising nodes.now }
    ensures extends { Extends table.old table.new }
    ensures within { IfOk result (λ places. places.within < diagram_size table.new) }
    ensures each { IfOk result (λ places.
        AllByRecursion (λ n. n < diagram_size table.new) places.each) }
    ensures long { IfOk result (λ places.
        length (nodes_within (length nodes.now) places.within places.each) ≡ length nodes.now) }
    ensures are { IfOk result (λ places. nodes.now ≡ touched edits.now →
        (x : ℕ) (c : List Bool) →
        have_node_on table.new nodes.now
        (nodes_within (length nodes.now) places.within places.each) x c
        ≡ touched_in table.old conditions.now edits.now x c) }
{
    let first = first_or(conditions, within);
    if all_are(conditions, first) {
        return Ok(Places {
            within: first,
            each: Nodes::new(alloc),
        });
    }
    let each = joined(alloc, table, conditions, edits, nodes)?;
    Ok(Places { within, each })
}

// Whether all nodes are one.
fn all_are(nodes: &[Node], node: Node) -> bool
    ensures { result ≡ list_all (λ n. nat_eq n node) nodes.now }
{
    let mut ahead = nodes;
    while let [first, rest @ ..] = ahead {
        if *first != node {
            return false;
        }
        ahead = rest;
    }
    true
}

// A node of the table for each of rising nodes, true where one of the edits that touch it applies.
fn joined(
    alloc: Global,
    table: &mut Table,
    conditions: &[Node],
    edits: &[Edit],
    nodes: &[NodeNo],
) -> Result<Nodes, Memory>
    requires count { length conditions.now ≡ length edits.now }
    requires conditions { AllByRecursion (λ n. n < diagram_size table.old) conditions.now }
    requires rising { AreRising nodes.now }
    ensures extends { Extends table.old table.new }
    ensures each { IfOk result (λ each. AllByRecursion (λ n. n < diagram_size table.new) each) }
    ensures long { IfOk result (λ each. length each ≡ length nodes.now) }
    ensures are { IfOk result (λ each. (x : ℕ) (c : List Bool) →
        have_node_on table.new nodes.now each x c
        ≡ (has_number x nodes.now && touched_in table.old conditions.now edits.now x c)) }
{
    let mut each = none_for(alloc, nodes.len())?;
    let mut within = conditions;
    let mut ahead = edits;
    while let [edit, rest @ ..] = ahead {
        let [condition, others @ ..] = within else {
            unreachable!()
        };
        join_edit(table, &mut each, nodes, edit, *condition)?;
        within = others;
        ahead = rest;
    }
    Ok(each)
}

// So many nodes that are nowhere true.
fn none_for(alloc: Global, count: usize) -> Result<Nodes, Memory>
    ensures { IfOk result (λ nodes. nodes ≡ replicate count FALSE) }
{
    let mut nodes = Nodes::new(alloc);
    while nodes.len() < count {
        nodes.push(FALSE)?;
    }
    Ok(nodes)
}

// Adds to where the node that an edit touches is touched where this edit applies.
fn join_edit(
    table: &mut Table,
    each: &mut Nodes,
    nodes: &[NodeNo],
    edit: &Edit,
    condition: Node,
) -> Result<(), Memory>
    requires condition { condition < diagram_size table.old }
    requires each { AllByRecursion (λ n. n < diagram_size table.old) each.old }
    requires long { length each.old ≡ length nodes.now }
    requires rising { AreRising nodes.now }
    ensures extends { Extends table.old table.new }
    ensures each { OnOk result (AllByRecursion (λ n. n < diagram_size table.new) each.new) }
    ensures long { OnOk result (length each.new ≡ length nodes.now) }
    ensures are { OnOk result ((x : ℕ) (c : List Bool) →
        have_node_on table.new nodes.now each.new x c
        ≡ (have_node_on table.old nodes.now each.old x c
        || (has_number x nodes.now && (touches x edit.now && value_in table.old condition c)))) }
{
    match touched_by(edit) {
        Some(node) => match place_of(nodes, node) {
            Some(at) => join_at(table, each, at, condition),
            None => Ok(()),
        },
        None => Ok(()),
    }
}

// Joins the node at a place with another.
fn join_at(table: &mut Table, each: &mut Nodes, at: usize, condition: Node) -> Result<(), Memory>
    requires condition { condition < diagram_size table.old }
    requires each { AllByRecursion (λ n. n < diagram_size table.old) each.old }
    requires at { at < length each.old }
    ensures extends { Extends table.old table.new }
    ensures joined { OnOk result (IsJoinedAt table.old table.new condition at each.old each.new) }
{
    let joined = table.or(each.as_slice()[at], condition)?;
    each.set(at, joined);
    Ok(())
}

// The place of a node among rising ones, None exactly where it isn't there.
fn place_of(nodes: &[NodeNo], node: NodeNo) -> Option<usize>
    requires rising { AreRising nodes.now }
    ensures { IsPlaceIn nodes.now node result }
{
    nodes.binary_search(&node).ok()
}
