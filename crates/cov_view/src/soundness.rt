// The first fault of rows of nodes that a history has.
ghost use Rattle.std.specs.Prelude.{◌≡◌, ◌∷◌, List, ℕ, true, map, IfOk};
ghost use Rattle.std.specs.List.{find};
ghost use Rattle.std.specs.Option.{option_map, option_or};
ghost use Rattle.cov_edit.specs.Numbering.{node_number};
ghost use Rattle.cov_view.specs.Ordering.{nodes_of, share_place, clash_among, is_orphan, orphan_among, is_lost, loop_among, fault_among, ArePlaces};
ghost use Rattle.cov_view.specs.Soundness.{is_old, AreOld, old_row, fault_in};

use crate::Fault;
use crate::children::ChildKey;
use crate::row::ViewRow;
use crate::rows::Rows;
use cov_base::{Memory, NodeNo, NodeRef};
use indexmap::IndexMap;
use std::alloc::Global;

/// The first fault of rows.
pub(crate) fn first_fault(alloc: Global, rows: &Rows) -> Result<Option<Fault>, Memory>
    requires { AreOld rows.now }
    ensures { IfOk result (λ fault. fault ≡ fault_in (map old_row rows.now)) }
{
    let order = in_order(alloc, rows.as_slice())?;
    first_among(alloc, rows, order.as_slice())
}

// The numbers of the nodes in rising order.
fn in_order(alloc: Global, rows: &[ViewRow]) -> Result<Vec<u32>, Memory>
    requires { AreOld rows.now }
    ensures { IfOk result (λ order. order.items ≡ nodes_of rows.now) }
{
    let mut order = numbers(alloc, rows)?;
    order.sort_unstable();
    Ok(order)
}

fn numbers(alloc: Global, rows: &[ViewRow]) -> Result<Vec<u32>, Memory>
    requires { AreOld rows.now }
    ensures { IfOk result (λ numbers. numbers.items ≡ map (λ r. node_number 0 r.node) rows.now) }
{
    let mut numbers = Vec::new(alloc);
    'rows: for row in rows {
        numbers.push(number(&row.node))?;
    }
    Ok(numbers)
}

// The number of a node that a history has; of another node it is some number.
fn number(node: &NodeRef) -> u32
    ensures { is_old node.now ≡ true → result ≡ node_number 0 node.now }
{
    match node {
        NodeRef::Old(number) => number.number(),
        NodeRef::New(index) => *index,
    }
}

// The first fault of rows, whose nodes are given in rising order.
fn first_among(alloc: Global, rows: &Rows, order: &[u32]) -> Result<Option<Fault>, Memory>
    ensures { IfOk result (λ fault. fault ≡ fault_among rows.now order.now) }
{
    match least_clash(alloc, rows, order) {
        Ok(Some(clash)) => Ok(Some(clash)),
        Ok(None) => Ok(least_lost(rows, order)),
        Err(Memory) => Err(Memory),
    }
}

fn least_lost(rows: &Rows, order: &[u32]) -> Option<Fault>
    ensures { result ≡ option_or (orphan_among rows.now order.now) (loop_among rows.now order.now) }
{
    match least_orphan(rows, order) {
        Some(orphan) => Some(orphan),
        None => least_loop(rows, order),
    }
}

// The least two nodes of one directory with one name. It goes over the nodes from the last to the first.
fn least_clash(alloc: Global, rows: &Rows, order: &[u32]) -> Result<Option<Fault>, Memory>
    ensures { IfOk result (λ fault. fault ≡ clash_among rows.now order.now) }
{
    let mut places = IndexMap::new(alloc);
    let mut found = None;
    let mut at = order.len();
    'nodes: while at > 0 {
        at -= 1;
        let low = order[at];
        found = clash_with(low, put(&mut places, rows, low)?, found);
    }
    Ok(found)
}

// The clash of a node with the next of its place, or else the one that was found before.
fn clash_with(low: u32, high: Option<u32>, found: Option<Fault>) -> Option<Fault>
    ensures { result ≡ option_or (option_map (λ y. Fault.Clash low y) high) found }
{
    match high {
        Some(high) => Some(Fault::Clash {
            low: NodeNo::new(low),
            high: NodeNo::new(high),
        }),
        None => found,
    }
}

// Puts a node at its place, and gives the one that stood there.
fn put(
    places: &mut IndexMap<ChildKey<NodeRef, Vec<u8>>, u32>,
    rows: &Rows,
    node: u32,
) -> Result<Option<u32>, Memory>
    ensures { IfOk result (λ found. (done : List ℕ) → ArePlaces rows.now done places.old.entries →
        (found ≡ find (share_place rows.now node) done) ×
        ArePlaces rows.now (node ∷ done) places.new.entries) }
{
    let Some(row) = rows.get(&NodeRef::Old(NodeNo::new(node))) else {
        return Ok(None);
    };
    let key = ChildKey {
        dir: row.parent,
        name: Vec::from_slice(*places.allocator(), row.name.as_slice())?,
    };
    Ok(places.insert(key, node)?)
}

// The least node whose directory isn't there.
fn least_orphan(rows: &Rows, order: &[u32]) -> Option<Fault>
    ensures { result ≡ orphan_among rows.now order.now }
{
    match order.iter().find(|node| is_orphan(rows, **node)) {
        Some(node) => Some(Fault::Orphan {
            node: NodeNo::new(*node),
        }),
        None => None,
    }
}

fn is_orphan(rows: &Rows, node: u32) -> bool
    ensures { result ≡ is_orphan rows.now node }
{
    match rows.get(&NodeRef::Old(NodeNo::new(node))) {
        Some(row) => !rows.is_there(&row.parent),
        None => false,
    }
}

// The least node from which the root isn't reached.
fn least_loop(rows: &Rows, order: &[u32]) -> Option<Fault>
    ensures { result ≡ loop_among rows.now order.now }
{
    match order.iter().find(|node| is_lost(rows, **node)) {
        Some(node) => Some(Fault::Loop {
            node: NodeNo::new(*node),
        }),
        None => None,
    }
}

fn is_lost(rows: &Rows, node: u32) -> bool
    ensures { result ≡ is_lost rows.now node }
{
    let root = NodeRef::Old(NodeNo::new(0));
    !rows.lies_within(&root, &NodeRef::Old(NodeNo::new(node)))
}
