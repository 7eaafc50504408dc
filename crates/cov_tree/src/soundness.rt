// Where the rows of nodes are unsound.
ghost use Rattle.std.specs.Prelude.{◌≡◌, ◌<◌, ◌≤◌, ◌&&◌, ◌||◌, ◌==◌, ℕ, List, Bool, false, [], ◌∷◌, not, length, nat_eq, unwrap_or, slice_get, IfOk, if◌then◌else◌};
ghost use Rattle.std.specs.List.{AllByRecursion, list_any};
ghost use Rattle.std.specs.Option.{is_some};
ghost use Rattle.cov_base.specs.Faults.{fault_of};
ghost use Rattle.cov_base.specs.Rows.{AreDistinct, AreOnce};
ghost use Rattle.cov_base.specs.Reaching.{has_lost};
ghost use Rattle.cov_dd.specs.Diagrams.{diagram_size, span, value_in, Extends, IsNode};
ghost use Rattle.cov_tree.specs.Carried.{AreUnread};
ghost use Rattle.cov_tree.specs.Entries.{rows_of, rows_in, nodes_of, AreWithin, AllAreWithin};
ghost use Rattle.cov_tree.specs.Spreading.{reach_node, reached_in, Relaxes, Spreads, IsReach};

use crate::grouping::clashes;
use crate::standing::Standing;
use cov_base::{Memory, NodeNo, Steps, Uncounted};
use cov_dd::{FALSE, Node, TRUE, Table};
use std::alloc::Global;

/// The choices of `within` on which the rows of nodes have a fault.
pub(crate) fn unsound(
    table: &mut Table,
    alloc: Global,
    entries: &[Standing<'_>],
    within: Node,
) -> Result<Node, Memory>
    requires within { within < diagram_size table.old }
    requires visible { AllAreWithin table.old entries.now }
    requires once { (c : List Bool) → AreOnce (rows_in table.old c entries.now) }
    requires distinct { AreDistinct (0 ∷ nodes_of entries.now) }
    ensures extends { Extends table.old table.new }
    ensures ok { IfOk result (λ r. IsNode table.new
        r
        (λ c. value_in table.old within c && is_some
        (fault_of (rows_in table.old c entries.now)))) }
    ensures options { (count : ℕ) → span table.old within ≤ count →
        AreUnread (λ c. rows_in table.old c entries.now) count →
        IfOk result (λ r. span table.new r ≤ count) }
{
    let clash = clashes(table, alloc, entries)?;
    let lost = lost(table, alloc, entries)?;
    let fault = table.or(clash, lost)?;
    let node = table.and(within, fault, &mut Steps::<Uncounted>::new())?;
    table.options_are_needed(node);
    Ok(node)
}

// The choices on which the root isn't reached from some row.
fn lost(table: &mut Table, alloc: Global, entries: &[Standing<'_>]) -> Result<Node, Memory>
    requires within { AllAreWithin table.old entries.now }
    requires once { (c : List Bool) → AreOnce (rows_in table.old c entries.now) }
    requires distinct { AreDistinct (0 ∷ nodes_of entries.now) }
    ensures extends { Extends table.old table.new }
    ensures ok { IfOk result (λ r. IsNode table.new
        r (λ c. has_lost (rows_in table.old c entries.now))) }
{
    let reach = reached(table, alloc, entries)?;
    outside(table, entries, reach.as_slice())
}

// The choices on which some row is that of a node that isn't reached there.
fn outside(table: &mut Table, entries: &[Standing<'_>], reach: &[Node]) -> Result<Node, Memory>
    requires within { AllAreWithin table.old entries.now }
    requires reach { AllByRecursion (λ n. n < diagram_size table.old) reach.now }
    ensures extends { Extends table.old table.new }
    ensures ok { IfOk result (λ r. IsNode table.new
        r
        (λ c. list_any (λ row. not (reached_in table.old reach.now c row.node))
        (rows_in table.old c entries.now))) }
{
    let mut lost = FALSE;
    'entries: for entry in entries {
        lost = or_outside(table, lost, entry, reach_of(reach, entry.node()))?;
    }
    Ok(lost)
}

// The choices of one node, and those on which an entry has a row and which aren't those of the other.
fn or_outside(
    table: &mut Table,
    lost: Node,
    entry: &Standing<'_>,
    reach: Node,
) -> Result<Node, Memory>
    requires within { AreWithin table.old entry.now.places }
    requires lost { lost < diagram_size table.old }
    requires reach { reach < diagram_size table.old }
    ensures extends { Extends table.old table.new }
    ensures ok { IfOk result (λ r. IsNode table.new
        r
        (λ c. value_in table.old lost c || list_any (λ row. not (value_in table.old reach c))
        (rows_of table.old c entry.now.node entry.now.kind entry.now.places))) }
{
    let mut found = lost;
    'places: for place in entry.places() {
        found = or_without(table, found, place.vis, reach)?;
    }
    Ok(found)
}

// The choices of one node, and those of another without those of a third.
fn or_without(table: &mut Table, found: Node, a: Node, b: Node) -> Result<Node, Memory>
    requires found { found < diagram_size table.old }
    requires a { a < diagram_size table.old }
    requires b { b < diagram_size table.old }
    ensures extends { Extends table.old table.new }
    ensures ok { IfOk result (λ r. IsNode table.new
        r
        (λ c. value_in table.old found
        c || (value_in table.old a c && not (value_in table.old b c)))) }
{
    let rest = table.without(a, b)?;
    table.or(found, rest)
}

// For each node the choices on which the root is reached from it. A round takes each node's parents anew.
fn reached(table: &mut Table, alloc: Global, entries: &[Standing<'_>]) -> Result<Vec<Node>, Memory>
    requires within { AllAreWithin table.old entries.now }
    requires once { (c : List Bool) → AreOnce (rows_in table.old c entries.now) }
    requires distinct { AreDistinct (0 ∷ nodes_of entries.now) }
    ensures extends { Extends table.old table.new }
    ensures ok { IfOk result (λ reach. IsReach table.old table.new entries.now reach.items) }
{
    let mut reach = root_alone(alloc, entries)?;
    'rounds: for round in 0..entries.len() {
        let changed = spread(table, entries, &mut reach)?;
        if !changed {
            return Ok(reach);
        }
    }
    Ok(reach)
}

// The root, reached on each choice, and the other nodes, on none.
fn root_alone(alloc: Global, entries: &[Standing<'_>]) -> Result<Vec<Node>, Memory>
    ensures root { IfOk result (λ reach. reach_node reach.items 0 ≡ 1) }
    ensures others { IfOk result (λ reach. (x : ℕ) → nat_eq x 0 ≡ false →
        reach_node reach.items x ≡ 0) }
    ensures within { IfOk result (λ reach. AllByRecursion (λ n. n < 2) reach.items) }
    ensures room { IfOk result (λ reach.
        AllByRecursion (λ e. e.node < length reach.items) entries.now) }
{
    let mut reach = vec![in alloc; FALSE; room_for(entries)]?;
    reach[0] = TRUE;
    Ok(reach)
}

// A count of numbers that has the root's and all nodes'.
fn room_for(entries: &[Standing<'_>]) -> usize
    ensures root { 0 < result }
    ensures others { AllByRecursion (λ e. e.node < result) entries.now }
{
    let mut room = 1;
    'entries: for entry in entries {
        room = greater(room, entry.node().number() as usize + 1);
    }
    room
}

fn greater(a: usize, b: usize) -> usize
    ensures first { a ≤ result }
    ensures second { b ≤ result }
{
    if a < b { b } else { a }
}

// One round. It tells whether a node has changed.
fn spread(
    table: &mut Table,
    entries: &[Standing<'_>],
    reach: &mut Vec<Node>,
) -> Result<bool, Memory>
    requires within { AllAreWithin table.old entries.now }
    requires reach { AllByRecursion (λ n. n < diagram_size table.old) reach.old.items }
    requires room { AllByRecursion (λ e. e.node < length reach.old.items) entries.now }
    requires once { (c : List Bool) → AreOnce (rows_in table.old c entries.now) }
    requires distinct { AreDistinct (0 ∷ nodes_of entries.now) }
    ensures extends { Extends table.old table.new }
    ensures ok { IfOk result (λ changed.
        Spreads table.old table.new entries.now reach.old.items reach.new.items changed) }
{
    let mut changed = false;
    'entries: for entry in entries {
        changed = either(relax(table, entry, reach)?, changed);
    }
    Ok(changed)
}

fn either(a: bool, b: bool) -> bool
    ensures { result ≡ (a || b) }
{
    if a {
        return true;
    }
    b
}

// Takes the choices anew on which a node has a parent that is reached. It tells whether they have changed.
fn relax(table: &mut Table, entry: &Standing<'_>, reach: &mut Vec<Node>) -> Result<bool, Memory>
    requires within { AreWithin table.old entry.now.places }
    requires reach { AllByRecursion (λ n. n < diagram_size table.old) reach.old.items }
    requires room { entry.now.node < length reach.old.items }
    ensures extends { Extends table.old table.new }
    ensures ok { IfOk result (λ changed.
        Relaxes table.old table.new entry.now reach.old.items reach.new.items changed) }
{
    let node = arrival(table, entry, reach)?;
    let at = entry.node().number() as usize;
    let old = reach[at];
    reach[at] = node;
    Ok(old != node)
}

// The choices on which a node has a parent that is reached.
fn arrival(table: &mut Table, entry: &Standing<'_>, reach: &[Node]) -> Result<Node, Memory>
    requires within { AreWithin table.old entry.now.places }
    requires reach { AllByRecursion (λ n. n < diagram_size table.old) reach.now }
    ensures extends { Extends table.old table.new }
    ensures ok { IfOk result (λ r. IsNode table.new
        r
        (λ c. list_any (λ row. reached_in table.old reach.now c row.parent)
        (rows_of table.old c entry.now.node entry.now.kind entry.now.places))) }
{
    let mut found = FALSE;
    'places: for place in entry.places() {
        found = or_both(table, found, place.vis, reach_of(reach, place.parent))?;
    }
    Ok(found)
}

// The choices on which a node is reached; a node without a number there isn't on any.
fn reach_of(reach: &[Node], node: NodeNo) -> Node
    ensures { result ≡ reach_node reach.now node }
{
    reach.get(node.number() as usize).copied().unwrap_or(FALSE)
}

/// The choices of one node, and those of two others together.
pub(crate) fn or_both(table: &mut Table, found: Node, a: Node, b: Node) -> Result<Node, Memory>
    requires found { found < diagram_size table.old }
    requires a { a < diagram_size table.old }
    requires b { b < diagram_size table.old }
    ensures extends { Extends table.old table.new }
    ensures ok { IfOk result (λ r. IsNode table.new
        r (λ c. value_in table.old found c || (value_in table.old a c && value_in table.old b c))) }
{
    let both = table.and(a, b, &mut Steps::<Uncounted>::new())?;
    table.or(found, both)
}
