// Whether two commits touch a common node on a common choice.
ghost use Rattle.std.specs.Prelude.{◌≡◌, ◌<◌, [], IfOk};
ghost use Rattle.cov_dd.specs.Diagrams.{diagram_size, Extends};
ghost use Rattle.cov_edit.specs.Touched.{AreRising};
ghost use Rattle.cov_overtaking.specs.Touches.{touches_within, first_within_of, RiseByNode, AreOfTable, DoNotMeet, FirstMeetsNone, HaveNoCommonChoice, Denies};

use crate::touches::{Touch, Touches};
use cov_base::{Memory, NodeNo, Steps, Uncounted};
use cov_dd::{Node, Table};
use cov_edit::have_common;

/// Whether rising nodes have one in common that is touched in both on a common choice. It takes time in both, and a conjunction
/// for each common node until one is found. Where each of both has one node of the table for all it takes one conjunction.
pub(crate) fn meet(
    table: &mut Table,
    left: &Touches<'_>,
    right: &Touches<'_>,
) -> Result<bool, Memory>
    requires left_rises { RiseByNode left.now }
    requires right_rises { RiseByNode right.now }
    requires left_in { AreOfTable table.old left.now }
    requires right_in { AreOfTable table.old right.now }
    ensures extends { Extends table.old table.new }
    ensures decides { IfOk result (λ met. Denies met (DoNotMeet table.old left.now right.now)) }
{
    match left.everywhere() {
        Some(a) => match right.everywhere() {
            Some(b) => meet_everywhere(table, left.nodes(), a, right.nodes(), b),
            None => meet_in_turn(table, left, right),
        },
        None => meet_in_turn(table, left, right),
    }
}

// Whether rising nodes have a common one, and the nodes where all of each are touched a common choice.
fn meet_everywhere(
    table: &mut Table,
    left: &[NodeNo],
    a: Node,
    right: &[NodeNo],
    b: Node,
) -> Result<bool, Memory>
    requires left_rises { AreRising left.now }
    requires right_rises { AreRising right.now }
    requires left_in { AreOfTable table.old (touches_within left.now a []) }
    requires right_in { AreOfTable table.old (touches_within right.now b []) }
    ensures extends { Extends table.old table.new }
    ensures decides { IfOk result (λ met. Denies met (DoNotMeet table.old
        (touches_within left.now a []) (touches_within right.now b []))) }
{
    if !have_common(left, right) {
        return Ok(false);
    }
    share_choice(table, a, b)
}

// Whether rising nodes have one in common that is touched in both on a common choice, by walking through both.
fn meet_in_turn(table: &mut Table, left: &Touches<'_>, right: &Touches<'_>) -> Result<bool, Memory>
    requires left_rises { RiseByNode left.now }
    requires right_rises { RiseByNode right.now }
    requires left_in { AreOfTable table.old left.now }
    requires right_in { AreOfTable table.old right.now }
    ensures extends { Extends table.old table.new }
    ensures decides { IfOk result (λ met. Denies met (DoNotMeet table.old left.now right.now)) }
{
    let mut ahead = left.copy();
    let mut others = right.copy();
    while let Some(touch) = ahead.first() {
        others.skip_below(touch.node);
        if meets_first(table, touch, &others)? {
            return Ok(true);
        }
        ahead.advance();
    }
    Ok(false)
}

// Whether a touch and the first of others have a node and a choice in common.
fn meets_first(table: &mut Table, touch: Touch, others: &Touches<'_>) -> Result<bool, Memory>
    requires touch { touch.within < diagram_size table.old }
    requires others { AreOfTable table.old others.now }
    ensures extends { Extends table.old table.new }
    ensures decides { IfOk result (λ met.
        Denies met (FirstMeetsNone table.old touch others.now)) }
{
    match within_first(others, touch.node) {
        Some(within) => share_choice(table, touch.within, within),
        None => Ok(false),
    }
}

// Where the first of nodes is touched, if it is this one.
fn within_first(touches: &Touches<'_>, node: NodeNo) -> Option<Node>
    ensures { result ≡ first_within_of node touches.now }
{
    match touches.first() {
        Some(touch) if touch.node == node => Some(touch.within),
        _ => None,
    }
}

// Whether two nodes of the table are true on a common choice.
fn share_choice(table: &mut Table, a: Node, b: Node) -> Result<bool, Memory>
    requires a { a < diagram_size table.old }
    requires b { b < diagram_size table.old }
    ensures extends { Extends table.old table.new }
    ensures decides { IfOk result (λ shared. Denies shared (HaveNoCommonChoice table.old a b)) }
{
    let both = table.and(a, b, &mut Steps::<Uncounted>::new())?;
    Ok(!table.is_false(both))
}
