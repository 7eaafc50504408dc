// The first commit that overtakes another.
ghost use Rattle.std.specs.Prelude.{◌≡◌, ◌<◌, true, length, IfOk};
ghost use Rattle.cov_dd.specs.Diagrams.{diagram_size, Extends};
ghost use Rattle.cov_edit.specs.Sides.{unsided};
ghost use Rattle.cov_edit.specs.Touched.{touched, AreRising};
ghost use Rattle.cov_overtaking.specs.Marks.{AreKept, IsKeptMark};
ghost use Rattle.cov_overtaking.specs.Overtakers.{Overtakes, Decides, IsFirstOf, IsOvertaker, ends_beyond, IsAfter};
ghost use Rattle.cov_overtaking.specs.Touches.{RiseByNode, AreOfTable};

use crate::commits::Commits;
use crate::conditions::conditions_of;
use crate::mark::CommitMark;
use crate::meeting::meet;
use crate::places::places_of;
use crate::touches::Touches;
use cov_base::{Memory, NodeNo, Position, Steps, Uncounted};
use cov_dd::{Node, Table};
use cov_edit::Edits;
use cov_expr::Expr;
use cov_vis::compile;
use std::alloc::Global;

/// The position of the first commit after a base that overtakes edits within an ambition, which touch these nodes; a node is true
/// on exactly the valid choices. It takes time in the nodes alone where nothing after the base is noted at them, and otherwise in
/// the edits and the commits after the base as well. Where there is no commit after the base it takes neither time nor memory.
pub fn overtaken(
    alloc: Global,
    table: &mut Table,
    valid: Node,
    commits: &Commits,
    base: Position,
    ambition: &Expr,
    edits: &Edits,
    nodes: &[NodeNo],
) -> Result<Option<Position>, Memory>
    requires valid { valid < diagram_size table.old }
    requires kept { AreKept table.old commits.now.items }
    requires own { AreRising nodes.now }
    ensures extends { Extends table.old table.new }
    ensures first { IfOk result (λ found. nodes.now ≡ touched (unsided edits.now) →
        IsOvertaker table.old valid commits.now.items base ambition.now edits.now found) }
{
    let marks = commits.as_slice();
    if !ends_after(marks, base) {
        return Ok(None);
    }
    if commits.none_touches(base, nodes) {
        return Ok(None);
    }
    let node = compile(table, ambition)?;
    let within = table.and(valid, node, &mut Steps::<Uncounted>::new())?;
    let conditions = conditions_of(alloc, table, within, edits)?;
    let places = places_of(
        alloc,
        table,
        within,
        conditions.as_slice(),
        edits.as_slice(),
        nodes,
    )?;
    let own = Touches::new(nodes, places.within, places.each.as_slice());
    first_overtaking(table, after(marks, base), base, &own)
}

// The commits after a base. It takes time in how many these are.
fn after(commits: &[CommitMark], base: Position) -> &[CommitMark]
    ensures { IsAfter base commits.now result.now }
{
    let mut count = commits.len();
    while ends_after(&commits[..count], base) {
        count -= 1;
    }
    &commits[count..]
}

// Whether the last of commits comes after a base.
fn ends_after(commits: &[CommitMark], base: Position) -> bool
    ensures ends { result ≡ ends_beyond base commits.now }
    ensures some { result ≡ true → 0 < length commits.now }
{
    match commits.last() {
        Some(mark) => mark.position > base,
        None => false,
    }
}

// The position of the first commit after a base that has a node and a choice in common with touches.
fn first_overtaking(
    table: &mut Table,
    commits: &[CommitMark],
    base: Position,
    own: &Touches<'_>,
) -> Result<Option<Position>, Memory>
    requires kept { AreKept table.old commits.now }
    requires own_rises { RiseByNode own.now }
    requires own_in { AreOfTable table.old own.now }
    ensures extends { Extends table.old table.new }
    ensures first { IfOk result (IsFirstOf table.old base own.now commits.now) }
{
    let mut ahead = commits;
    while let [mark, rest @ ..] = ahead {
        if overtakes(table, mark, base, own)? {
            return Ok(Some(mark.position));
        }
        ahead = rest;
    }
    Ok(None)
}

// Whether a commit comes after a base and has a node and a choice in common with touches.
fn overtakes(
    table: &mut Table,
    mark: &CommitMark,
    base: Position,
    own: &Touches<'_>,
) -> Result<bool, Memory>
    requires kept { IsKeptMark table.old mark.now }
    requires own_rises { RiseByNode own.now }
    requires own_in { AreOfTable table.old own.now }
    ensures extends { Extends table.old table.new }
    ensures decides { IfOk result (λ b. Decides b (Overtakes table.old base own.now mark.now)) }
{
    if mark.position <= base {
        return Ok(false);
    }
    meet(table, &mark.touches(), own)
}
