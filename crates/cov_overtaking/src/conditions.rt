// Where the edits of a commit apply, as diagrams.
ghost use Rattle.std.specs.Prelude.{◌≡◌, ◌<◌, ◌-◌, ◌++◌, length, replicate, IfOk, OnOk};
ghost use Rattle.cov_dd.specs.Diagrams.{diagram_size, Extends};
ghost use Rattle.cov_edit.specs.Runs.{side_at, RunsRise};
ghost use Rattle.cov_overtaking.specs.EditConditions.{AllAt, IsCondition, HaveConditions, first_place};

use cov_base::{Memory, Steps, Uncounted};
use cov_dd::{Node, Table};
use cov_edit::{Edits, Run};
use cov_expr::Expr;
use cov_vis::compile;
use std::alloc::Global;

/// A node for each edit, true where a node is and the side of the edit. Edits one after another with one side share theirs, so
/// it takes a conjunction for each side, and none where each side is `True`.
pub fn conditions_of(
    alloc: Global,
    table: &mut Table,
    within: Node,
    edits: &Edits,
) -> Result<Vec<Node>, Memory>
    requires { within < diagram_size table.old }
    ensures extends { Extends table.old table.new }
    ensures are { IfOk result (λ nodes.
        HaveConditions table.old table.new within nodes.items edits.now) }
{
    let count = edits.len();
    let runs = edits.runs();
    let mut nodes = Vec::new(alloc);
    fill(&mut nodes, within, first_place(runs, count))?;
    fill_runs(table, &mut nodes, within, runs, count)?;
    Ok(nodes)
}

// Appends the nodes of the edits of runs, so many edits being there in all.
fn fill_runs(
    table: &mut Table,
    nodes: &mut Vec<Node>,
    within: Node,
    runs: &[Run],
    count: usize,
) -> Result<(), Memory>
    requires within { within < diagram_size table.old }
    requires rise { RunsRise runs.now }
    requires reached { length nodes.old.items ≡ first_place count runs.now }
    requires all { AllAt (λ i n. IsCondition table.old table.old within (side_at runs.now i) n) 0
        nodes.old.items }
    ensures extends { Extends table.old table.new }
    ensures reached { OnOk result (length nodes.new.items ≡ count) }
    ensures all { OnOk result (AllAt (λ i n.
        IsCondition table.old table.new within (side_at runs.now i) n) 0 nodes.new.items) }
{
    let mut ahead = runs;
    while let [run, rest @ ..] = ahead {
        let node = on_side(table, within, &run.side)?;
        fill(nodes, node, first_place(rest, count))?;
        ahead = rest;
    }
    Ok(())
}

// The node that is true where a node is and a side.
fn on_side(table: &mut Table, within: Node, side: &Expr) -> Result<Node, Memory>
    requires { within < diagram_size table.old }
    ensures extends { Extends table.old table.new }
    ensures is { IfOk result (IsCondition table.old table.new within side.now) }
{
    let node = compile(table, side)?;
    table.and(within, node, &mut Steps::<Uncounted>::new())
}

// The place at which the first of runs begins, or the count of edits.
fn first_place(runs: &[Run], count: usize) -> usize
    ensures { result ≡ first_place count runs.now }
{
    match runs {
        [run, ..] if run.first < count => run.first,
        _ => count,
    }
}

// Appends a node until there are so many.
fn fill(nodes: &mut Vec<Node>, node: Node, count: usize) -> Result<(), Memory>
    ensures { OnOk result (nodes.new.items ≡
        nodes.old.items ++ replicate (count - length nodes.old.items) node) }
{
    if nodes.as_slice().len() < count {
        nodes.resize(count, node)?;
    }
    Ok(())
}
