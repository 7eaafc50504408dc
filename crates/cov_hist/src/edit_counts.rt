// How many edits of a commit apply on a choice.
ghost use Rattle.std.specs.Prelude.{◌≡◌, ◌≤◌, length};
ghost use Rattle.cov_base.specs.declared.limits.TheConstants.{LIMITS};
ghost use Rattle.cov_edit.specs.Runs.{AreBelow, RunsRise};
ghost use Rattle.cov_edit.specs.Sides.{reach_of_sides};
ghost use Rattle.cov_expr.specs.Formula.{reach};
ghost use Rattle.cov_engine.specs.Refusing.{reach_of_runs};
ghost use Rattle.cov_hist.specs.Holding.{edits_on};
ghost use Rattle.cov_hist.specs.RunCounts.{edits_in_run, edits_in_runs, place_of};

use cov_base::Choice;
use cov_edit::{Edits, Run};

/// How many edits have a side that is true on a choice. It looks once at a side that edits one after another share.
pub(crate) fn edits_on(edits: &Edits, choice: Choice) -> u32
    requires reach { reach_of_sides edits.now ≤ length choice }
    requires few { length edits.now ≤ LIMITS.edits }
    ensures { result ≡ edits_on choice edits.now }
{
    let runs = edits.runs();
    let count = edits.len();
    (place_of(runs, count) + edits_in_runs(runs, count, choice)) as u32
}

// The place at which the first of runs begins, or the count of all edits.
fn place_of(runs: &[Run], count: usize) -> usize
    ensures { result ≡ place_of count runs.now }
{
    match runs {
        [run, ..] => run.first,
        [] => count,
    }
}

// How many of the edits in runs have a side that is true, so many edits being there in all.
fn edits_in_runs(runs: &[Run], count: usize, choice: Choice) -> usize
    requires reach { reach_of_runs runs.now ≤ length choice }
    requires rise { RunsRise runs.now }
    requires below { AreBelow count runs.now }
    requires few { edits_in_runs choice count runs.now ≤ LIMITS.edits }
    ensures { result ≡ edits_in_runs choice count runs.now }
{
    let mut edits = 0;
    let mut ahead = runs;
    while let [run, rest @ ..] = ahead {
        edits += edits_in_run(run, place_of(rest, count), choice);
        ahead = rest;
    }
    edits
}

// How many of the edits in a run have a side that is true, the run ending before a place.
fn edits_in_run(run: &Run, end: usize, choice: Choice) -> usize
    requires reach { reach run.now.side ≤ length choice }
    requires begins { run.now.first ≤ end }
    ensures { result ≡ edits_in_run choice run.now end }
{
    match run.side.value(choice) {
        true => end - run.first,
        false => 0,
    }
}
