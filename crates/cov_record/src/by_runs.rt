// Edits by runs of one side at the front of bytes.
ghost use Rattle.std.specs.Prelude.{◌≡◌, ◌<◌, [], None};
ghost use Rattle.cov_record.specs.Reading.{Gives, EndsReading, Puts, OnlyIf, front_edits, front_runs, front_run, front_by_runs, edits_under, run_under, run_with, laid, if_sided, with_run};
ghost use Rattle.cov_record.specs.SideRuns.{has_sides, side_before};

use crate::ahead::Ahead;
use crate::edits::{fill, take_edit};
use crate::expression::take_expression;
use crate::fault::{Fault, NotARecord};
use crate::side_tests::{goes_on, has_sides};
use cov_base::MemoryOr;
use cov_edit::{Edits, Sided};
use cov_expr::Expr;
use std::alloc::Global;

/// Edits of which one has a side other than `True`, by runs behind their number.
pub(crate) fn take_by_runs(alloc: Global, ahead: &mut Ahead<'_>) -> Result<Edits, Fault>
    ensures { Gives (front_by_runs ahead.old) result ahead.new }
{
    match ahead.take_u32() {
        None => Err(MemoryOr::Refused(NotARecord)),
        Some(count) => take_runs(alloc, ahead, count),
    }
}

// The edits of so many runs. There is room for those that were read alone.
fn take_runs(alloc: Global, ahead: &mut Ahead<'_>, count: u32) -> Result<Edits, Fault>
    ensures { Gives (if_sided (laid [] (front_runs None count ahead.old))) result ahead.new }
{
    let mut edits = Edits::new(alloc);
    match fill_runs(alloc, ahead, &mut edits, count) {
        None => if_sided(edits),
        Some(fault) => Err(fault),
    }
}

// The edits, where one of them has a side.
fn if_sided(edits: Edits) -> Result<Edits, Fault>
    ensures { OnlyIf (has_sides edits) edits result }
{
    match has_sides(&edits) {
        true => Ok(edits),
        false => Err(MemoryOr::Refused(NotARecord)),
    }
}

// Puts the edits of so many runs behind others.
fn fill_runs(alloc: Global, ahead: &mut Ahead<'_>, edits: &mut Edits, count: u32) -> Option<Fault>
    ensures { EndsReading (laid edits.old (front_runs (side_before edits.old) count ahead.old))
        edits.new result ahead.new }
{
    for run in 0..count {
        if let Some(fault) = take_run(alloc, ahead, edits) {
            return Some(fault);
        }
    }
    None
}

fn take_run(alloc: Global, ahead: &mut Ahead<'_>, edits: &mut Edits) -> Option<Fault>
    ensures { Puts with_run (front_run (side_before edits.old) ahead.old) edits.old edits.new
        result ahead.new }
{
    match take_expression(alloc, ahead) {
        Err(fault) => Some(fault),
        Ok(side) => take_run_under(alloc, ahead, edits, side),
    }
}

// A run of a side, which isn't to be that of the edits before it.
fn take_run_under(
    alloc: Global,
    ahead: &mut Ahead<'_>,
    edits: &mut Edits,
    side: Expr,
) -> Option<Fault>
    ensures { Puts with_run (run_under (side_before edits.old) side ahead.old) edits.old edits.new
        result ahead.new }
{
    match goes_on(edits, &side) {
        true => Some(MemoryOr::Refused(NotARecord)),
        false => take_edits_under(alloc, ahead, edits, side),
    }
}

// The edits of a run behind their number, of which there is one at least.
fn take_edits_under(
    alloc: Global,
    ahead: &mut Ahead<'_>,
    edits: &mut Edits,
    side: Expr,
) -> Option<Fault>
    ensures { Puts with_run (edits_under side ahead.old) edits.old edits.new result ahead.new }
{
    let Some(count) = ahead.take_u32() else {
        return Some(MemoryOr::Refused(NotARecord));
    };
    match count {
        0 => Some(MemoryOr::Refused(NotARecord)),
        _ => fill_under(alloc, ahead, edits, side, count),
    }
}

// So many edits of a side. The side is kept with the first of them.
fn fill_under(
    alloc: Global,
    ahead: &mut Ahead<'_>,
    edits: &mut Edits,
    side: Expr,
    count: u32,
) -> Option<Fault>
    requires { 0 < count }
    ensures { Puts with_run (run_with side (front_edits count ahead.old)) edits.old edits.new
        result ahead.new }
{
    match take_edit(alloc, ahead) {
        Err(fault) => Some(fault),
        Ok(edit) => match edits.push(Sided { side, edit }) {
            Ok(_) => fill(alloc, ahead, edits, count - 1),
            Err(_) => Some(MemoryOr::Memory),
        },
    }
}
