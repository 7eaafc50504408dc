// What is counted of a commit's edits, once.
ghost use Rattle.std.specs.Prelude.{◌≡◌, [], IfOk};
ghost use Rattle.cov_edit.specs.History.{edits_in};
ghost use Rattle.cov_edit.specs.Sides.{unsided};
ghost use Rattle.cov_engine.specs.Summaries.{summary_of, IsSummaryOf};

use crate::evidence::change_rows;
use crate::sizes::{Sizes, measure};
use cov_base::{LIMITS, Memory, NodeNos};
use cov_edit::{Command, Edits, touched};
use std::alloc::Global;

/// How much edits make, the old nodes that they touch, rising, and whether they change rows.
#[derive(Drop)]
pub(crate) struct EditSummary {
    pub(crate) sizes: Sizes,
    pub(crate) touched: NodeNos,
    pub(crate) changes_rows: bool,
}

/// Counts a command's edits. Where these are more than a commit may have, nothing is told of them.
pub(crate) fn summarize(alloc: Global, command: &Command) -> Result<EditSummary, Memory>
    ensures { IfOk result (IsSummaryOf (unsided (edits_in command.now))) }
{
    match command {
        Command::Commit { edits, .. } => summary_of(alloc, edits),
        Command::Option { .. }
        | Command::Constraint { .. }
        | Command::Prefer { .. }
        | Command::Default { .. }
        | Command::Upgrade => Ok(no_edits(alloc)),
    }
}

fn summary_of(alloc: Global, edits: &Edits) -> Result<EditSummary, Memory>
    ensures { IfOk result (IsSummaryOf (unsided edits.now)) }
{
    let items = edits.as_slice();
    if items.len() > LIMITS.edits {
        return Ok(no_edits(alloc));
    }
    let touched = touched(edits)?;
    Ok(EditSummary {
        sizes: measure(items),
        touched,
        changes_rows: change_rows(items),
    })
}

fn no_edits(alloc: Global) -> EditSummary
    ensures { result ≡ summary_of [] }
{
    EditSummary {
        sizes: Sizes {
            lines: 0,
            nodes: 0,
            bytes: 0,
        },
        touched: NodeNos::new(alloc),
        changes_rows: false,
    }
}
