// Which commits reach a variant.
ghost use Rattle.std.specs.Prelude.{◌≡◌, ◌≤◌, ◌++◌, ◌-◌, [], ◌∷◌, length, IfOk, OnOk};
ghost use Rattle.cov_base.specs.declared.limits.TheConstants.{LIMITS};
ghost use Rattle.cov_edit.specs.Fits.{reach_of};
ghost use Rattle.cov_edit.specs.History.{edits_in, option_count};
ghost use Rattle.cov_edit.specs.Sides.{reach_within};
ghost use Rattle.cov_hist.specs.Holding.{held, holding, holding_from};

use crate::edit_counts::edits_on;
use crate::{LogRow, LogRows};
use cov_base::{Choice, Memory, Position};
use cov_edit::{Command, Edits};
use cov_engine::Engine;
use cov_expr::Expr;
use std::alloc::Global;

/// The commits whose ambition is true on a choice, in order, each with the number of its edits whose side is true there, those with
/// none too. Each ambition and each side that edits one after another share is evaluated once. It takes time in the commands and in
/// these.
pub fn log(alloc: Global, engine: &Engine, choice: Choice) -> Result<LogRows, Memory>
    requires { length choice ≡ option_count engine.now.history }
    ensures { IfOk result (λ rows. rows ≡ holding engine.now.history choice) }
{
    let mut rows = LogRows::new(alloc);
    let last = engine.position().number();
    engine.history_is_legal();
    let mut before = 0;
    while before < last {
        let at = Position::new(before + 1);
        add_command(&mut rows, engine.command(at), at, choice)?;
        before += 1;
    }
    Ok(rows)
}

// Adds a command, if it is a commit that holds on a choice. At an `Err` the rows are as before.
fn add_command(
    rows: &mut LogRows,
    command: &Command,
    at: Position,
    choice: Choice,
) -> Result<(), Memory>
    requires at { 1 ≤ at }
    requires reach { reach_of command.now ≤ length choice }
    requires few { length (edits_in command.now) ≤ LIMITS.edits }
    ensures ok { OnOk result (rows.new ≡
        rows.old ++ holding_from (at - 1) (command.now ∷ []) choice) }
{
    match command {
        Command::Commit {
            ambition,
            edits,
            ..
        } => add_commit(rows, ambition, edits, at, choice),
        Command::Option { .. }
        | Command::Constraint { .. }
        | Command::Prefer { .. }
        | Command::Default { .. }
        | Command::Upgrade => Ok(()),
    }
}

// Adds a commit, if its ambition is true on a choice.
fn add_commit(
    rows: &mut LogRows,
    ambition: &Expr,
    edits: &Edits,
    at: Position,
    choice: Choice,
) -> Result<(), Memory>
    requires reach { reach_within ambition.now edits.now ≤ length choice }
    requires few { length edits.now ≤ LIMITS.edits }
    ensures ok { OnOk result (rows.new ≡ rows.old ++ held at ambition.now edits.now choice) }
{
    if !ambition.value(choice) {
        return Ok(());
    }
    rows.push(LogRow {
        position: at,
        edits: edits_on(edits, choice),
    })
}
