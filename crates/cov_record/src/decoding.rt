// Commands from bytes.
ghost use Rattle.std.specs.Prelude.{◌≡◌, IfOk, IsErrOf};
ghost use Rattle.cov_record.specs.Laws.{IsRecordOf, IsNoRecord};
ghost use Rattle.cov_record.specs.Reading.{Gives, GivesAlone, OnlyIf, front_option, front_constraint, front_prefer, front_default, front_rest, front_ambition, front_commit, front_command, front_sided};

use crate::ahead::Ahead;
use crate::by_runs::take_by_runs;
use crate::choices::{take_bit, take_choice};
use crate::edits::{take_option_name, take_plain};
use crate::expression::take_expression;
use crate::fault::{Fault, NotARecord};
use cov_base::{CHOICE_WIDTH, Choice, MemoryOr, OptionId, Position};
use cov_edit::{Command, Edits};
use cov_expr::Expr;
use std::alloc::Global;

/// The command whose record the bytes are. `NotARecord` comes exactly where they are no command's.
pub fn decode(alloc: Global, bytes: &[u8]) -> Result<Command, MemoryOr<NotARecord>>
    ensures ok { IfOk result (λ command. IsRecordOf bytes.now command) }
    ensures refused { IsErrOf result (MemoryOr.Refused (record {})) → IsNoRecord bytes.now }
{
    decode_whole(alloc, bytes)
}

fn decode_whole(alloc: Global, bytes: &[u8]) -> Result<Command, Fault>
    ensures { GivesAlone (front_command bytes.now) result }
{
    let mut ahead = Ahead::new(bytes);
    match take_command(alloc, &mut ahead) {
        Err(fault) => Err(fault),
        Ok(command) => if_whole(command, ahead.is_empty()),
    }
}

// The command, where it is the whole.
fn if_whole(command: Command, is_whole: bool) -> Result<Command, Fault>
    ensures { OnlyIf is_whole command result }
{
    if is_whole {
        return Ok(command);
    }
    Err(MemoryOr::Refused(NotARecord))
}

fn take_command(alloc: Global, ahead: &mut Ahead<'_>) -> Result<Command, Fault>
    ensures { Gives (front_command ahead.old) result ahead.new }
{
    match ahead.take_u8() {
        Some(1) => take_option(alloc, ahead),
        Some(2) => take_constraint(alloc, ahead),
        Some(3) => take_prefer(alloc, ahead),
        Some(4) => take_default(ahead),
        Some(5) => take_commit(alloc, ahead, false),
        Some(6) => take_commit(alloc, ahead, true),
        Some(7) => Ok(Command::Upgrade),
        _ => Err(MemoryOr::Refused(NotARecord)),
    }
}

fn take_option(alloc: Global, ahead: &mut Ahead<'_>) -> Result<Command, Fault>
    ensures { Gives (front_option ahead.old) result ahead.new }
{
    match take_option_name(alloc, ahead) {
        Ok(name) => Ok(Command::Option { name }),
        Err(fault) => Err(fault),
    }
}

fn take_constraint(alloc: Global, ahead: &mut Ahead<'_>) -> Result<Command, Fault>
    ensures { Gives (front_constraint ahead.old) result ahead.new }
{
    match take_expression(alloc, ahead) {
        Ok(expr) => Ok(Command::Constraint { expr }),
        Err(fault) => Err(fault),
    }
}

fn take_prefer(alloc: Global, ahead: &mut Ahead<'_>) -> Result<Command, Fault>
    ensures { Gives (front_prefer ahead.old) result ahead.new }
{
    match take_expression(alloc, ahead) {
        Ok(expr) => Ok(Command::Prefer { expr }),
        Err(fault) => Err(fault),
    }
}

fn take_default(ahead: &mut Ahead<'_>) -> Result<Command, Fault>
    ensures { Gives (front_default ahead.old) result ahead.new }
{
    let Some(number) = ahead.take_u8() else {
        return Err(MemoryOr::Refused(NotARecord));
    };
    if number >= CHOICE_WIDTH {
        return Err(MemoryOr::Refused(NotARecord));
    }
    match take_bit(ahead) {
        Some(on) => Ok(Command::Default {
            option: OptionId::new(number),
            on,
        }),
        None => Err(MemoryOr::Refused(NotARecord)),
    }
}

// A commit, whose edits have their sides spelt or not.
fn take_commit(alloc: Global, ahead: &mut Ahead<'_>, with_sides: bool) -> Result<Command, Fault>
    ensures { Gives (front_commit with_sides ahead.old) result ahead.new }
{
    let Some(base) = ahead.take_u32() else {
        return Err(MemoryOr::Refused(NotARecord));
    };
    let Some(choice) = take_choice(ahead) else {
        return Err(MemoryOr::Refused(NotARecord));
    };
    take_ambition(alloc, ahead, with_sides, Position::new(base), choice)
}

fn take_ambition(
    alloc: Global,
    ahead: &mut Ahead<'_>,
    with_sides: bool,
    base: Position,
    choice: Choice,
) -> Result<Command, Fault>
    ensures { Gives (front_ambition with_sides base choice ahead.old) result ahead.new }
{
    match take_expression(alloc, ahead) {
        Ok(ambition) => take_rest(alloc, ahead, with_sides, base, choice, ambition),
        Err(fault) => Err(fault),
    }
}

fn take_rest(
    alloc: Global,
    ahead: &mut Ahead<'_>,
    with_sides: bool,
    base: Position,
    choice: Choice,
    ambition: Expr,
) -> Result<Command, Fault>
    ensures { Gives (front_rest with_sides base choice ambition ahead.old) result ahead.new }
{
    match take_sided(alloc, ahead, with_sides) {
        Ok(edits) => Ok(Command::Commit {
            base,
            choice,
            ambition,
            edits,
        }),
        Err(fault) => Err(fault),
    }
}

fn take_sided(alloc: Global, ahead: &mut Ahead<'_>, with_sides: bool) -> Result<Edits, Fault>
    ensures { Gives (front_sided with_sides ahead.old) result ahead.new }
{
    match with_sides {
        true => take_by_runs(alloc, ahead),
        false => take_plain(alloc, ahead),
    }
}
