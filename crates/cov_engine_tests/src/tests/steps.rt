// What tests do with an engine.
ghost use Rattle.std.specs.Prelude.{◌≡◌, ◌++◌, [], ◌∷◌, IfOk, OnOk};
ghost use Rattle.cov_engine_tests.specs.Lines.{of_d};
ghost use Rattle.cov_engine_tests.specs.Trees.{ambition_in, commit_in};

use cov_base::{Choice, OptionId, OptionName, Position};
use cov_edit::{Command, Edits};
use cov_engine::{Engine, Receipt};
use cov_expr::{Expr, Part};
use std::alloc::Global;
use std::test::Fail;

/// Appends a command.
pub(crate) fn append(engine: &mut Engine, command: Command) -> Result<Receipt, Fail>
    ensures { OnOk result (engine.new.history ≡ engine.old.history ++ command ∷ []) }
{
    match engine.append(command) {
        Ok(receipt) => Ok(receipt),
        Err(_) => Err(Fail::from("refused")),
    }
}

pub(crate) fn option_d(alloc: Global) -> Result<Command, Fail>
    ensures { IfOk result (λ command. command ≡ of_d) }
{
    let name = OptionName::read(alloc, b"d")?;
    Ok(Command::Option { name })
}

/// Declares d in an empty history.
pub(crate) fn declare_d(alloc: Global, engine: &mut Engine) -> Result<Receipt, Fail>
    requires { engine.old.history ≡ [] }
    ensures { OnOk result (engine.new.history ≡ of_d ∷ []) }
{
    let command = option_d(alloc)?;
    append(engine, command)
}

// All variants, or those with an option.
fn ambition(within: Option<OptionId>) -> Result<Expr, Fail>
    ensures { IfOk result (λ expr. expr ≡ ambition_in within) }
{
    match within {
        Some(option) => Ok(Expr::new(Part::Option(option))?),
        None => Ok(Expr::new(Part::True)?),
    }
}

/// A commit of edits on the variant of a choice.
pub(crate) fn command(
    base: u32,
    choice: Choice,
    within: Option<OptionId>,
    edits: Edits,
) -> Result<Command, Fail>
    ensures { IfOk result (λ command. command ≡ commit_in base choice within edits) }
{
    let ambition = ambition(within)?;
    Ok(Command::Commit {
        base: Position::new(base),
        choice,
        ambition,
        edits,
    })
}

/// Commits edits on the variant of a choice.
pub(crate) fn commit(
    engine: &mut Engine,
    base: u32,
    choice: Choice,
    within: Option<OptionId>,
    edits: Edits,
) -> Result<(), Fail>
    ensures { OnOk result (engine.new.history ≡
        engine.old.history ++ commit_in base choice within edits ∷ []) }
{
    let command = command(base, choice, within, edits)?;
    append(engine, command)?;
    Ok(())
}

pub(crate) fn close(_: Engine) {}
