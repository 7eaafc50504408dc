//! Commands that a history refuses for what they name, and commits for their base, their choice and their edits.
ghost use Rattle.std.specs.Prelude.{◌≡◌, ◌<◌, [], true};
ghost use Rattle.cov_base.specs.declared.limits.TheConstants.{CHOICE_WIDTH};
ghost use Rattle.cov_edit.specs.EditFits.{has_line_text};

use crate::tests::lines::{insert_lines, insertion};
use crate::tests::steps::{append, close, command};
use crate::tests::trees::{also, one};
use cov_base::{Choice, LineNo, LineRef, NodeNo, NodeRef, OptionId};
use cov_edit::{Command, Edit, Edits};
use cov_engine::{Engine, Refusal};
use cov_expr::{Expr, Part};
use std::alloc::Global;
use std::process::Abort;
use std::test::Fail;

/// Why a command is refused.
pub(crate) fn refused(engine: &mut Engine, command: Command) -> Result<Refusal, Fail> {
    match engine.append(command) {
        Ok(_) => Err(Fail::from("accepted")),
        Err(refusal) => Ok(refusal),
    }
}

// Why a commit of edits is refused.
fn refusal_of(
    engine: &mut Engine,
    base: u32,
    choice: Choice,
    within: Option<OptionId>,
    edits: Edits,
) -> Result<Refusal, Fail> {
    let command = command(base, choice, within, edits)?;
    refused(engine, command)
}

/// The option of a number.
pub(crate) fn option(number: u8) -> Result<Expr, Fail>
    requires { number < CHOICE_WIDTH }
{
    Ok(Expr::new(Part::Option(OptionId::new(number)))?)
}

// A line after another, in a file.
fn line(alloc: Global, file: u32, after: u32) -> Result<Edits, Fail> {
    let edit = insertion(alloc, NodeRef::Old(NodeNo::new(file)), after, b"Z")?;
    one(alloc, edit)
}

// Takes a line out of the file 1.
fn deletion(line: LineRef) -> Edit
    ensures { has_line_text result ≡ true }
{
    Edit::Delete {
        file: NodeRef::Old(NodeNo::new(1)),
        line,
    }
}

fn check_rules(rt: &impl Abort, engine: &mut Engine) -> Result<(), Fail> {
    let expr = option(1)?;
    let refusal = refused(engine, Command::Constraint { expr })?;
    assert!(rt; matches!(refusal, Refusal::BadOption));
    let expr = option(127)?;
    let refusal = refused(engine, Command::Prefer { expr })?;
    assert!(rt; matches!(refusal, Refusal::BadOption));
    let default = Command::Default {
        option: OptionId::new(1),
        on: true,
    };
    let refusal = refused(engine, default)?;
    assert!(rt; matches!(refusal, Refusal::BadOption));
    Ok(())
}

fn check_bases(rt: &impl Abort, alloc: Global, engine: &mut Engine) -> Result<(), Fail> {
    let refusal = refusal_of(engine, 6, Choice::new(0, 1), None, line(alloc, 1, 1)?)?;
    assert!(rt; matches!(refusal, Refusal::BadBase));
    let refusal = refusal_of(engine, 5, Choice::new(0, 0), None, line(alloc, 1, 1)?)?;
    assert!(rt; matches!(refusal, Refusal::BadOption));
    let refusal = refusal_of(engine, 0, Choice::new(0, 1), None, line(alloc, 1, 1)?)?;
    assert!(rt; matches!(refusal, Refusal::BadOption));
    let refusal = refusal_of(
        engine,
        0,
        Choice::new(0, 0),
        Some(OptionId::new(0)),
        line(alloc, 1, 1)?,
    )?;
    assert!(rt; matches!(refusal, Refusal::BadOption));
    let refusal = refusal_of(
        engine,
        5,
        Choice::new(0, 1),
        Some(OptionId::new(0)),
        Edits::new(alloc),
    )?;
    assert!(rt; matches!(refusal, Refusal::OutsideAmbition));
    let refusal = refusal_of(engine, 5, Choice::new(0, 1), None, Edits::new(alloc))?;
    assert!(rt; matches!(refusal, Refusal::Empty));
    Ok(())
}

// With a constraint that d is on, the choice without d is refused on a base behind it alone.
fn check_constraint(rt: &impl Abort, alloc: Global, engine: &mut Engine) -> Result<(), Fail> {
    let expr = option(0)?;
    append(engine, Command::Constraint { expr })?;
    let refusal = refusal_of(engine, 6, Choice::new(0, 1), None, line(alloc, 1, 1)?)?;
    assert!(rt; matches!(refusal, Refusal::Invalid { rule: 1 }));
    let refusal = refusal_of(engine, 5, Choice::new(0, 1), None, line(alloc, 9, 1)?)?;
    assert!(rt; matches!(refusal, Refusal::BadRecord { edit: 0 }));
    Ok(())
}

fn check_declared(rt: &impl Abort, alloc: Global, engine: &mut Engine) -> Result<(), Fail>
    requires { engine.old.history ≡ [] }
{
    insert_lines(alloc, engine)?;
    check_rules(rt, engine)?;
    check_bases(rt, alloc, engine)?;
    check_constraint(rt, alloc, engine)
}

#[test]
fn a_command_names_what_is_declared(rt: HostRuntime) -> Result<(), Fail> {
    let mut engine = Engine::new(rt.alloc())?;
    let checked = check_declared(&rt, rt.alloc(), &mut engine);
    close(engine);
    checked
}

// A line is put into the file 1, taken out again, and taken out once more.
fn line_deleted_twice(alloc: Global) -> Result<Edits, Fail> {
    let edits = line(alloc, 1, 1)?;
    let edits = also(edits, deletion(LineRef::New(0)))?;
    also(edits, deletion(LineRef::New(0)))
}

// The lines of the file 1 are A, C and X without d, and with it B too, which is 2.
fn check_edits(rt: &impl Abort, alloc: Global, engine: &mut Engine) -> Result<(), Fail>
    requires { engine.old.history ≡ [] }
{
    insert_lines(alloc, engine)?;
    let refusal = refusal_of(engine, 5, Choice::new(1, 1), None, line(alloc, 2, 0)?)?;
    assert!(rt; matches!(refusal, Refusal::BadRecord { edit: 0 }));
    let refusal = refusal_of(engine, 5, Choice::new(0, 1), None, line(alloc, 1, 2)?)?;
    assert!(rt; matches!(refusal, Refusal::BadRecord { edit: 0 }));
    let refusal = refusal_of(engine, 2, Choice::new(1, 1), None, line(alloc, 1, 3)?)?;
    assert!(rt; matches!(refusal, Refusal::BadRecord { edit: 0 }));
    let edits = line_deleted_twice(alloc)?;
    let refusal = refusal_of(engine, 5, Choice::new(1, 1), None, edits)?;
    assert!(rt; matches!(refusal, Refusal::BadRecord { edit: 2 }));
    let edits = one(alloc, deletion(LineRef::Old(LineNo::new(5))))?;
    let refusal = refusal_of(engine, 5, Choice::new(1, 1), None, edits)?;
    assert!(rt; matches!(refusal, Refusal::BadRecord { edit: 0 }));
    let edits = one(alloc, deletion(LineRef::Old(LineNo::new(2))))?;
    let refusal = refusal_of(engine, 4, Choice::new(1, 1), None, edits)?;
    assert!(rt; matches!(refusal, Refusal::Overtaken { .. }));
    Ok(())
}

#[test]
fn a_commit_has_edits_that_its_variant_takes(rt: HostRuntime) -> Result<(), Fail> {
    let mut engine = Engine::new(rt.alloc())?;
    let checked = check_edits(&rt, rt.alloc(), &mut engine);
    close(engine);
    checked
}
