//! Lines that are put into a file on older bases, beside commits of another file.
ghost use Rattle.std.specs.Prelude.{◌≡◌, [], ◌∷◌, false, codes, IfOk, OnOk};
ghost use Rattle.cov_engine_tests.specs.Lines.{file_n, with_X, with_Y};
ghost use Rattle.cov_engine_tests.specs.Trees.{everywhere};

use crate::tests::lines::{insert, insert_lines, insertion};
use crate::tests::steps::{close, command, commit};
use crate::tests::trees::{making, one};
use cov_base::{Choice, Kind, NodeNo, NodeRef};
use cov_edit::Edits;
use cov_engine::{Engine, Refusal};
use std::alloc::Global;
use std::process::Abort;
use std::test::Fail;

// The file n.
fn other_file(alloc: Global) -> Result<Edits, Fail>
    ensures { IfOk result (λ edits. edits ≡ everywhere (file_n ∷ [])) }
{
    let edit = making(alloc, Kind::File, 0, b"n")?;
    one(alloc, edit)
}

// Makes the file n, and puts a line into the file m on the base before it.
fn insert_beside(alloc: Global, engine: &mut Engine) -> Result<(), Fail>
    requires { engine.old.history ≡ with_X }
    ensures { OnOk result (engine.new.history ≡ with_Y) }
{
    let edits = other_file(alloc)?;
    commit(engine, 5, Choice::new(0, 1), None, edits)?;
    insert(alloc, engine, 5, Choice::new(0, 1), None, 1, b"Y")
}

// The position of what overtakes a line that is put into the file m on a base.
fn overtaker(alloc: Global, engine: &mut Engine, base: u32) -> Result<Option<u32>, Fail> {
    let edit = insertion(alloc, NodeRef::Old(NodeNo::new(1)), 1, b"Z")?;
    let edits = one(alloc, edit)?;
    let command = command(base, Choice::new(0, 1), None, edits)?;
    match engine.append(command) {
        Ok(_) => Ok(None),
        Err(refusal) => Ok(Some(position_of(refusal)?)),
    }
}

/// The position of what overtakes.
pub(crate) fn position_of(refusal: Refusal) -> Result<u32, Fail> {
    match refusal {
        Refusal::Overtaken { position } => Ok(position.number()),
        _ => Err(Fail::from("refused")),
    }
}

fn check_overtaken(
    rt: &impl Abort,
    alloc: Global,
    engine: &mut Engine,
    base: u32,
    position: Option<u32>,
) -> Result<(), Fail>
    requires history { engine.old.history ≡ [] }
{
    insert_lines(alloc, engine)?;
    insert_beside(alloc, engine)?;
    let found = overtaker(alloc, engine, base)?;
    assert_eq!(rt; found, position);
    Ok(())
}

#[test]
fn the_first_later_commit_of_the_file_overtakes(rt: HostRuntime) -> Result<(), Fail> {
    let mut engine = Engine::new(rt.alloc())?;
    let checked = check_overtaken(&rt, rt.alloc(), &mut engine, 3, Some(4));
    close(engine);
    checked
}

#[test]
fn commits_of_another_file_do_not_overtake(rt: HostRuntime) -> Result<(), Fail> {
    let mut engine = Engine::new(rt.alloc())?;
    let checked = check_overtaken(&rt, rt.alloc(), &mut engine, 5, Some(7));
    close(engine);
    checked
}

#[test]
fn nothing_overtakes_on_the_last_base(rt: HostRuntime) -> Result<(), Fail> {
    let mut engine = Engine::new(rt.alloc())?;
    let checked = check_overtaken(&rt, rt.alloc(), &mut engine, 7, None);
    close(engine);
    checked
}
