//! The lines of a file with an option on and with it off.
ghost use Rattle.std.specs.Prelude.{◌≡◌, ◌++◌, [], ◌∷◌, None, true, OnOk};
ghost use Rattle.cov_edit.specs.History.{option_count, first_false_in};
ghost use Rattle.cov_engine_tests.specs.Lines.{with_X, bound_to_d};

use crate::tests::lines::{delete_lines, insert_lines};
use crate::tests::steps::{append, close};
use cov_alt::{AltFault, AltLines, Mark, alt};
use cov_base::{Choice, OptionId, Path};
use cov_edit::Command;
use cov_engine::Engine;
use cov_expr::{Expr, Part};
use std::alloc::Global;
use std::process::Abort;
use std::test::Fail;

// The lines with d and without it, of the file at a path with d.
fn sides(alloc: Global, engine: &Engine, path: &[u8]) -> Result<Result<AltLines, AltFault>, Fail>
    requires count { option_count engine.now.history ≡ 1 }
    requires valid { first_false_in engine.now.history (true ∷ []) ≡ None }
{
    let path = Path::read(alloc, path)?;
    let choice = Choice::new(1, 1);
    Ok(alt(alloc, engine, choice, OptionId::new(0), &path))
}

// Whether lines have a marked line with its text at an index.
fn is_at(lines: &AltLines, index: usize, mark: Mark, line: u32, text: &[u8]) -> bool {
    match lines.get(index) {
        Some(shown) => {
            shown.mark == mark && shown.line.number() == line && shown.text.as_slice() == text
        }
        None => false,
    }
}

fn check_inserted(rt: &impl Abort, lines: &AltLines) {
    assert_eq!(rt; lines.len(), 4);
    assert!(rt; is_at(lines, 0, Mark::Both, 1, b"A"));
    assert!(rt; is_at(lines, 1, Mark::Both, 4, b"X"));
    assert!(rt; is_at(lines, 2, Mark::OnOnly, 2, b"B"));
    assert!(rt; is_at(lines, 3, Mark::Both, 3, b"C"));
}

fn check_deleted(rt: &impl Abort, lines: &AltLines) {
    assert_eq!(rt; lines.len(), 3);
    assert!(rt; is_at(lines, 0, Mark::Both, 1, b"A"));
    assert!(rt; is_at(lines, 1, Mark::OffOnly, 4, b"X"));
    assert!(rt; is_at(lines, 2, Mark::Both, 3, b"C"));
}

fn check_lines(rt: &impl Abort, alloc: Global, engine: &mut Engine) -> Result<(), Fail>
    requires { engine.old.history ≡ [] }
{
    insert_lines(alloc, engine)?;
    let inserted = sides(alloc, engine, b"/m")??;
    check_inserted(rt, &inserted);
    drop(inserted);
    delete_lines(alloc, engine)?;
    let left = sides(alloc, engine, b"/m")??;
    check_deleted(rt, &left);
    drop(left);
    Ok(())
}

#[test]
fn lines_are_marked_by_the_sides_that_have_them(rt: HostRuntime) -> Result<(), Fail> {
    let mut engine = Engine::new(rt.alloc())?;
    let checked = check_lines(&rt, rt.alloc(), &mut engine);
    close(engine);
    checked
}

// The fault for a path, if there is one.
fn fault(alloc: Global, engine: &Engine, path: &[u8]) -> Result<Option<AltFault>, Fail>
    requires count { option_count engine.now.history ≡ 1 }
    requires valid { first_false_in engine.now.history (true ∷ []) ≡ None }
{
    match sides(alloc, engine, path)? {
        Ok(_) => Ok(None),
        Err(fault) => Ok(Some(fault)),
    }
}

// From now on each choice has d.
fn bind(engine: &mut Engine) -> Result<(), Fail>
    requires { engine.old.history ≡ with_X }
    ensures { OnOk result (engine.new.history ≡ bound_to_d) }
{
    let expr = Expr::new(Part::Option(OptionId::new(0)))?;
    append(engine, Command::Constraint { expr })?;
    Ok(())
}

fn check_faults(rt: &impl Abort, alloc: Global, engine: &mut Engine) -> Result<(), Fail>
    requires { engine.old.history ≡ [] }
{
    insert_lines(alloc, engine)?;
    assert_eq!(rt; fault(alloc, engine, b"/n")?, Some(AltFault::NoSuchPath));
    assert_eq!(rt; fault(alloc, engine, b"/")?, Some(AltFault::NotFile));
    bind(engine)?;
    let without_d = AltFault::SideInvalid { on: false, rule: 1 };
    assert_eq!(rt; fault(alloc, engine, b"/m")?, Some(without_d));
    Ok(())
}

#[test]
fn an_invalid_side_and_a_path_to_no_file_are_refused(rt: HostRuntime) -> Result<(), Fail> {
    let mut engine = Engine::new(rt.alloc())?;
    let checked = check_faults(&rt, rt.alloc(), &mut engine);
    close(engine);
    checked
}
