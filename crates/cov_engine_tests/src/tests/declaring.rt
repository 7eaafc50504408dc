//! Declarations and upgrades that are appended, refused, installed and given up, and a completion.
ghost use Rattle.std.specs.Prelude.{◌≡◌, [], ◌∷◌, IfOk};
ghost use Rattle.cov_engine_tests.specs.Lines.{of_d};

use crate::tests::steps::{append, close, declare_d, option_d};
use cov_base::{Choice, OptionId};
use cov_edit::Command;
use cov_engine::{Engine, Refusal};
use cov_expr::{Expr, Options, Part, Partial};
use std::alloc::Global;
use std::process::Abort;
use std::test::Fail;

fn check_appending(rt: &impl Abort, alloc: Global, engine: &mut Engine) -> Result<(), Fail>
    requires { engine.old.history ≡ [] }
{
    let receipt = declare_d(alloc, engine)?;
    assert_eq!(rt; receipt.position.number(), 1);
    assert_eq!(rt; receipt.number, 0);
    let again = option_d(alloc)?;
    let refused = engine.append(again);
    assert!(rt; matches!(refused, Err(Refusal::Exists)));
    assert_eq!(rt; engine.position().number(), 1);
    Ok(())
}

#[test]
fn an_option_is_appended_once(rt: HostRuntime) -> Result<(), Fail> {
    let mut engine = Engine::new(rt.alloc())?;
    let checked = check_appending(&rt, rt.alloc(), &mut engine);
    close(engine);
    checked
}

// The option d.
fn declared(alloc: Global) -> Result<Engine, Fail>
    ensures { IfOk result (λ engine. engine.history ≡ of_d ∷ []) }
{
    let mut engine = Engine::new(alloc)?;
    match declare_d(alloc, &mut engine) {
        Ok(_) => Ok(engine),
        Err(fail) => {
            close(engine);
            Err(fail)
        }
    }
}

// A default for d, installed or given up.
fn with_default(engine: Engine, installed: bool) -> Result<Engine, Fail>
    requires { engine.history ≡ of_d ∷ [] }
{
    let default = Command::Default {
        option: OptionId::new(0),
        on: true,
    };
    match engine.prepare(default) {
        Ok(prepared) => match installed {
            true => Ok(prepared.install().0),
            false => Ok(prepared.cancel()),
        },
        Err((engine, _)) => {
            close(engine);
            Err(Fail::from("refused"))
        }
    }
}

#[test]
fn a_default_is_installed(rt: HostRuntime) -> Result<(), Fail> {
    let engine = with_default(declared(rt.alloc())?, true)?;
    assert_eq!(rt; engine.position().number(), 2);
    close(engine);
    Ok(())
}

fn check_options(rt: &impl Abort, options: &Options) {
    assert_eq!(rt; options.count(), 1);
    assert_eq!(rt; options.find(b"d"), Some(OptionId::new(0)));
}

#[test]
fn a_default_is_given_up(rt: HostRuntime) -> Result<(), Fail> {
    let engine = with_default(declared(rt.alloc())?, false)?;
    assert_eq!(rt; engine.position().number(), 1);
    let options = engine.into_options();
    check_options(&rt, &options);
    drop(options);
    Ok(())
}

fn check_upgrade(rt: &impl Abort, engine: &mut Engine) -> Result<(), Fail> {
    let receipt = append(engine, Command::Upgrade)?;
    assert_eq!(rt; receipt.position.number(), 1);
    assert_eq!(rt; receipt.number, 2);
    engine.sweep()?;
    let refused = engine.append(Command::Upgrade);
    assert!(rt; matches!(refused, Err(Refusal::Upgraded)));
    assert_eq!(rt; engine.position().number(), 1);
    Ok(())
}

// An upgrade that is given up.
fn without_upgrade(engine: Engine) -> Result<Engine, Fail> {
    match engine.prepare(Command::Upgrade) {
        Ok(prepared) => Ok(prepared.cancel()),
        Err((engine, _)) => {
            close(engine);
            Err(Fail::from("refused"))
        }
    }
}

#[test]
fn an_upgrade_is_appended_once(rt: HostRuntime) -> Result<(), Fail> {
    let mut engine = without_upgrade(Engine::new(rt.alloc())?)?;
    let checked = check_upgrade(&rt, &mut engine);
    close(engine);
    checked
}

// With a constraint that d is on, only the choice with d is left.
fn check_completion(rt: &impl Abort, alloc: Global, engine: &mut Engine) -> Result<(), Fail>
    requires { engine.old.history ≡ [] }
{
    declare_d(alloc, engine)?;
    let expr = Expr::new(Part::Option(OptionId::new(0)))?;
    append(engine, Command::Constraint { expr })?;
    let partial = Partial::of(alloc, Choice::new(0, 0))?;
    match engine.complete(&partial) {
        Ok(choice) => {
            assert_eq!(rt; choice.count(), 1);
            assert!(rt; choice.get(OptionId::new(0)));
        }
        Err(_) => return Err(Fail::from("refused")),
    }
    Ok(())
}

#[test]
fn a_choice_is_completed(rt: HostRuntime) -> Result<(), Fail> {
    let mut engine = Engine::new(rt.alloc())?;
    let checked = check_completion(&rt, rt.alloc(), &mut engine);
    close(engine);
    checked
}
