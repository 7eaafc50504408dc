// The choices on which commits are made.
ghost use Rattle.std.specs.Prelude.{◌≡◌, ◌≤◌, map, IfOk};
ghost use Rattle.std.specs.List.{AllByRecursion};
ghost use Rattle.cov_cond.specs.Committing.{choice_count, run_choice};
ghost use Rattle.cov_cond.specs.Importing.{first_choice};
ghost use Rattle.cov_cond_text.specs.Conditional.{conjunction};
ghost use Rattle.cov_dd.specs.Diagrams.{Extends};
ghost use Rattle.cov_edit.specs.History.{option_count};
ghost use Rattle.cov_expr.specs.Formula.{True, reach};

use cov_base::{ByValue, Choice, List, Memory};
use cov_cond_text::Run;
use cov_engine::Engine;
use cov_expr::{Expr, Part, TooManyParts};
use cov_history::laws::legal_leaves_variant;
use std::alloc::Global;

/// Of each run the choice on which it is committed, None where no commit is.
pub(crate) type RunChoices = List<Option<Choice>, ByValue>;

/// The expression that is true on each choice. It takes no memory.
pub(crate) fn everywhere() -> Expr
    ensures { result ≡ True }
{
    match Expr::new(Part::True) {
        Ok(expr) => expr,
        Err(TooManyParts) => unreachable!(),
    }
}

/// The first valid choice.
pub(crate) fn first_choice(engine: &mut Engine) -> Result<Choice, Memory>
    ensures history { engine.new.history ≡ engine.old.history }
    ensures extends { Extends engine.old.table engine.new.table }
    ensures choice { IfOk result (λ choice. choice ≡ first_choice engine.old.history) }
{
    legal_leaves_variant();
    engine.history_is_legal();
    match engine.least_valid(&everywhere())? {
        Some(choice) => Ok(choice),
        None => unreachable!(),
    }
}

/// Of each run the first valid choice that meets its conditions, None where there is none and where it has no conditions.
pub(crate) fn run_choices(
    alloc: Global,
    engine: &mut Engine,
    runs: &[Run],
) -> Result<RunChoices, Memory>
    requires declared { AllByRecursion (λ r. reach (conjunction r.conditions) ≤
        option_count engine.old.history) runs.now }
    ensures history { engine.new.history ≡ engine.old.history }
    ensures extends { Extends engine.old.table engine.new.table }
    ensures choices { IfOk result (λ choices.
        choices ≡ map (run_choice engine.old.history) runs.now) }
{
    let mut choices = RunChoices::new(alloc);
    let mut ahead = runs;
    while let [run, rest @ ..] = ahead {
        let choice = run_choice(alloc, engine, run)?;
        choices.push(choice)?;
        ahead = rest;
    }
    Ok(choices)
}

fn run_choice(alloc: Global, engine: &mut Engine, run: &Run) -> Result<Option<Choice>, Memory>
    requires declared { reach (conjunction run.now.conditions) ≤
        option_count engine.old.history }
    ensures history { engine.new.history ≡ engine.old.history }
    ensures extends { Extends engine.old.table engine.new.table }
    ensures choice { IfOk result (λ choice.
        choice ≡ run_choice engine.old.history run.now) }
{
    if run.conditions.is_empty() {
        return Ok(None);
    }
    let condition = run.conditions.conjunction(alloc)?;
    engine.least_valid(&condition)
}

/// How many choices there are.
pub(crate) fn choice_count(choices: &[Option<Choice>]) -> usize
    ensures { result ≡ choice_count choices.now }
{
    let mut count = 0;
    let mut ahead = choices;
    while let [choice, rest @ ..] = ahead {
        match choice {
            Some(_) => count += 1,
            None => {}
        }
        ahead = rest;
    }
    count
}
