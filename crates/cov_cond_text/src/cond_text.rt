// Conditional texts.
ghost use Rattle.std.specs.Prelude.{◌≡◌, ◌≤◌, ◌++◌, length, map, IfOk, OnOk};
ghost use Rattle.std.specs.List.{AllByRecursion};
ghost use Rattle.cov_expr.specs.Formula.{reach};
ghost use Rattle.cov_expr.specs.Validity.{is_valid};
ghost use Rattle.cov_cond_text.specs.Conditional.{line_in, lines_in, projection, HasOptionsBelow};

use crate::run::{Run, Runs};
use cov_base::{Choice, Memory, Text, Texts};
use cov_expr::Expr;
use std::alloc::Global;
use std::marker::Model;

/// Lines of text with the conditions on which they hold. Contracts see it as the list of the lines: of each the conditions of the
/// blocks round it, from outside inwards, its text, and how many directives stand before it.
#[derive(Drop)]
pub struct CondText {
    runs: Runs,
}

impl Model for CondText {
    ghost use Rattle.std.specs.Prelude.{List};
    ghost use Rattle.std.specs.Coded.{codes, coded_ℕ};
    ghost use Rattle.cov_expr.specs.Formula.{formula_code};
    ghost use Rattle.cov_cond_text.specs.Conditional.{CondLine, lines_in};

    ghost Value = { List CondLine };

    ghost coded = { Prim.hlevel (codes, formula_code coded_ℕ) };

    ghost view = { λ t. lines_in t.runs.runs };
}

impl CondText {
    ghost use Rattle.std.specs.Prelude.{◌≡◌, length, IfOk};
    ghost use Rattle.cov_cond_text.specs.Conditional.{lines_in, projection, runs_of, AreRuns, HasOptionsBelow};

    pub(crate) fn new(runs: Runs) -> CondText
        ensures { result ≡ lines_in runs.runs }
    {
        CondText { runs }
    }

    /// Its runs: the lines between two directives that follow one another, where there are any, with the conditions that all have.
    #[tactic(auto, using(crate::proofs::RunLists::runs_are))]
    pub fn runs(&self) -> &[Run]
        ensures runs { result.now ≡ runs_of self.now }
        ensures are { AreRuns result.now }
    {
        self.runs.as_slice()
    }

    /// The texts whose conditions are all true on a choice, in order. It takes time in the conditions and texts.
    pub fn project(&self, alloc: Global, choice: Choice) -> Result<Texts, Memory>
        requires { HasOptionsBelow (length choice) self.now }
        ensures { IfOk result (λ texts. texts ≡ projection self.now choice) }
    {
        project_runs(alloc, self.runs.as_slice(), choice)
    }
}

fn project_runs(alloc: Global, runs: &[Run], choice: Choice) -> Result<Texts, Memory>
    requires { HasOptionsBelow (length choice) (lines_in runs.now) }
    ensures { IfOk result (λ texts. texts ≡ projection (lines_in runs.now) choice) }
{
    let mut texts = Texts::new(alloc);
    let mut ahead = runs;
    while let [run, rest @ ..] = ahead {
        append_run(&mut texts, run, choice)?;
        ahead = rest;
    }
    Ok(texts)
}

// Appends the texts of a run whose conditions are all true.
#[tactic(auto, using(crate::proofs::Projecting::run_shown, crate::proofs::Projecting::run_hidden, crate::proofs::Projecting::run_conditions))]
fn append_run(texts: &mut Texts, run: &Run, choice: Choice) -> Result<(), Memory>
    requires { HasOptionsBelow (length choice) (map (line_in run.now) run.now.texts) }
    ensures { OnOk result (texts.new ≡ texts.old ++ projection (map (line_in run.now) run.now.texts) choice) }
{
    if run.texts.is_empty() {
        return Ok(());
    }
    if all_hold(run.conditions.as_slice(), choice) {
        return append_texts(texts, run.texts.as_slice());
    }
    Ok(())
}

fn append_texts(texts: &mut Texts, more: &[Text]) -> Result<(), Memory>
    ensures { OnOk result (texts.new ≡ texts.old ++ more.now) }
{
    let mut ahead = more;
    while let [text, rest @ ..] = ahead {
        texts.push(text.copy()?)?;
        ahead = rest;
    }
    Ok(())
}

// Whether all conditions are true on a choice.
fn all_hold(conditions: &[Expr], choice: Choice) -> bool
    requires { AllByRecursion (λ e. reach e ≤ length choice) conditions.now }
    ensures { result ≡ is_valid conditions.now choice }
{
    let mut ahead = conditions;
    while let [condition, rest @ ..] = ahead {
        if !condition.value(choice) {
            return false;
        }
        ahead = rest;
    }
    true
}
