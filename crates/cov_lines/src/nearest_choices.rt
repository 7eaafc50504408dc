// The valid choices nearest to others, by one analysis that is kept.
ghost use Rattle.std.specs.Prelude.{◌≡◌, [], Some, true, length, IfOk, OnOk};
ghost use Rattle.cov_analyse.specs.Bounding.{distance};
ghost use Rattle.cov_edit.specs.History.{constraints_of, option_count, options_of};
ghost use Rattle.cov_rules.specs.Installing.{expressions};
ghost use Rattle.cov_lines.specs.Analysing.{IsKeptOf};
ghost use Rattle.cov_lines.specs.Step.{nearest_in};
ghost use Rattle.cov_script.specs.Replies.{nearest_reply};

use crate::analysing::{analysis_of, close_analysis};
use cov_analyse::Analysis;
use cov_base::{Choice, List, Memory, Text};
use cov_engine::Engine;
use cov_expr::Expr;
use cov_rules::Rules;
use cov_script::reply_nearest;
use std::alloc::Global;
use std::marker::Model;

/// An analysis, with the constraints that it is of and how many options there are.
#[derive(Drop)]
struct KeptAnalysis {
    constraints: List<Expr>,
    count: u8,
    analysis: Analysis,
}

impl Model for KeptAnalysis {
    ghost use Rattle.std.specs.Prelude.{◌≡◌};
    ghost use Rattle.std.specs.Coded.{codes, coded_ℕ};
    ghost use Rattle.cov_analyse.specs.Analysing.{IsAnalysisOf};
    ghost use Rattle.cov_dd.specs.contracts.triple.Triple as triples;
    ghost use Rattle.cov_expr.specs.Formula.{formula_code};
    ghost use Rattle.cov_lines.specs.Analysing.{KeptValue};

    ghost Value = { KeptValue };

    ghost coded = { Prim.hlevel (codes, formula_code coded_ℕ, triples.the_row.coded) };

    ghost view = { λ k. record {
      constraints = k.constraints;
      count = k.count;
      analysis = k.analysis;
    } };

    ghost invariant = { λ k. IsAnalysisOf k.constraints k.analysis
        × (k.analysis.count ≡ k.count) };
}

/// The analysis of the last constraints for which one was wanted.
#[derive(Drop)]
pub(crate) struct NearestChoices {
    kept: Option<KeptAnalysis>,
}

impl NearestChoices {
    /// None is kept.
    pub(crate) fn new() -> NearestChoices {
        NearestChoices { kept: None }
    }

    /// The reply that tells the valid choice nearest to one. It makes an analysis only where another constraint or option stands since
    /// the last one, and else takes time in what `Analysis::nearest` does and in the constraints.
    pub(crate) fn tell(
        &mut self,
        alloc: Global,
        engine: &Engine,
        choice: Choice,
    ) -> Result<Text, Memory>
        requires { length choice ≡ option_count engine.now.history }
        ensures { IfOk result (λ text. text ≡ nearest_reply
            (distance choice (nearest_in engine.now.history choice))
            (options_of engine.now.history) (nearest_in engine.now.history choice)) }
    {
        self.bring(alloc, engine)?;
        match &self.kept {
            Some(kept) => tell_nearest(alloc, engine, kept, choice),
            None => unreachable!(),
        }
    }

    // Has the analysis of the constraints that stand.
    fn bring(&mut self, alloc: Global, engine: &Engine) -> Result<(), Memory>
        ensures { OnOk result (IsKeptOf (constraints_of engine.now.history)
            (option_count engine.now.history) self.new.kept) }
    {
        if is_kept_of(&self.kept, engine) {
            return Ok(());
        }
        self.keep(None);
        let kept = kept_of(alloc, engine)?;
        self.keep(Some(kept));
        Ok(())
    }

    // Keeps another analysis, or none, and drops the one before, in the one place where that is done.
    fn keep(&mut self, kept: Option<KeptAnalysis>)
        ensures { self.new.kept ≡ kept }
    {
        self.kept = kept;
    }
}

fn tell_nearest(
    alloc: Global,
    engine: &Engine,
    kept: &KeptAnalysis,
    choice: Choice,
) -> Result<Text, Memory>
    requires choice { length choice ≡ option_count engine.now.history }
    requires kept { IsKeptOf (constraints_of engine.now.history)
        (option_count engine.now.history) (Some kept.now) }
    ensures { IfOk result (λ text. text ≡ nearest_reply
        (distance choice (nearest_in engine.now.history choice))
        (options_of engine.now.history) (nearest_in engine.now.history choice)) }
{
    let found = kept.analysis.nearest(choice)?;
    reply_nearest(alloc, found.changed, engine.options(), found.choice)
}

// Whether what is kept, if anything is, is the analysis of the constraints that stand.
fn is_kept_of(kept: &Option<KeptAnalysis>, engine: &Engine) -> bool
    ensures { result ≡ true → IsKeptOf (constraints_of engine.now.history)
        (option_count engine.now.history) kept.now }
{
    match kept {
        Some(kept) => is_of(kept, engine),
        None => false,
    }
}

fn is_of(kept: &KeptAnalysis, engine: &Engine) -> bool
    ensures { result ≡ true → IsKeptOf (constraints_of engine.now.history)
        (option_count engine.now.history) (Some kept.now) }
{
    kept.count == engine.options().count()
        && are_constraints(kept.constraints.as_slice(), engine.rules())
}

// Whether expressions are the constraints that stand, in order and as they are written.
fn are_constraints(exprs: &[Expr], rules: &Rules) -> bool
    ensures { result ≡ true → exprs.now ≡ expressions rules.now.standing.constraints }
{
    let count = rules.constraints();
    if exprs.len() != count as usize {
        return false;
    }
    let mut rule = 0;
    while rule < count {
        rule += 1;
        if !exprs[rule as usize - 1].is_same(rules.constraint(rule)) {
            return false;
        }
    }
    true
}

fn kept_of(alloc: Global, engine: &Engine) -> Result<KeptAnalysis, Memory>
    ensures { IfOk result (λ kept. IsKeptOf (constraints_of engine.now.history)
        (option_count engine.now.history) (Some kept)) }
{
    let analysis = analysis_of(alloc, engine)?;
    let count = engine.options().count();
    match copied(alloc, engine.rules()) {
        Ok(constraints) => Ok(KeptAnalysis {
            constraints,
            count,
            analysis,
        }),
        Err(memory) => {
            close_analysis(analysis);
            Err(memory)
        }
    }
}

// The constraints that stand, in memory of their own.
fn copied(alloc: Global, rules: &Rules) -> Result<List<Expr>, Memory>
    ensures { IfOk result (λ exprs. exprs ≡ expressions rules.now.standing.constraints) }
{
    let mut exprs = List::new(alloc);
    match copy_all(alloc, rules, &mut exprs) {
        Ok(()) => Ok(exprs),
        Err(memory) => Err(memory),
    }
}

fn copy_all(alloc: Global, rules: &Rules, exprs: &mut List<Expr>) -> Result<(), Memory>
    requires { exprs.old ≡ [] }
    ensures { OnOk result (exprs.new ≡ expressions rules.now.standing.constraints) }
{
    let count = rules.constraints();
    let mut rule = 0;
    while rule < count {
        rule += 1;
        exprs.push(rules.constraint(rule).copy(alloc)?)?;
    }
    Ok(())
}
