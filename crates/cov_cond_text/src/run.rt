// Lines of text that have the same conditions.
ghost use Rattle.std.specs.Prelude.{◌≡◌, ◌<◌, ◌≤◌, ◌+◌, ◌++◌, ◌∷◌, [], length, OnOk, OnErr};
ghost use Rattle.cov_cond_text.specs.Conditional.{AreRuns};

use crate::conditions::Conditions;
use crate::line_texts::LineTexts;
use cov_base::Memory;
use std::alloc::Global;
use std::marker::Model;

/// Lines without a directive between them, which have the same conditions.
#[derive(Drop)]
pub struct Run {
    /// How many directives stand before them.
    pub group: u32,
    pub conditions: Conditions,
    pub texts: LineTexts,
}

/// Runs in order. Each has a line, and stands behind more directives than those before it.
#[derive(Drop)]
pub(crate) struct Runs {
    runs: Vec<Run>,
    /// The next run stands behind so many directives or more.
    next: u64,
}

impl Model for Runs {
    ghost use Rattle.std.specs.Prelude.{◌<◌};
    ghost use Rattle.std.specs.List.{AllByRecursion};
    ghost use Rattle.std.specs.Coded.{codes, coded_ℕ};
    ghost use Rattle.cov_expr.specs.Formula.{formula_code};
    ghost use Rattle.cov_cond_text.specs.Conditional.{AreRuns};
    ghost use Rattle.cov_cond_text.specs.RunLists.{RunList};

    ghost Value = { RunList };

    ghost coded = { Prim.hlevel (codes, formula_code coded_ℕ) };

    ghost view = { λ r. record { runs = r.runs.items; next = r.next } };

    ghost invariant = { λ r. AreRuns r.runs.items ×
        AllByRecursion (λ run. run.group < r.next) r.runs.items };
}

impl Runs {
    pub(crate) fn new(alloc: Global) -> Runs
        ensures runs { result.runs ≡ [] }
        ensures next { result.next ≡ 0 }
    {
        Runs {
            runs: Vec::new(alloc),
            next: 0,
        }
    }

    /// Puts a run behind the others.
    pub(crate) fn push(&mut self, run: Run) -> Result<(), Memory>
        requires some { 0 < length run.texts }
        requires behind { self.old.next ≤ run.group }
        ensures runs { OnOk result (self.new.runs ≡ self.old.runs ++ run ∷ []) }
        ensures next { OnOk result (self.new.next ≡ run.group + 1) }
        ensures err { OnErr result (self.new ≡ self.old) }
    {
        let next = u64::from(run.group) + 1;
        self.runs.push(run)?;
        self.next = next;
        Ok(())
    }

    pub(crate) fn as_slice(&self) -> &[Run]
        ensures runs { result.now ≡ self.now.runs }
        ensures are { AreRuns self.now.runs }
    {
        self.runs.as_slice()
    }
}
