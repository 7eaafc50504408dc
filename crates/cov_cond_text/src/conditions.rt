// The conditions of lines, and their conjunction.
ghost use Rattle.std.specs.Prelude.{◌≡◌, ◌≤◌, ◌==◌, length, IfOk};
ghost use Rattle.cov_base.specs.declared.limits.TheConstants.{MOST_PARTS};
ghost use Rattle.cov_expr.specs.Formula.{True, And, part_count};
ghost use Rattle.cov_cond_text.specs.Conjunction.{joined, conjunction};

use cov_base::{List, Memory};
use cov_expr::{Expr, Part, TooManyParts};
use std::alloc::Global;
use std::marker::Model;

/// Conditions, from outside inwards, whose conjunction has at most `MOST_PARTS` parts. Contracts see it as the list of them.
#[derive(Drop)]
pub struct Conditions {
    items: List<Expr>,
}

impl Model for Conditions {
    ghost use Rattle.std.specs.Prelude.{ℕ, ◌≤◌, List};
    ghost use Rattle.std.specs.Coded.{codes, coded_ℕ};
    ghost use Rattle.cov_base.specs.declared.limits.TheConstants.{MOST_PARTS};
    ghost use Rattle.cov_expr.specs.Formula.{Formula, formula_code, part_count};
    ghost use Rattle.cov_cond_text.specs.Conjunction.{conjunction};

    ghost Value = { List (Formula ℕ) };

    ghost coded = { Prim.hlevel (codes, formula_code coded_ℕ) };

    ghost view = { λ c. c.items };

    ghost invariant = { λ c. part_count (conjunction c.items) ≤ MOST_PARTS };
}

impl Conditions {
    pub(crate) fn new(items: List<Expr>) -> Conditions
        requires { part_count (conjunction items) ≤ MOST_PARTS }
        ensures { result ≡ items }
    {
        Conditions { items }
    }

    pub fn is_empty(&self) -> bool
        ensures { result ≡ (length self.now == 0) }
    {
        self.items.is_empty()
    }

    /// The conditions in order.
    pub fn as_slice(&self) -> &[Expr]
        ensures { result.now ≡ self.now }
    {
        self.items.as_slice()
    }

    /// Their conjunction, grouped to the left; `True` where there are none. It takes time in their parts.
    pub fn conjunction(&self, alloc: Global) -> Result<Expr, Memory>
        ensures { IfOk result (λ expr. expr ≡ conjunction self.now) }
    {
        conjunction(alloc, self.items.as_slice())
    }
}

fn conjunction(alloc: Global, conditions: &[Expr]) -> Result<Expr, Memory>
    requires { part_count (conjunction conditions.now) ≤ MOST_PARTS }
    ensures { IfOk result (λ expr. expr ≡ conjunction conditions.now) }
{
    match conditions {
        [first, rest @ ..] => joined(alloc, first.copy(alloc)?, rest),
        [] => Ok(everywhere()),
    }
}

// The expression that is true on each choice.
fn everywhere() -> Expr
    ensures { result ≡ True }
{
    match Expr::new(Part::True) {
        Ok(expr) => expr,
        Err(TooManyParts) => unreachable!(),
    }
}

// An expression and more of them, joined to the left.
fn joined(alloc: Global, first: Expr, more: &[Expr]) -> Result<Expr, Memory>
    requires { part_count (joined first more.now) ≤ MOST_PARTS }
    ensures { IfOk result (λ expr. expr ≡ joined first more.now) }
{
    let mut all = first;
    let mut ahead = more;
    while let [next, rest @ ..] = ahead {
        all = both(alloc, all, next.copy(alloc)?)?;
        ahead = rest;
    }
    Ok(all)
}

// The expression that is true where both are.
fn both(alloc: Global, left: Expr, right: Expr) -> Result<Expr, Memory>
    requires { part_count (And left right) ≤ MOST_PARTS }
    ensures { IfOk result (λ expr. expr ≡ And left right) }
{
    let left = Box::new(alloc, left.into_part())?;
    let right = Box::new(alloc, right.into_part())?;
    match Expr::new(Part::And(left, right)) {
        Ok(expr) => Ok(expr),
        Err(TooManyParts) => unreachable!(),
    }
}
