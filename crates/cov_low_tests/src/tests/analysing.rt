//! What rules make of options, the nearest valid choice, and the check of its bounds.
ghost use Rattle.std.specs.Prelude.{List, ◌≡◌, ◌<◌, ◌∷◌, [], length, OnOk};
ghost use Rattle.cov_dd.specs.declared.triple.Triple.{Triple};
ghost use Rattle.cov_expr.specs.Formula.{On};
ghost use Rattle.cov_rules.specs.Installing.{Holds, expressions};
ghost use Rattle.cov_analyse.specs.Analysing.{HasConstraint};

use cov_analyse::{Analysis, Bounds, Nearest, OptionState, RuleState, check};
use cov_base::{Choice, Memory, OptionId, Position};
use cov_dd::Table;
use cov_expr::{Expr, Part};
use cov_rules::{Rule, Rules};
use cov_vis::{Child, Listing, ListingEntry};
use std::alloc::Global;
use std::process::Abort;
use std::test::Fail;

// The listing of a & !b.
fn listing(alloc: Global) -> Result<Listing, Memory> {
    let mut listing = Listing::new(alloc, Child::At(0));
    listing.push(ListingEntry {
        option: OptionId::new(0),
        off: Child::F,
        on: Child::At(1),
    })?;
    listing.push(ListingEntry {
        option: OptionId::new(1),
        off: Child::T,
        on: Child::F,
    })?;
    Ok(listing)
}

// Whether these numbers are bounds from a=off,b=on on.
fn are_bounds(alloc: Global, listing: &Listing, first: u8, second: u8) -> Result<bool, Memory> {
    let mut bounds = Bounds::new(alloc);
    bounds.push(first)?;
    bounds.push(second)?;
    Ok(check(listing, Choice::new(2, 2), &bounds))
}

fn check_bounds(rt: &impl Abort, alloc: Global, listing: &Listing) -> Result<(), Fail> {
    assert!(rt; are_bounds(alloc, listing, 2, 1)?);
    assert!(rt; !are_bounds(alloc, listing, 3, 1)?);
    assert!(rt; !are_bounds(alloc, listing, 2, 2)?);
    assert!(rt; are_bounds(alloc, listing, 1, 1)?);
    assert!(rt; !are_bounds(alloc, listing, 130, 1)?);
    assert!(rt; !check(listing, Choice::new(2, 2), &Bounds::new(alloc)));
    Ok(())
}

#[test]
fn raised_bounds_fail(rt: HostRuntime) -> Result<(), Fail> {
    let listing = listing(rt.alloc())?;
    let checked = check_bounds(&rt, rt.alloc(), &listing);
    drop(listing);
    checked
}

fn check_states(rt: &impl Abort, analysis: &mut Analysis) -> Result<(), Fail>
    requires option { 0 < analysis.old.count }
    requires rule { HasConstraint 1 analysis.old }
{
    assert!(rt; matches!(analysis.option(OptionId::new(0))?, OptionState::Forced));
    assert!(rt; matches!(analysis.constraint(1)?, RuleState::Needed { .. }));
    Ok(())
}

fn check_nearest(rt: &impl Abort, nearest: &Nearest) {
    assert!(rt; nearest.changed == 1);
    assert!(rt; nearest.listing.root() == Child::At(0));
    assert!(rt; check(&nearest.listing, Choice::new(0, 1), &nearest.bounds));
}

// What the constraint a alone makes of the option a.
fn check_analysis(rt: &impl Abort, alloc: Global, rules: &Rules) -> Result<(), Fail>
    requires { expressions rules.now.standing.constraints ≡ On 0 ∷ [] }
{
    let mut analysis = Analysis::of(alloc, rules, 1)?;
    let nearest = analysis.nearest(Choice::new(0, 1));
    let states = check_states(rt, &mut analysis);
    drop(analysis);
    states?;
    let nearest = nearest?;
    check_nearest(rt, &nearest);
    drop(nearest);
    Ok(())
}

fn constrain(table: &mut Table, rules: &mut Rules, expr: Expr) -> Result<(), Fail>
    requires holds { (ts : List Triple) → Holds ts rules.old.standing }
    requires none { rules.old.standing.constraints ≡ [] }
    ensures { OnOk result (expressions rules.new.standing.constraints ≡ expr ∷ []) }
{
    let rule = Rule::Constraint(expr);
    match rules.prepare(table, &rule, 1) {
        Ok(plan) => {
            rules.install(plan, rule, Position::new(2));
            Ok(())
        }
        Err(_) => Err(Fail::from("refused")),
    }
}

fn check_constrained(
    rt: &impl Abort,
    alloc: Global,
    table: &mut Table,
    rules: &mut Rules,
) -> Result<(), Fail>
    requires holds { (ts : List Triple) → Holds ts rules.old.standing }
    requires none { rules.old.standing.constraints ≡ [] }
{
    let expr = Expr::new(Part::Option(OptionId::new(0)))?;
    constrain(table, rules, expr)?;
    check_analysis(rt, alloc, rules)
}

#[test]
fn a_forced_option(rt: HostRuntime) -> Result<(), Fail> {
    let mut table = Table::new(rt.alloc())?;
    let mut rules = Rules::new(rt.alloc());
    let checked = check_constrained(&rt, rt.alloc(), &mut table, &mut rules);
    drop(rules);
    drop(table);
    checked
}
