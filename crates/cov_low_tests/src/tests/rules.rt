//! Rules: one that is installed, and a completion.
ghost use Rattle.std.specs.Prelude.{List, ◌<◌};
ghost use Rattle.cov_dd.specs.declared.triple.Triple.{Triple};
ghost use Rattle.cov_rules.specs.Installing.{Holds, count_of};
ghost use Rattle.cov_rules.specs.Completion.{AreBelow};
ghost use Rattle.cov_rules.specs.declared.rules.TheConstants.{MOST_RULES};

use cov_base::{Choice, Position};
use cov_dd::Table;
use cov_expr::{Expr, Part, Partial};
use cov_rules::{Rule, Rules};
use std::alloc::Global;
use std::process::Abort;
use std::test::Fail;

// The only choice of no options is completed by no rules.
fn check_completion(
    rt: &impl Abort,
    alloc: Global,
    table: &mut Table,
    rules: &Rules,
) -> Result<(), Fail>
    requires holds { (ts : List Triple) → Holds ts rules.now.standing }
    requires below { AreBelow 0 rules.now.standing }
{
    let partial = Partial::of(alloc, Choice::new(0, 0))?;
    match rules.complete(table, &partial, 0) {
        Ok(choice) => assert_eq!(rt; choice.count(), 0),
        Err(_) => return Err(Fail::from("refused")),
    }
    Ok(())
}

fn check_constraint(table: &mut Table, rules: &mut Rules, rule: Rule) -> Result<u32, Fail>
    requires holds { (ts : List Triple) → Holds ts rules.old.standing }
    requires few { count_of rule rules.old.standing < MOST_RULES }
{
    match rules.prepare(table, &rule, 1) {
        Ok(plan) => Ok(rules.install(plan, rule, Position::new(2))),
        Err(_) => Err(Fail::from("refused")),
    }
}

#[test]
fn no_rules(rt: HostRuntime) -> Result<(), Fail> {
    let mut table = Table::new(rt.alloc())?;
    let rules = Rules::new(rt.alloc());
    let checked = check_completion(&rt, rt.alloc(), &mut table, &rules);
    drop(rules);
    drop(table);
    checked
}

#[test]
fn a_constraint(rt: HostRuntime) -> Result<(), Fail> {
    let expr = Expr::new(Part::True)?;
    let mut table = Table::new(rt.alloc())?;
    let mut rules = Rules::new(rt.alloc());
    let number = check_constraint(&mut table, &mut rules, Rule::Constraint(expr));
    drop(rules);
    drop(table);
    assert_eq!(rt; number?, 1);
    Ok(())
}
