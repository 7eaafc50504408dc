// Rules that are made ready.
ghost use Rattle.std.specs.Prelude.{◌≡◌, Some, Err, true, is_some, IfOk, IfErr, OnOk};
ghost use Rattle.cov_dd.specs.Diagrams.{Extends};
ghost use Rattle.cov_rules.specs.Installing.{Holds, IsPlan};
ghost use Rattle.cov_rules.specs.Refusals.{IsAccepted};
ghost use Rattle.cov_rules.specs.declared.rules.Rule.{Rule as AnyRule};
ghost use Rattle.cov_edit.specs.declared.command.Command.{Command as AnyCommand};
ghost use Rattle.cov_engine.specs.Ruling.{rule_in, rule_refusal, IsRefusalOf, IsRuleReady};

use crate::Refusal;
use crate::addition::Addition;
use cov_base::Memory;
use cov_dd::Table;
use cov_edit::Command;
use cov_rules::{Rule, RuleFault, RulePlan, Rules};
use std::alloc::Global;

/// Makes a command's rule ready beside those that stand, unless they refuse it or as many of its kind stand as the limit allows.
pub(crate) fn rule_ready(
    alloc: Global,
    rules: &mut Rules,
    table: &mut Table,
    command: &Command,
    limit: u16,
) -> Result<Addition, Refusal>
    requires holds { Holds table.old rules.old.standing }
    requires rule { is_some (rule_in command.now) ≡ true }
    ensures extends { Extends table.old table.new }
    ensures same { rules.new.standing ≡ rules.old.standing }
    ensures ready { IfOk result (IsRuleReady command.now table.new rules.new) }
    ensures accepted { OnOk result ((rule : AnyRule) → rule_in command.now ≡ Some rule →
        IsAccepted limit rules.old.standing rule) }
    ensures refused { IfErr result (λ refusal. (rule : AnyRule) → rule_in command.now ≡ Some rule →
        IsRefusalOf limit rules.old.standing rule refusal) }
{
    match copied_rule(alloc, command) {
        Ok(rule) => planned(rules, table, rule, limit),
        Err(_) => Err(Refusal::Memory),
    }
}

// The rule that a command is, in memory of its own.
fn copied_rule(alloc: Global, command: &Command) -> Result<Rule, Memory>
    requires { is_some (rule_in command.now) ≡ true }
    ensures { IfOk result (λ rule. rule_in command.now ≡ Some rule) }
{
    match command {
        Command::Constraint { expr } => Ok(Rule::Constraint(expr.copy(alloc)?)),
        Command::Prefer { expr } => Ok(Rule::Prefer(expr.copy(alloc)?)),
        Command::Default { option, on } => Ok(Rule::Default(*option, *on)),
        Command::Option { .. } | Command::Commit { .. } | Command::Upgrade => unreachable!(),
    }
}

// A rule with its plan.
fn planned(
    rules: &mut Rules,
    table: &mut Table,
    rule: Rule,
    limit: u16,
) -> Result<Addition, Refusal>
    requires holds { Holds table.old rules.old.standing }
    ensures extends { Extends table.old table.new }
    ensures same { rules.new.standing ≡ rules.old.standing }
    ensures ready { (command : AnyCommand) → rule_in command ≡ Some rule →
        IfOk result (IsRuleReady command table.new rules.new) }
    ensures accepted { OnOk result (IsAccepted limit rules.old.standing rule) }
    ensures refused { IfErr result (IsRefusalOf limit rules.old.standing rule) }
{
    match plan(rules, table, &rule, limit) {
        Ok(plan) => Ok(Addition::Rule { rule, plan }),
        Err(refusal) => given_up(rule, refusal),
    }
}

// Drops a rule that is refused, so that it is dropped in one place, and answers why.
fn given_up(_: Rule, refusal: Refusal) -> Result<Addition, Refusal>
    ensures { result ≡ Err refusal }
{
    Err(refusal)
}

fn plan(rules: &mut Rules, table: &mut Table, rule: &Rule, limit: u16) -> Result<RulePlan, Refusal>
    requires holds { Holds table.old rules.old.standing }
    ensures extends { Extends table.old table.new }
    ensures same { rules.new.standing ≡ rules.old.standing }
    ensures planned { IfOk result (IsPlan table.new rules.new rule.now) }
    ensures accepted { OnOk result (IsAccepted limit rules.old.standing rule.now) }
    ensures refused { IfErr result (IsRefusalOf limit rules.old.standing rule.now) }
{
    match rules.prepare(table, rule, limit) {
        Ok(plan) => Ok(plan),
        Err(fault) => Err(rule_refusal(fault)),
    }
}

fn rule_refusal(fault: RuleFault) -> Refusal
    ensures { result ≡ rule_refusal fault }
{
    match fault {
        RuleFault::Memory => Refusal::Memory,
        RuleFault::Full => Refusal::Full,
        RuleFault::NoVariantLeft => Refusal::NoVariantLeft,
    }
}
