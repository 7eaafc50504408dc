// Rules in the order in which they were installed.
ghost use Rattle.std.specs.Prelude.{◌≡◌, ◌<◌, ◌≤◌, ◌+◌, ◌-◌, ◌++◌, ◌∷◌, ℕ, List, [], Bool, ◌&&◌, max, true, false, nat_lt, length, slice_get, None, Some, IfOk, IfErr, IfSome, OnOk, OnErr};
ghost use Rattle.std.specs.List.{list_all};
ghost use Rattle.cov_base.specs.declared.limits.TheConstants.{CHOICE_WIDTH};
ghost use Rattle.cov_expr.specs.Formula.{reach, value};
ghost use Rattle.cov_expr.specs.Validity.{is_valid, first_false};
ghost use Rattle.cov_dd.specs.declared.triple.Triple.{Triple};
ghost use Rattle.cov_dd.specs.Diagrams.{diagram_size, span, value_in, Extends, Stands};
ghost use Rattle.cov_rules.specs.Installing.{expressions, expressions_at, reach_of, count_of, with_default, with_rule, IsNodeOf, Holds, Plans, IsPlan};
ghost use Rattle.cov_rules.specs.Completion.{Complete, completed, AreBelow, IsRefusalBy};
ghost use Rattle.cov_rules.specs.Lefts.{unmet_answer, IsSound, IsWhole, Narrows};
ghost use Rattle.cov_rules.specs.Refusals.{reach_of_rule, IsAccepted, IsRuleFaultOf};
ghost use Rattle.cov_rules.specs.Growth.{Follows};
ghost use Rattle.cov_rules.specs.declared.rules.RuleFault.TheVariants.{NoVariantLeft as no_variant_left, Memory as want_of_memory};
ghost use Rattle.cov_rules.specs.declared.rules.Rule.TheVariants.{Constraint as a_constraint, Prefer as a_preference, Default as a_default};

mod renumbering;

use crate::completing::CompleteFault;
use crate::lefts::Left;
use cov_base::{Choice, Memory, OptionId, Position, Steps, Uncounted};
use cov_dd::{Node, TRUE, Table};
use cov_expr::{Expr, Partial};
use cov_vis::compile;
use std::alloc::Global;
use std::marker::Model;

/// The greatest limit that can be handed in, so that no more rules of a kind ever stand. How many may stand is the limit's to say.
pub const MOST_RULES: usize = 65535;

/// A rule by which choices are judged or completed.
#[derive(Debug, Drop)]
pub enum Rule {
    /// A choice is valid only where the expression is true.
    Constraint(Expr),
    /// A choice is completed by those on which the expression is true, where there are any.
    Prefer(Expr),
    /// The same, for an option and its value.
    Default(OptionId, bool),
}

/// Why a rule isn't taken.
#[derive(Clone, Copy, Debug, PartialEq, Eq)]
pub enum RuleFault {
    Memory,
    /// As many rules of the kind stand as there may be.
    Full,
    /// No choice would meet all constraints.
    NoVariantLeft,
}

/// The number, from 1, of the first constraint that is false on a choice.
#[derive(Clone, Copy, Debug, PartialEq, Eq)]
pub struct Invalid {
    pub rule: u32,
}

/// What `install` needs of a rule: the node of its expression, which is TRUE for a default since none is kept, and for a
/// constraint the node of all constraints with it.
#[derive(Clone, Copy, Debug)]
pub struct RulePlan {
    node: Node,
    conjunction: Node,
}

/// A rule with its node, and the number of the command that it came by.
#[derive(Debug, Drop)]
pub(crate) struct Installed {
    pub(crate) expr: Expr,
    pub(crate) node: Node,
    at: Position,
}

/// A default.
#[derive(Clone, Copy, Debug)]
pub(crate) struct Fallback {
    pub(crate) option: OptionId,
    pub(crate) on: bool,
}

/// The rules in the order in which they were installed. The nodes are those of one table, which the caller lends.
#[derive(Debug, Drop)]
pub struct Rules {
    constraints: Vec<Installed>,
    preferences: Vec<Installed>,
    defaults: Vec<Fallback>,
    conjunction: Node,
}

impl Model for Rules {
    ghost use Rattle.std.specs.Prelude.{◌-◌, ◌≤◌, min, vec_len, vec_capacity};
    ghost use Rattle.std.specs.Coded.{codes, coded_ℕ};
    ghost use Rattle.cov_expr.specs.Formula.{formula_code};
    ghost use Rattle.cov_rules.specs.Installing.{RulesValue};
    ghost use Rattle.cov_rules.specs.declared.rules.TheConstants.{MOST_RULES};

    ghost Value = { RulesValue };

    ghost coded = { Prim.hlevel (codes, formula_code coded_ℕ) };

    ghost view = { λ r. record {
      standing = record {
        constraints = r.constraints.items;
        preferences = r.preferences.items;
        defaults = r.defaults.items;
        conjunction = r.conjunction;
      };
      spare = min (vec_capacity r.constraints - vec_len r.constraints)
          (min (vec_capacity r.preferences - vec_len r.preferences)
          (vec_capacity r.defaults - vec_len r.defaults));
    } };

    ghost invariant = { λ r. (vec_len r.constraints ≤ MOST_RULES) ×
        (vec_len r.preferences ≤ MOST_RULES) × (vec_len r.defaults ≤ MOST_RULES) };
}

impl Rules {
    pub fn new(alloc: Global) -> Rules
        ensures constraints { result.standing.constraints ≡ [] }
        ensures preferences { result.standing.preferences ≡ [] }
        ensures defaults { result.standing.defaults ≡ [] }
        ensures holds { (ts : List Triple) → Holds ts result.standing }
        ensures below { (count : ℕ) → count ≤ CHOICE_WIDTH → AreBelow count result.standing }
    {
        Rules {
            constraints: Vec::new(alloc),
            preferences: Vec::new(alloc),
            defaults: Vec::new(alloc),
            conjunction: TRUE,
        }
    }

    /// Makes room for a rule. It is refused where as many of its kind stand as the limit allows, else a constraint where no choice
    /// meets it and the constraints.
    pub fn prepare(
        &mut self,
        table: &mut Table,
        rule: &Rule,
        limit: u16,
    ) -> Result<RulePlan, RuleFault>
        requires holds { Holds table.old self.old.standing }
        ensures extends { Extends table.old table.new }
        ensures same { self.new.standing ≡ self.old.standing }
        ensures planned { IfOk result (IsPlan table.new self.new rule.now) }
        ensures accepted { IfOk result (λ _. IsAccepted limit self.old.standing rule.now) }
        ensures refused { IfErr result (IsRuleFaultOf limit self.old.standing rule.now) }
    {
        match rule {
            Rule::Constraint(expr) => self.prepare_constraint(table, expr, limit),
            Rule::Prefer(expr) => self.prepare_preference(table, expr, limit),
            Rule::Default(_, _) if self.defaults.len() >= usize::from(limit) => {
                Err(RuleFault::Full)
            }
            Rule::Default(_, _) => self.planned(TRUE),
        }
    }

    fn prepare_constraint(
        &mut self,
        table: &mut Table,
        expr: &Expr,
        limit: u16,
    ) -> Result<RulePlan, RuleFault>
        requires holds { Holds table.old self.old.standing }
        ensures extends { Extends table.old table.new }
        ensures same { self.new.standing ≡ self.old.standing }
        ensures planned { IfOk result (IsPlan table.new self.new (a_constraint expr.now)) }
        ensures accepted { IfOk result (λ _.
            IsAccepted limit self.old.standing (a_constraint expr.now)) }
        ensures refused { IfErr result
            (IsRuleFaultOf limit self.old.standing (a_constraint expr.now)) }
    {
        if self.constraints.len() >= usize::from(limit) {
            return Err(RuleFault::Full);
        }
        let plan = match conjoined(table, self.conjunction, expr) {
            Ok(plan) => plan,
            Err(_) => return Err(RuleFault::Memory),
        };
        match self.reserve() {
            Ok(()) => (),
            Err(_) => return Err(RuleFault::Memory),
        }
        judged(table, plan)
    }

    fn prepare_preference(
        &mut self,
        table: &mut Table,
        expr: &Expr,
        limit: u16,
    ) -> Result<RulePlan, RuleFault>
        ensures extends { Extends table.old table.new }
        ensures same { self.new.standing ≡ self.old.standing }
        ensures planned { IfOk result (IsPlan table.new self.new (a_preference expr.now)) }
        ensures accepted { IfOk result (λ _.
            IsAccepted limit self.old.standing (a_preference expr.now)) }
        ensures refused { IfErr result
            (IsRuleFaultOf limit self.old.standing (a_preference expr.now)) }
    {
        if self.preferences.len() >= usize::from(limit) {
            return Err(RuleFault::Full);
        }
        let node = match compile(table, expr) {
            Ok(node) => node,
            Err(_) => return Err(RuleFault::Memory),
        };
        self.planned(node)
    }

    // The plan of a rule that leaves the constraints as they are.
    fn planned(&mut self, node: Node) -> Result<RulePlan, RuleFault>
        ensures same { self.new.standing ≡ self.old.standing }
        ensures node { IfOk result (λ plan. plan.node ≡ node) }
        ensures room { OnOk result (0 < self.new.spare) }
        ensures err { IfErr result (λ fault. fault ≡ want_of_memory) }
    {
        let conjunction = self.conjunction;
        match self.reserve() {
            Ok(()) => Ok(RulePlan { node, conjunction }),
            Err(_) => Err(RuleFault::Memory),
        }
    }

    // Makes room for one rule more of each kind.
    fn reserve(&mut self) -> Result<(), Memory>
        ensures same { self.new.standing ≡ self.old.standing }
        ensures room { OnOk result (0 < self.new.spare) }
    {
        self.constraints.reserve(1)?;
        self.preferences.reserve(1)?;
        self.defaults.reserve(1)?;
        Ok(())
    }

    /// Takes a rule by its plan, on the condition that no other rule was installed since the plan was made. The answer
    /// is the rule's number within its kind, from 1. It takes no memory.
    pub fn install(&mut self, plan: RulePlan, rule: Rule, at: Position) -> u32
        requires few { count_of rule self.old.standing < MOST_RULES }
        requires room { 0 < self.old.spare }
        ensures number { result ≡ count_of rule self.old.standing + 1 }
        ensures with_rule { self.new.standing ≡ with_rule plan rule at self.old.standing }
        ensures spare { self.old.spare ≤ self.new.spare + 1 }
        ensures holds { (ts : List Triple) → Holds ts self.old.standing →
            Plans ts self.old.standing rule plan → Holds ts self.new.standing }
        ensures follows { Follows rule at self.old.standing self.new.standing }
        ensures below { (count : ℕ) → AreBelow count self.old.standing →
            reach_of_rule rule ≤ count → AreBelow count self.new.standing }
    {
        match rule {
            Rule::Constraint(expr) => self.install_constraint(plan, expr, at),
            Rule::Prefer(expr) => self.install_preference(plan, expr, at),
            Rule::Default(option, on) => self.install_default(option, on),
        }
    }

    fn install_constraint(&mut self, plan: RulePlan, expr: Expr, at: Position) -> u32
        requires few { length self.old.standing.constraints < MOST_RULES }
        requires room { 0 < self.old.spare }
        ensures number { result ≡ length self.old.standing.constraints + 1 }
        ensures with_rule { self.new.standing ≡
            with_rule plan (a_constraint expr) at self.old.standing }
        ensures spare { self.old.spare ≤ self.new.spare + 1 }
    {
        let node = plan.node;
        self.conjunction = plan.conjunction;
        self.constraints.push_reserved(Installed { expr, node, at });
        self.constraints.len() as u32
    }

    fn install_preference(&mut self, plan: RulePlan, expr: Expr, at: Position) -> u32
        requires few { length self.old.standing.preferences < MOST_RULES }
        requires room { 0 < self.old.spare }
        ensures number { result ≡ length self.old.standing.preferences + 1 }
        ensures with_rule { self.new.standing ≡
            with_rule plan (a_preference expr) at self.old.standing }
        ensures spare { self.old.spare ≤ self.new.spare + 1 }
    {
        let node = plan.node;
        self.preferences.push_reserved(Installed { expr, node, at });
        self.preferences.len() as u32
    }

    fn install_default(&mut self, option: OptionId, on: bool) -> u32
        requires few { length self.old.standing.defaults < MOST_RULES }
        requires room { 0 < self.old.spare }
        ensures number { result ≡ length self.old.standing.defaults + 1 }
        ensures with_default { self.new.standing ≡ with_default option on self.old.standing }
        ensures spare { self.old.spare ≤ self.new.spare + 1 }
    {
        self.defaults.push_reserved(Fallback { option, on });
        self.defaults.len() as u32
    }

    /// Completes a partial choice of `count` options: of the valid choices that agree with it each preference in order
    /// keeps those on which it is true, if there are any, then each default. The one choice left is the answer. A valid choice of
    /// all options takes time in the options alone, and makes no node.
    pub fn complete(
        &self,
        table: &mut Table,
        partial: &Partial,
        count: u8,
    ) -> Result<Choice, CompleteFault>
        requires holds { Holds table.old self.now.standing }
        requires below { AreBelow count self.now.standing }
        requires bound { list_all (λ b. nat_lt b.0 count) partial.now ≡ true }
        ensures extends { Extends table.old table.new }
        ensures complete { IfOk result (λ choice.
            completed count self.now.standing partial.now ≡ Complete choice) }
        ensures refused { IfErr result (IsRefusalBy
            (completed count self.now.standing partial.now)) }
    {
        let agreeing = match Left::agreeing(table, partial.bindings(), count) {
            Ok(left) => left,
            Err(_) => return Err(CompleteFault::Memory),
        };
        if let Some(choice) = self.valid_whole(table, &agreeing) {
            return Ok(choice);
        }
        let valid = match agreeing.meet(table, self.conjunction) {
            Ok(left) => left,
            Err(_) => return Err(CompleteFault::Memory),
        };
        if !valid.is_any(table) {
            return Err(self.unmet(table, &agreeing));
        }
        match self.narrowed(table, &valid) {
            Ok(left) => left.only(table),
            Err(_) => Err(CompleteFault::Memory),
        }
    }

    // The only choice that is left, where all options are bound and it meets all constraints, which its value tells.
    fn valid_whole(&self, table: &Table, left: &Left) -> Option<Choice>
        requires holds { Holds table.now self.now.standing }
        requires sound { IsSound table.now left.now }
        ensures { IfSome result (IsWhole table.now left.now self.now.standing) }
    {
        match left.whole() {
            Some(choice) if table.value(self.conjunction, choice) => Some(choice),
            _ => None,
        }
    }

    // The refusal of choices that don't meet all constraints.
    fn unmet(&self, table: &mut Table, left: &Left) -> CompleteFault
        requires holds { Holds table.old self.now.standing }
        requires sound { IsSound table.old left.now }
        requires below { AreBelow (length left.now.bound) self.now.standing }
        ensures extends { Extends table.old table.new }
        ensures refused { IsRefusalBy (unmet_answer table.old left.now self.now.standing) result }
    {
        match left.least_unmet(table, self.constraints.as_slice()) {
            Ok(rule) => CompleteFault::Invalid { rule },
            Err(_) => CompleteFault::Memory,
        }
    }

    // The choices that preferences and then defaults leave.
    fn narrowed(&self, table: &mut Table, left: &Left) -> Result<Left, Memory>
        requires holds { Holds table.old self.now.standing }
        requires sound { IsSound table.old left.now }
        requires below { AreBelow (length left.now.bound) self.now.standing }
        ensures extends { Extends table.old table.new }
        ensures narrows { IfOk result (Narrows table.old table.new left.now self.now.standing) }
    {
        let preferred = left.with_preferences(table, self.preferences.as_slice())?;
        preferred.with_defaults(table, self.defaults.as_slice())
    }

    /// The node that is true on exactly the choices that meet all constraints.
    pub fn conjunction(&self) -> Node
        ensures { result ≡ self.now.standing.conjunction }
    {
        self.conjunction
    }

    /// How many constraints stand.
    pub fn constraints(&self) -> u32
        ensures { result ≡ length self.now.standing.constraints }
    {
        self.constraints.len() as u32
    }

    /// The constraint with a number, from 1.
    pub fn constraint(&self, rule: u32) -> &Expr
        requires first { 1 ≤ rule }
        requires last { rule ≤ length self.now.standing.constraints }
        ensures { slice_get (expressions self.now.standing.constraints) (rule - 1) ≡ Some result.now }
    {
        &self.constraints[rule as usize - 1].expr
    }

    /// Names the least of the constraints among the first `at` commands that is false on a choice. It takes no memory.
    pub fn valid(&self, choice: Choice, at: Position) -> Result<(), Invalid>
        requires { reach_of (expressions_at at self.now.standing.constraints) ≤ length choice }
        ensures ok { OnOk result (is_valid (expressions_at at self.now.standing.constraints)
            choice ≡ true) }
        ensures err { IfErr result (λ invalid.
            first_false (expressions_at at self.now.standing.constraints) choice ≡
            Some invalid.rule) }
    {
        match first_broken(self.constraints.as_slice(), choice, at) {
            None => Ok(()),
            Some(rule) => Err(Invalid { rule }),
        }
    }
}

// The plan of a constraint beside those that a node stands for.
fn conjoined(table: &mut Table, all: Node, expr: &Expr) -> Result<RulePlan, Memory>
    requires { all < diagram_size table.old }
    ensures extends { Extends table.old table.new }
    ensures node { IfOk result (λ plan. IsNodeOf table.new plan.node expr.now) }
    ensures conjunction { IfOk result (λ plan.
        Stands table.new plan.conjunction 0
        (max (span table.old all) (reach expr.now))
        (λ c. value_in table.old all c && value expr.now c)) }
{
    let node = compile(table, expr)?;
    let conjunction = table.and(all, node, &mut Steps::<Uncounted>::new())?;
    Ok(RulePlan { node, conjunction })
}

// A plan, unless its conjunction is false on every choice.
fn judged(table: &Table, plan: RulePlan) -> Result<RulePlan, RuleFault>
    requires { plan.conjunction < diagram_size table.now }
    ensures ok { IfOk result (λ same. same ≡ plan) }
    ensures met { OnOk result (((c : List Bool) → length c ≡ CHOICE_WIDTH →
        value_in table.now plan.conjunction c ≡ false) → ⊥) }
    ensures err { IfErr result (λ fault.
        (fault ≡ no_variant_left) ×
        ((c : List Bool) → length c ≡ CHOICE_WIDTH →
        value_in table.now plan.conjunction c ≡ false)) }
{
    if table.is_false(plan.conjunction) {
        return Err(RuleFault::NoVariantLeft);
    }
    Ok(plan)
}

// The number, from 1, of the first constraint among the first `at` commands that is false on a choice.
fn first_broken(constraints: &[Installed], choice: Choice, at: Position) -> Option<u32>
    requires few { length constraints.now ≤ MOST_RULES }
    requires within { reach_of (expressions_at at constraints.now) ≤ length choice }
    ensures { result ≡ first_false (expressions_at at constraints.now) choice }
{
    let mut rule = 1;
    let mut ahead = constraints;
    while let [constraint, rest @ ..] = ahead {
        ahead = rest;
        if at < constraint.at {
            continue;
        }
        if !constraint.expr.value(choice) {
            return Some(rule);
        }
        rule += 1;
    }
    None
}
