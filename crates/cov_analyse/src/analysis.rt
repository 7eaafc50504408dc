// The analysis of rules.
ghost use Rattle.std.specs.Prelude.{◌≡◌, ◌<◌, ◌≤◌, ◌-◌, ℕ, suc, List, Bool, [], true, ◌&&◌, not, max, length, reverse, find, slice_get, Some, IfOk, OnOk};
ghost use Rattle.cov_base.specs.Choices.{all_choices, is_on};
ghost use Rattle.cov_base.specs.declared.limits.TheConstants.{CHOICE_WIDTH};
ghost use Rattle.cov_expr.specs.Formula.{Formula, reach, value};
ghost use Rattle.cov_expr.specs.Validity.{is_valid};
ghost use Rattle.cov_dd.specs.Diagrams.{diagram_size, span, value_in, Extends, Stands};
ghost use Rattle.cov_rules.specs.Installing.{expressions, reach_of};
ghost use Rattle.cov_vis.specs.Listings.{has_options_below, is_reduced, reads};
ghost use Rattle.cov_analyse.specs.Analysing.{HasConstraint, HasParts, HasValid, IsAnalysis, IsAnalysisOf};
ghost use Rattle.cov_analyse.specs.Bounding.{bound_of, distance, is_checked};
ghost use Rattle.cov_analyse.specs.Nearest.{nearest};
ghost use Rattle.cov_analyse.specs.Orders.{IsOrder};
ghost use Rattle.cov_analyse.specs.States.{breaks_only, need_by, option_state, rule_state, state_by};

use crate::ordering::{order_constraints, place_of, reversed};
use crate::walking::{Nearest, nearest_in};
use cov_base::{Choice, Memory, Numbers, OptionId, Steps, Uncounted};
use cov_dd::{Node, TRUE, Table};
use cov_expr::Expr;
use cov_rules::Rules;
use cov_vis::{compile, list};
use std::alloc::Global;
use std::marker::Model;

/// What the constraints make of an option.
#[derive(Clone, Copy, Debug)]
pub enum OptionState {
    /// No valid choice has it on.
    Dead,
    /// No valid choice has it off.
    Forced,
    /// The first valid choice with it off, and the first with it on.
    Free { off: Choice, on: Choice },
}

/// What a constraint adds to the others.
#[derive(Clone, Copy, Debug)]
pub enum RuleState {
    /// Each choice that meets all others meets it.
    Redundant,
    /// The first choice that meets all others and not it.
    Needed { choice: Choice },
}

/// The constraints of rules, conjoined in a table of its own in an order: the first of them by how many they are, and the last.
#[derive(Drop)]
pub struct Analysis {
    table: Table,
    order: Numbers,
    before: Numbers,
    behind: Numbers,
    count: u8,
}

impl Model for Analysis {
    ghost use Rattle.cov_analyse.specs.Analysing.{AnalysisValue};

    ghost Value = { AnalysisValue };

    ghost view = { λ a. record { table = a.table; order = a.order; before = a.before; behind = a.behind; count = a.count } };
}

impl Analysis {
    /// Conjoins the constraints, each twice. All have options below `count`, and some choice of so many options meets them.
    pub fn of(alloc: Global, rules: &Rules, count: u8) -> Result<Analysis, Memory>
        requires count { count ≤ CHOICE_WIDTH }
        requires below { reach_of (expressions rules.now.standing.constraints) ≤ count }
        requires met { HasValid count (expressions rules.now.standing.constraints) }
        ensures analysis { IfOk result (IsAnalysisOf (expressions rules.now.standing.constraints)) }
        ensures count { IfOk result (λ analysis. analysis.count ≡ count) }
    {
        let table = Table::new(alloc)?;
        let analysis = Analysis {
            table,
            order: Numbers::new(alloc),
            before: Numbers::new(alloc),
            behind: Numbers::new(alloc),
            count,
        };
        analysis.conjoined(rules)
    }

    fn conjoined(self, rules: &Rules) -> Result<Analysis, Memory>
        requires order { self.order ≡ [] }
        requires before { self.before ≡ [] }
        requires behind { self.behind ≡ [] }
        requires count { self.count ≤ CHOICE_WIDTH }
        requires below { reach_of (expressions rules.now.standing.constraints) ≤ self.count }
        requires met { HasValid self.count (expressions rules.now.standing.constraints) }
        ensures analysis { IfOk result (IsAnalysisOf (expressions rules.now.standing.constraints)) }
        ensures count { IfOk result (λ analysis. analysis.count ≡ self.count) }
    {
        let mut analysis = self;
        match conjoin_both(
            &mut analysis.table,
            &mut analysis.order,
            &mut analysis.before,
            &mut analysis.behind,
            rules,
        ) {
            Ok(()) => Ok(analysis),
            Err(memory) => Err(memory),
        }
    }

    /// Whether an option is dead or forced, or else the first valid choice with it off and the first with it on.
    pub fn option(&mut self, option: OptionId) -> Result<OptionState, Memory>
        requires analysis { IsAnalysis self.old }
        requires option { option < self.old.count }
        ensures state { IfOk result (λ state. (es : List (Formula ℕ)) → IsAnalysisOf es self.old →
            state ≡ option_state self.old.count es option) }
        ensures kept { (es : List (Formula ℕ)) → IsAnalysisOf es self.old →
            IsAnalysisOf es self.new }
        ensures count { self.new.count ≡ self.old.count }
    {
        let all = self.all();
        let (off, on) = sides_of(&mut self.table, all, option, self.count)?;
        Ok(option_state(off, on))
    }

    /// Whether the other constraints imply one, by its number from 1, or else the first choice that meets them and not it.
    pub fn constraint(&mut self, rule: u32) -> Result<RuleState, Memory>
        requires { HasConstraint rule self.old }
        ensures state { IfOk result (λ state. (es : List (Formula ℕ)) → IsAnalysisOf es self.old →
            state ≡ rule_state self.old.count es rule) }
        ensures kept { (es : List (Formula ℕ)) → IsAnalysisOf es self.old →
            IsAnalysisOf es self.new }
        ensures count { self.new.count ≡ self.old.count }
    {
        let all = self.all();
        let place = place_of(&self.order, rule);
        let before = self.first(place);
        let behind = self.last(place);
        let broken = broken_alone(&mut self.table, before, behind, all)?;
        Ok(rule_state(self.table.least(broken, self.count)))
    }

    /// The first of the valid choices that differ from one on the fewest options, with the reduced listing of all valid choices and
    /// lower bounds of what each differs on, in time linear in that listing.
    pub fn nearest(&self, choice: Choice) -> Result<Nearest, Memory>
        requires analysis { IsAnalysis self.now }
        requires count { length choice ≡ self.now.count }
        ensures nearest { IfOk result (λ found. (es : List (Formula ℕ)) → IsAnalysisOf es self.now →
            nearest self.now.count es choice ≡ Some found.choice) }
        ensures changed { IfOk result (λ found. found.changed ≡ distance choice found.choice) }
        ensures root { IfOk result (λ found.
            found.changed ≡ bound_of found.bounds found.listing.root) }
        ensures reduced { IfOk result (λ found. is_reduced found.listing ≡ true) }
        ensures options { IfOk result (λ found.
            has_options_below self.now.count found.listing ≡ true) }
        ensures reads { IfOk result (λ found. (es : List (Formula ℕ)) → IsAnalysisOf es self.now →
            (c : List Bool) → reads found.listing c ≡ is_valid es c) }
        ensures checked { IfOk result (λ found.
            is_checked found.listing choice found.bounds ≡ true) }
    {
        let listing = list(&self.table, self.all())?;
        nearest_in(listing, choice)
    }

    // The node of all constraints.
    fn all(&self) -> Node
        requires { IsAnalysis self.now }
        ensures { slice_get self.now.before (length self.now.before - 1) ≡ Some result }
    {
        match self.before.get(self.before.len() - 1) {
            Some(node) => node,
            None => unreachable!(),
        }
    }

    // The node of the constraints before a place of the order.
    fn first(&self, place: usize) -> Node
        requires { place < length self.now.before }
        ensures { slice_get self.now.before place ≡ Some result }
    {
        match self.before.get(place) {
            Some(node) => node,
            None => unreachable!(),
        }
    }

    // The node of the constraints behind a place of the order.
    fn last(&self, place: usize) -> Node
        requires analysis { IsAnalysis self.now }
        requires place { suc place < length self.now.before }
        ensures { slice_get self.now.behind (length self.now.behind - 2 - place) ≡ Some result }
    {
        match self.behind.get(self.behind.len() - 2 - place) {
            Some(node) => node,
            None => unreachable!(),
        }
    }
}

fn option_state(off: Option<Choice>, on: Option<Choice>) -> OptionState
    ensures { result ≡ state_by off on }
{
    let Some(on) = on else {
        return OptionState::Dead;
    };
    match off {
        None => OptionState::Forced,
        Some(off) => OptionState::Free { off, on },
    }
}

fn rule_state(choice: Option<Choice>) -> RuleState
    ensures { result ≡ need_by choice }
{
    match choice {
        None => RuleState::Redundant,
        Some(choice) => RuleState::Needed { choice },
    }
}

// The first choices of a node with an option off and with it on.
fn sides_of(
    table: &mut Table,
    node: Node,
    option: OptionId,
    count: u8,
) -> Result<(Option<Choice>, Option<Choice>), Memory>
    requires count { count ≤ CHOICE_WIDTH }
    requires node { node < diagram_size table.old }
    requires options { span table.old node ≤ count }
    requires option { option < count }
    ensures extends { Extends table.old table.new }
    ensures off { IfOk result (λ sides. sides.0 ≡
        find (λ c. value_in table.old node c && not (is_on c option)) (all_choices count)) }
    ensures on { IfOk result (λ sides. sides.1 ≡
        find (λ c. value_in table.old node c && is_on c option) (all_choices count)) }
{
    let literal = table.literal(option)?;
    let off = table.without(node, literal)?;
    let on = table.and(node, literal, &mut Steps::<Uncounted>::new())?;
    Ok((table.least(off, count), table.least(on, count)))
}

// The node that is true where both first nodes are and the third isn't.
fn broken_alone(table: &mut Table, before: Node, behind: Node, all: Node) -> Result<Node, Memory>
    requires before { before < diagram_size table.old }
    requires behind { behind < diagram_size table.old }
    requires all { all < diagram_size table.old }
    ensures extends { Extends table.old table.new }
    ensures stands { IfOk result (λ r. Stands table.new r 0
        (max (max (span table.old before) (span table.old behind)) (span table.old all))
        (λ c. (value_in table.old before c && value_in table.old behind c) &&
        not (value_in table.old all c))) }
{
    let others = table.and(before, behind, &mut Steps::<Uncounted>::new())?;
    table.without(others, all)
}

// Conjoins the constraints in an order, and from its last to its first.
fn conjoin_both(
    table: &mut Table,
    order: &mut Numbers,
    before: &mut Numbers,
    behind: &mut Numbers,
    rules: &Rules,
) -> Result<(), Memory>
    requires order { order.old ≡ [] }
    requires before { before.old ≡ [] }
    requires behind { behind.old ≡ [] }
    ensures order { OnOk result (IsOrder (length rules.now.standing.constraints) order.new) }
    ensures before { OnOk result (HasParts table.new before.new
        (expressions rules.now.standing.constraints) order.new) }
    ensures behind { OnOk result (HasParts table.new behind.new
        (expressions rules.now.standing.constraints) (reverse order.new)) }
{
    order_constraints(order, rules)?;
    conjoin_all(table, before, rules, order)?;
    let backward = reversed(order)?;
    conjoin_all(table, behind, rules, &backward)
}

// Conjoins the first constraints of an order, from none of them to all.
fn conjoin_all(
    table: &mut Table,
    nodes: &mut Numbers,
    rules: &Rules,
    order: &Numbers,
) -> Result<(), Memory>
    requires order { IsOrder (length rules.now.standing.constraints) order.now }
    requires none { nodes.old ≡ [] }
    ensures extends { Extends table.old table.new }
    ensures parts { OnOk result (HasParts table.new nodes.new
        (expressions rules.now.standing.constraints) order.now) }
{
    let numbers = order.as_slice();
    let mut node = TRUE;
    nodes.push(node)?;
    let mut done = 0;
    while done < rules.constraints() {
        let rule = numbers[done as usize] as u32;
        node = conjoin(table, node, rules.constraint(rule))?;
        nodes.push(node)?;
        done += 1;
    }
    Ok(())
}

// The node that is true where a node and an expression are.
fn conjoin(table: &mut Table, node: Node, expr: &Expr) -> Result<Node, Memory>
    requires { node < diagram_size table.old }
    ensures extends { Extends table.old table.new }
    ensures stands { IfOk result (λ r. Stands table.new r 0
        (max (span table.old node) (reach expr.now))
        (λ c. value_in table.old node c && value expr.now c)) }
{
    let other = compile(table, expr)?;
    table.and(node, other, &mut Steps::<Uncounted>::new())
}
