// The choices that are left of all, as a partial choice is completed. What is bound stays bound: it restricts each node that is
// met, so that the nodes have fewer options with each one that is bound.
ghost use Rattle.std.specs.Prelude.{◌≡◌, ◌<◌, ◌≤◌, ◌∷◌, [], ℕ, List, Bool, true, false, length, IfOk, IfErr, IfSome};
ghost use Rattle.cov_base.specs.Choices.{all_choices, is_on, with_option};
ghost use Rattle.cov_base.specs.declared.limits.TheConstants.{CHOICE_WIDTH};
ghost use Rattle.cov_dd.specs.declared.triple.Triple.{Triple};
ghost use Rattle.cov_dd.specs.Diagrams.{diagram_size, span, Extends};
ghost use Rattle.cov_expr.specs.Formula.{reach};
ghost use Rattle.cov_rules.specs.Completion.{Complete, has_any, IsRefusalBy};
ghost use Rattle.cov_rules.specs.Installing.{literal, IsNodeOf};
ghost use Rattle.cov_rules.specs.Lefts.{answer_left, choices_left, Binds, Closes, Fixes, FixesNext, IsLeft, IsOnly, IsSound, Keeps, Meets};

use crate::completing::CompleteFault;
use crate::rules::Installed;
use cov_base::{Choice, Memory, OptionId, Steps, Uncounted};
use cov_dd::{Node, TRUE, Table};

/// The choices with each bound option as it is bound on which a node is true. The node has none of the bound options.
#[derive(Clone, Copy, Debug)]
pub(crate) struct Left {
    pub(crate) node: Node,
    /// Which options are bound.
    pub(crate) bound: Choice,
    /// The values of those that are bound.
    pub(crate) values: Choice,
}

impl Left {
    /// All choices of `count` options.
    pub(crate) fn all(count: u8) -> Left
        requires { count ≤ CHOICE_WIDTH }
        ensures all { (ts : List Triple) → IsLeft ts count (all_choices count) result }
        ensures unbound { (o : ℕ) → is_on result.bound o ≡ false }
    {
        let none = Choice::new(0, count);
        Left {
            node: TRUE,
            bound: none,
            values: none,
        }
    }

    /// Whether a choice is left.
    pub(crate) fn is_any(&self, table: &Table) -> bool
        requires { IsSound table.now self.now }
        ensures { result ≡ has_any (choices_left table.now self.now) }
    {
        !table.is_false(self.node)
    }

    /// The only choice, where every option is bound and none is ruled out.
    pub(crate) fn whole(&self) -> Option<Choice>
        ensures { IfSome result (IsOnly self.now) }
    {
        if self.node != TRUE {
            return None;
        }
        for number in 0..self.bound.count() {
            if !self.bound.get(OptionId::new(number)) {
                return None;
            }
        }
        Some(self.values)
    }

    /// Those that have an option as given, which isn't bound so far.
    pub(crate) fn bind(&self, table: &mut Table, option: OptionId, on: bool) -> Result<Left, Memory>
        requires sound { IsSound table.old self.now }
        requires option { option < length self.now.bound }
        requires unbound { is_on self.now.bound option ≡ false }
        ensures extends { Extends table.old table.new }
        ensures binds { IfOk result (Binds table.old table.new self.now option on) }
        ensures bound { IfOk result (λ r. r.bound ≡ with_option self.now.bound option true) }
    {
        let node = table.restrict(self.node, option, on)?;
        Ok(Left {
            node,
            bound: self.bound.with(option, true),
            values: self.values.with(option, on),
        })
    }

    /// Those on which a node is true.
    pub(crate) fn meet(&self, table: &mut Table, node: Node) -> Result<Left, Memory>
        requires sound { IsSound table.old self.now }
        requires node { node < diagram_size table.old }
        requires options { span table.old node ≤ length self.now.bound }
        ensures extends { Extends table.old table.new }
        ensures meets { IfOk result (Meets table.old table.new self.now node) }
    {
        let fixed = self.fix(table, node)?;
        let both = table.and(self.node, fixed, &mut Steps::<Uncounted>::new())?;
        Ok(Left {
            node: both,
            bound: self.bound,
            values: self.values,
        })
    }

    /// Those on which a preference is true, if there are any, else all.
    pub(crate) fn with_preference(
        &self,
        table: &mut Table,
        wish: &Installed,
    ) -> Result<Left, Memory>
        requires sound { IsSound table.old self.now }
        requires node { IsNodeOf table.old wish.now.node wish.now.expr }
        requires below { reach wish.now.expr ≤ length self.now.bound }
        ensures extends { Extends table.old table.new }
        ensures kept { IfOk result (Keeps table.old table.new self.now (wish.now.expr ∷ [])) }
    {
        let preferred = self.meet(table, wish.node)?;
        if preferred.is_any(table) {
            return Ok(preferred);
        }
        Ok(*self)
    }

    /// Those that have an option as given, if there are any, else all. A bound option stays as it is.
    pub(crate) fn with_default(
        &self,
        table: &mut Table,
        option: OptionId,
        on: bool,
    ) -> Result<Left, Memory>
        requires sound { IsSound table.old self.now }
        requires option { option < length self.now.bound }
        ensures extends { Extends table.old table.new }
        ensures kept { IfOk result (Keeps table.old table.new self.now (literal option on ∷ [])) }
    {
        if self.bound.get(option) {
            return Ok(*self);
        }
        let kept = self.bind(table, option, on)?;
        if kept.is_any(table) {
            return Ok(kept);
        }
        self.bind(table, option, !on)
    }

    /// The only choice that is left, or the least option that has both values among those that are.
    pub(crate) fn only(&self, table: &mut Table) -> Result<Choice, CompleteFault>
        requires sound { IsSound table.old self.now }
        requires some { has_any (choices_left table.old self.now) ≡ true }
        ensures extends { Extends table.old table.new }
        ensures complete { IfOk result (λ only. answer_left table.old self.now ≡ Complete only) }
        ensures refused { IfErr result (IsRefusalBy (answer_left table.old self.now)) }
    {
        let count = self.bound.count();
        let mut left = *self;
        for number in 0..count {
            let option = OptionId::new(number);
            left = match left.close(table, option) {
                Ok(Some(closed)) => closed,
                Ok(None) => return Err(CompleteFault::Incomplete { option }),
                Err(_) => return Err(CompleteFault::Memory),
            };
        }
        Ok(left.values)
    }

    // The same choices with an option bound, or None where it has both values among them.
    fn close(&self, table: &mut Table, option: OptionId) -> Result<Option<Left>, Memory>
        requires sound { IsSound table.old self.now }
        requires option { option < length self.now.bound }
        ensures extends { Extends table.old table.new }
        ensures closes { IfOk result (Closes table.old table.new self.now option) }
    {
        if self.bound.get(option) {
            return Ok(Some(*self));
        }
        let on = self.bind(table, option, true)?;
        let off = self.bind(table, option, false)?;
        if !on.is_any(table) {
            return Ok(Some(off));
        }
        if off.is_any(table) {
            return Ok(None);
        }
        Ok(Some(on))
    }

    // A node restricted by each option that is bound.
    fn fix(&self, table: &mut Table, node: Node) -> Result<Node, Memory>
        requires node { node < diagram_size table.old }
        requires values { length self.now.values ≡ length self.now.bound }
        ensures extends { Extends table.old table.new }
        ensures fixed { IfOk result (Fixes table.old table.new self.now node) }
    {
        let count = self.bound.count();
        let mut fixed = node;
        for number in 0..count {
            fixed = self.fix_one(table, fixed, OptionId::new(number))?;
        }
        Ok(fixed)
    }

    // A node restricted by one option, if it is bound.
    fn fix_one(&self, table: &mut Table, node: Node, option: OptionId) -> Result<Node, Memory>
        requires node { node < diagram_size table.old }
        requires values { length self.now.values ≡ length self.now.bound }
        requires option { option < length self.now.bound }
        ensures extends { Extends table.old table.new }
        ensures fixed { IfOk result (FixesNext table.old table.new self.now option node) }
    {
        if !self.bound.get(option) {
            return Ok(node);
        }
        table.restrict(node, option, self.values.get(option))
    }
}
