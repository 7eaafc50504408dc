// Why a partial choice isn't completed, and what bindings, preferences, defaults and constraints in order leave of choices.
ghost use Rattle.std.specs.Prelude.{◌≡◌, ◌≤◌, ℕ, true, nat_lt, length, IfOk};
ghost use Rattle.std.specs.List.{list_all};
ghost use Rattle.cov_base.specs.declared.limits.TheConstants.{CHOICE_WIDTH};
ghost use Rattle.cov_dd.specs.Diagrams.{Extends};
ghost use Rattle.cov_expr.specs.Partials.{is_in_order};
ghost use Rattle.cov_rules.specs.Completion.{agreeing, fallbacks};
ghost use Rattle.cov_rules.specs.Installing.{expressions, reach_of, AllStand};
ghost use Rattle.cov_rules.specs.Lefts.{IsLeastUnmet, IsLeft, IsSound, Keeps};
ghost use Rattle.cov_rules.specs.declared.rules.TheConstants.{MOST_RULES};

use crate::lefts::Left;
use crate::rules::{Fallback, Installed};
use cov_base::{Memory, OptionId};
use cov_dd::Table;

/// Why a partial choice isn't completed.
#[derive(Clone, Copy, Debug, PartialEq, Eq)]
pub enum CompleteFault {
    Memory,
    /// No choice that agrees with the partial one meets the constraints up to this number, from 1, which is the least.
    Invalid { rule: u32 },
    /// The least option that has both values among the choices that are left.
    Incomplete { option: OptionId },
}

impl Left {
    /// The choices of `count` options that agree with bindings.
    pub(crate) fn agreeing(
        table: &mut Table,
        bindings: &[(OptionId, bool)],
        count: u8,
    ) -> Result<Left, Memory>
        requires few { count ≤ CHOICE_WIDTH }
        requires in_order { is_in_order bindings.now ≡ true }
        requires below { list_all (λ b. nat_lt b.0 count) bindings.now ≡ true }
        ensures extends { Extends table.old table.new }
        ensures agree { IfOk result (IsLeft table.new count (agreeing count bindings.now)) }
    {
        let mut left = Left::all(count);
        for binding in bindings {
            left = left.bind(table, binding.0, binding.1)?;
        }
        Ok(left)
    }

    /// Those that are left after each of these preferences in order.
    pub(crate) fn with_preferences(
        &self,
        table: &mut Table,
        wishes: &[Installed],
    ) -> Result<Left, Memory>
        requires sound { IsSound table.old self.now }
        requires nodes { AllStand table.old wishes.now }
        requires below { reach_of (expressions wishes.now) ≤ length self.now.bound }
        ensures extends { Extends table.old table.new }
        ensures kept { IfOk result (Keeps table.old table.new self.now (expressions wishes.now)) }
    {
        let mut left = *self;
        for wish in wishes {
            left = left.with_preference(table, wish)?;
        }
        Ok(left)
    }

    /// Those that are left after each of these defaults in order.
    pub(crate) fn with_defaults(
        &self,
        table: &mut Table,
        defaults: &[Fallback],
    ) -> Result<Left, Memory>
        requires sound { IsSound table.old self.now }
        requires below { reach_of (fallbacks defaults.now) ≤ length self.now.bound }
        ensures extends { Extends table.old table.new }
        ensures kept { IfOk result (Keeps table.old table.new self.now (fallbacks defaults.now)) }
    {
        let mut left = *self;
        for default in defaults {
            left = left.with_default(table, default.option, default.on)?;
        }
        Ok(left)
    }

    /// How many of the constraints, in order, rule all of them out.
    pub(crate) fn least_unmet(
        &self,
        table: &mut Table,
        constraints: &[Installed],
    ) -> Result<u32, Memory>
        requires sound { IsSound table.old self.now }
        requires few { length constraints.now ≤ MOST_RULES }
        requires nodes { AllStand table.old constraints.now }
        requires below { reach_of (expressions constraints.now) ≤ length self.now.bound }
        ensures extends { Extends table.old table.new }
        ensures unmet { IfOk result (IsLeastUnmet table.old self.now constraints.now) }
    {
        let mut left = *self;
        let mut rule = 0;
        for constraint in constraints {
            if !left.is_any(table) {
                return Ok(rule);
            }
            left = left.meet(table, constraint.node)?;
            rule += 1;
        }
        Ok(rule)
    }
}
