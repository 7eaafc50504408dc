// Choices that bind some of the options.
ghost use Rattle.std.specs.Prelude.{◌≡◌, ◌<◌, ◌≤◌, ℕ, List, Bool, true, nat_lt, length, IfOk};
ghost use Rattle.std.specs.List.{enumerate_from, list_all};
ghost use Rattle.cov_base.specs.declared.limits.TheConstants.{CHOICE_WIDTH};
ghost use Rattle.cov_expr.specs.Partials.{is_in_order, bound_value, places_from};

use cov_base::{Choice, Memory, OptionId};
use std::alloc::Global;
use std::marker::Model;

/// A finite map from options to truth values. Contracts see it as the list of its bindings in order of options, so that
/// two that bind alike are equal.
#[derive(Debug, Drop)]
pub struct Partial {
    bindings: Vec<(OptionId, bool)>,
}

impl Model for Partial {
    ghost use Rattle.std.specs.Prelude.{◌≡◌, List, ℕ, Bool, true};
    ghost use Rattle.cov_expr.specs.Partials.{is_in_order};

    ghost Value = { List (ℕ × Bool) };

    ghost view = { λ p. p.bindings.items };

    ghost invariant = { λ p. is_in_order p.bindings.items ≡ true };
}

impl Partial {
    /// Binds what the choice binds.
    pub fn of(alloc: Global, choice: Choice) -> Result<Partial, Memory>
        ensures bindings { IfOk result (λ partial. partial ≡ enumerate_from 0 choice) }
        ensures within { IfOk result (λ partial.
            list_all (λ b. nat_lt b.0 (length choice)) partial ≡ true) }
    {
        let mut bindings = Vec::new(alloc);
        for number in 0..choice.count() {
            let option = OptionId::new(number);
            bindings.push((option, choice.get(option)))?;
        }
        Ok(Partial { bindings })
    }

    /// Binds each option for whose number there is a value.
    pub(crate) fn of_values(alloc: Global, values: &[Option<bool>]) -> Result<Partial, Memory>
        requires { length values.now ≤ CHOICE_WIDTH }
        ensures bindings { IfOk result (λ partial. partial ≡ places_from 0 values.now) }
        ensures within { IfOk result (λ partial.
            list_all (λ b. nat_lt b.0 (length values.now)) partial ≡ true) }
    {
        let mut bindings = Vec::new(alloc);
        for (number, value) in values.iter().enumerate() {
            if let Some(on) = *value {
                bindings.push((OptionId::new(number as u8), on))?;
            }
        }
        Ok(Partial { bindings })
    }

    /// The value that is bound to an option, None exactly where it isn't bound. It takes no memory.
    pub fn get(&self, option: OptionId) -> Option<bool>
        ensures { result ≡ bound_value self.now option }
    {
        match self.bindings.iter().find(|b| option == b.0) {
            None => None,
            Some(binding) => Some(binding.1),
        }
    }

    /// The bindings in order of options.
    pub fn bindings(&self) -> &[(OptionId, bool)]
        ensures bindings { result.now ≡ self.now }
        ensures in_order { is_in_order self.now ≡ true }
    {
        self.bindings.as_slice()
    }
}
