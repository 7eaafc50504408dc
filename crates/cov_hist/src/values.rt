// What bindings give to the first options.
ghost use Rattle.std.specs.Prelude.{◌≡◌, ◌≤◌};
ghost use Rattle.cov_base.specs.declared.limits.TheConstants.{CHOICE_WIDTH};
ghost use Rattle.cov_hist.specs.Past.{first_late, first_open, is_bound_on, values_of};

use cov_base::{Choice, OptionId};
use cov_expr::Partial;

/// The least option that is bound and isn't among the first so many. Takes no memory.
pub(crate) fn first_late(partial: &Partial, count: u8) -> Option<OptionId>
    ensures { result ≡ first_late count partial.now }
{
    late_among(partial.bindings(), count)
}

fn late_among(bindings: &[(OptionId, bool)], count: u8) -> Option<OptionId>
    ensures { result ≡ first_late count bindings.now }
{
    let mut ahead = bindings;
    while let [binding, rest @ ..] = ahead {
        if binding.0.number() >= count {
            return Some(binding.0);
        }
        ahead = rest;
    }
    None
}

/// The least of the first so many options that isn't bound. Takes no memory.
pub(crate) fn first_open(partial: &Partial, count: u8) -> Option<OptionId>
    requires { count ≤ CHOICE_WIDTH }
    ensures { result ≡ first_open count partial.now }
{
    let mut number = 0;
    while number < count {
        let option = OptionId::new(number);
        match partial.get(option) {
            Some(_) => number += 1,
            None => return Some(option),
        }
    }
    None
}

/// The choice of the first so many options that has each as it is bound, and off where it isn't. Takes no memory.
pub(crate) fn values_of(partial: &Partial, count: u8) -> Choice
    requires { count ≤ CHOICE_WIDTH }
    ensures { result ≡ values_of count partial.now }
{
    let mut choice = Choice::new(0, count);
    let mut number = 0;
    while number < count {
        let option = OptionId::new(number);
        choice = choice.with(option, is_bound_on(partial, option));
        number += 1;
    }
    choice
}

// Whether an option is bound as on.
fn is_bound_on(partial: &Partial, option: OptionId) -> bool
    ensures { result ≡ is_bound_on partial.now option }
{
    match partial.get(option) {
        Some(on) => on,
        None => false,
    }
}
