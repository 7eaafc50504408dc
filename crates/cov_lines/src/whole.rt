// Choices that bind each option.
ghost use Rattle.std.specs.Prelude.{◌≡◌, ◌<◌, ◌≤◌, None, Some, length, IfErr, IfOk, OnOk};
ghost use Rattle.cov_base.specs.declared.limits.TheConstants.{CHOICE_WIDTH};
ghost use Rattle.cov_hist.specs.Past.{first_open, values_of};

use cov_base::{Choice, OptionId};
use cov_expr::Partial;

/// The choice that a partial one is, which binds each of so many options; else the least of these that it leaves open. Takes no memory.
pub(crate) fn whole_choice(partial: &Partial, count: u8) -> Result<Choice, OptionId>
    requires { count ≤ CHOICE_WIDTH }
    ensures choice { IfOk result (λ choice. choice ≡ values_of count partial.now) }
    ensures whole { OnOk result (first_open count partial.now ≡ None) }
    ensures count { IfOk result (λ choice. length choice ≡ count) }
    ensures open { IfErr result (λ option. first_open count partial.now ≡ Some option) }
    ensures within { IfErr result (λ option. option < count) }
{
    let mut choice = Choice::new(0, count);
    let mut number = 0;
    while number < count {
        let option = OptionId::new(number);
        match partial.get(option) {
            Some(on) => {
                choice = choice.with(option, on);
                number += 1;
            }
            None => return Err(option),
        }
    }
    Ok(choice)
}
