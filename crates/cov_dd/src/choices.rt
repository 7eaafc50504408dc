// Options that a choice may not have.
ghost use Rattle.std.specs.Prelude.{◌≡◌};
ghost use Rattle.cov_base.specs.Choices.{is_on};

use cov_base::{Choice, OptionId};

/// Whether an option is on; off at or above the choice's count.
pub(crate) fn is_set(choice: Choice, option: OptionId) -> bool
    ensures { result ≡ is_on choice option }
{
    option.number() < choice.count() && choice.get(option)
}
