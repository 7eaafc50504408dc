// Choices at the front of bytes.
ghost use Rattle.std.specs.Prelude.{◌≡◌, ◌≤◌};
ghost use Rattle.cov_base.specs.declared.limits.TheConstants.{CHOICE_WIDTH};
ghost use Rattle.cov_record.specs.Reading.{Takes, front_bit, front_bits, front_choice};

use crate::ahead::Ahead;
use cov_base::{CHOICE_WIDTH, Choice, OptionId};

pub(crate) fn take_bit(ahead: &mut Ahead<'_>) -> Option<bool>
    ensures { Takes (front_bit ahead.old) result ahead.new }
{
    match ahead.take_u8()? {
        0 => Some(false),
        1 => Some(true),
        _ => None,
    }
}

pub(crate) fn take_choice(ahead: &mut Ahead<'_>) -> Option<Choice>
    ensures { Takes (front_choice ahead.old) result ahead.new }
{
    let count = ahead.take_u8()?;
    if count > CHOICE_WIDTH {
        return None;
    }
    take_bits(ahead, count)
}

fn take_bits(ahead: &mut Ahead<'_>, count: u8) -> Option<Choice>
    requires { count ≤ CHOICE_WIDTH }
    ensures { Takes (front_bits count ahead.old) result ahead.new }
{
    let mut choice = Choice::new(0, count);
    for option in 0..count {
        let on = take_bit(ahead)?;
        choice = choice.with(OptionId::new(option), on);
    }
    Some(choice)
}
