// Sides: that of all choices, and the options of one that a choice doesn't bind.
ghost use Rattle.std.specs.Prelude.{◌≡◌, nat_le, None, Some, if◌then◌else◌};
ghost use Rattle.cov_expr.specs.Formula.{True};
ghost use Rattle.cov_expr.specs.Parts.{formula};
ghost use Rattle.cov_session.specs.Siding.{first_late};

use cov_base::OptionId;
use cov_expr::{Expr, Part, TooManyParts};

/// The side that is true on each choice. It takes no memory.
pub(crate) fn everywhere() -> Expr
    ensures { result ≡ True }
{
    match Expr::new(Part::True) {
        Ok(side) => side,
        Err(TooManyParts) => unreachable!(),
    }
}

/// The first option of a part, from the left, that isn't below a count. The depth of recursion is at most that of the parts.
pub(crate) fn first_late(part: &Part, count: u8) -> Option<OptionId>
    ensures { result ≡ first_late count (formula part.now) }
{
    match part {
        Part::False | Part::True => None,
        Part::Option(option) => if_late(*option, count),
        Part::Not(inner) => first_late(inner, count),
        Part::And(left, right) | Part::Or(left, right) => match first_late(left, count) {
            Some(option) => Some(option),
            None => first_late(right, count),
        },
    }
}

// An option, if it isn't below a count.
fn if_late(option: OptionId, count: u8) -> Option<OptionId>
    ensures { result ≡ (if nat_le count option then Some option else None) }
{
    if option.number() >= count {
        return Some(option);
    }
    None
}
