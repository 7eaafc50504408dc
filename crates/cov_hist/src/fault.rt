// Faults of a choice at a position of the past.
use cov_base::OptionId;

/// Why bindings are no choice at a position.
#[derive(Clone, Copy, Debug, PartialEq, Eq)]
pub enum PastFault {
    /// The history has fewer commands.
    NoSuchPosition,
    /// The option is declared later: the least such that is bound.
    LateOption { option: OptionId },
    /// The option is declared there and isn't bound: the least such.
    Incomplete { option: OptionId },
    /// The first constraint of then, by its number from 1, that is false.
    Invalid { rule: u32 },
}
