// Why lines are no conditional text.
use cov_base::{Memory, Text};

/// Why lines are no conditional text. Lines count from 1.
#[derive(Debug, Drop)]
pub enum CondFault {
    /// The line is none of the format, or closes or turns a block that isn't open, or turns one a second time. One more than
    /// there are lines where a block is open at the end.
    Syntax { line: u32 },
    /// Its expression has more than `MOST_TOKENS` tokens, or the conjunction of the conditions that are open after it has
    /// more than `MOST_PARTS` parts.
    TooLong { line: u32 },
    /// Its expression has this name, the first that no option has.
    UnknownOption { line: u32, name: Text },
    Memory,
}

impl From<Memory> for CondFault {
    ghost use Rattle.std.specs.Prelude.{◌≡◌};
    ghost use Rattle.cov_cond_text.specs.declared.fault.CondFault.TheVariants.{Memory as wanting};

    ghost from_gives = { λ _ e. e ≡ wanting };

    fn from(_: Memory) -> Self {
        CondFault::Memory
    }
}
