// Why a file isn't exported, and a conditional text isn't imported.
ghost use Rattle.std.specs.Prelude.{◌≡◌};

use cov_base::{LineNo, Memory};
use cov_view::EditFault;

/// Why a file isn't exported, or want of memory.
#[derive(Clone, Copy, Debug, PartialEq, Eq)]
pub enum ExportFault {
    /// The expression of this line, the first such, has more than `MOST_TOKENS` tokens.
    TooLong { line: LineNo },
    Memory,
}

impl From<Memory> for ExportFault {
    ghost use Rattle.cov_cond.specs.declared.fault.ExportFault.TheVariants.{Memory as wanting};

    ghost from_gives = { λ _ fault. fault ≡ wanting };

    fn from(_: Memory) -> Self {
        ExportFault::Memory
    }
}

/// Why a conditional text isn't imported, or want of memory.
#[derive(Clone, Copy, Debug, PartialEq, Eq)]
pub enum ImportFault {
    /// It has as many lines of text as a commit may have edits, or more.
    TooManyEdits,
    /// Its texts have more bytes than those of a commit may have, or than the history has room for.
    TooManyBytes,
    /// It would be more commits than the history has room for.
    Full,
    /// It has more lines of text than the history has room for.
    TooManyLines,
    /// Nothing is at the path without its last name, in the variant of the first valid choice.
    NoSuchPath,
    /// The file can't be made there in that variant.
    Edit { fault: EditFault },
    Memory,
}

impl From<Memory> for ImportFault {
    ghost use Rattle.cov_cond.specs.declared.fault.ImportFault.TheVariants.{Memory as wanting};

    ghost from_gives = { λ _ fault. fault ≡ wanting };

    fn from(_: Memory) -> Self {
        ImportFault::Memory
    }
}
