// Faults of sessions.
ghost use Rattle.std.specs.Prelude.{◌≡◌};
ghost use Rattle.cov_session.specs.Faults.{by_edit, by_completion};

use cov_base::{Memory, OptionId};
use cov_rules::CompleteFault;
use cov_view::EditFault;

/// Why a session isn't opened or doesn't take a side or edits, or want of memory.
#[derive(Clone, Copy, Debug, PartialEq, Eq)]
pub enum SessionFault {
    /// No open session has the name.
    NoSession,
    /// An open session has the name.
    SessionExists,
    /// `MOST_SESSIONS` sessions are open.
    TooManySessions,
    /// No choice agrees with the partial one and meets the constraints up to this one, from 1.
    Invalid { rule: u32 },
    /// The least option that the rules leave open.
    Incomplete { option: OptionId },
    /// The ambition is false on the completed choice.
    OutsideAmbition,
    /// The first option of a side, from the left, that isn't one of the session's choice.
    LateOption { option: OptionId },
    /// The side is false on the session's choice.
    OutsideSide,
    /// The commit would have more than `LIMITS.edits` edits.
    TooManyEdits,
    /// The commit would have more than `LIMITS.commit_bytes` bytes of text.
    TooManyBytes,
    /// What the session sees refuses an edit. The fault is never `EditFault::Memory`.
    Edit { fault: EditFault },
    /// The first edit, from 0, that what the refreshed session would see refuses.
    EditLost { index: u32 },
    Memory,
}

/// No open session has the name.
#[derive(Clone, Copy, Debug, PartialEq, Eq)]
pub struct NoSession;

impl From<Memory> for SessionFault {
    ghost use Rattle.cov_session.specs.declared.fault.SessionFault.TheVariants.{Memory as wanting};

    ghost from_gives = { λ _ fault. fault ≡ wanting };

    fn from(_: Memory) -> Self {
        SessionFault::Memory
    }
}

impl From<EditFault> for SessionFault {
    ghost from_gives = { λ fault own. own ≡ by_edit fault };

    fn from(fault: EditFault) -> Self {
        match fault {
            EditFault::Memory => SessionFault::Memory,
            EditFault::NoSuchNode
            | EditFault::NotFile
            | EditFault::NotDirectory
            | EditFault::NameTaken
            | EditFault::NotEmpty
            | EditFault::IntoItself
            | EditFault::IsRoot
            | EditFault::NoSuchLine => SessionFault::Edit { fault },
        }
    }
}

impl From<CompleteFault> for SessionFault {
    ghost from_gives = { λ fault own. own ≡ by_completion fault };

    fn from(fault: CompleteFault) -> Self {
        match fault {
            CompleteFault::Memory => SessionFault::Memory,
            CompleteFault::Invalid { rule } => SessionFault::Invalid { rule },
            CompleteFault::Incomplete { option } => SessionFault::Incomplete { option },
        }
    }
}
