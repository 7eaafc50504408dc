// Refusals of commands.
use cov_base::{Choice, Memory, NodeNo, Position};

/// Why a history refuses a command, or want of memory.
#[derive(Clone, Copy, Debug)]
pub enum Refusal {
    /// The history has as many commands, options or rules as it holds.
    Full,
    /// An option of that name is declared.
    Exists,
    /// No choice would meet all constraints.
    NoVariantLeft,
    /// The history has an upgrade.
    Upgraded,
    /// The base is beyond the history.
    BadBase,
    /// An option isn't declared, or the choice isn't one of all options of the base.
    BadOption,
    TooManyEdits,
    TooManyLines,
    TooManyNodes,
    TooManyBytes,
    /// The first constraint, from 1, that is false on the choice.
    Invalid {
        rule: u32,
    },
    /// The ambition is false on the choice.
    OutsideAmbition,
    /// The first edit, from 0, whose side is false on the choice.
    OutsideSide {
        edit: u32,
    },
    /// There are no edits.
    Empty,
    /// The first edit, from 0, that the variant of the choice refuses.
    BadRecord {
        edit: u32,
    },
    /// The position of the first later commit of which some edit touches a common node with some edit, where a valid choice
    /// makes both ambitions and both sides true.
    Overtaken {
        position: Position,
    },
    /// On the first choice that the commit would leave unsound, the first two nodes with one parent and one name.
    Clash {
        low: NodeNo,
        high: NodeNo,
        choice: Choice,
    },
    /// On that choice, the first node whose parent wouldn't be there.
    Orphan {
        node: NodeNo,
        choice: Choice,
    },
    /// On that choice, the first node from which following parents would never reach the root.
    Loop {
        node: NodeNo,
        choice: Choice,
    },
    Memory,
}

impl From<Memory> for Refusal {
    ghost use Rattle.std.specs.Prelude.{◌≡◌};
    ghost use Rattle.cov_history.specs.declared.refusal.Refusal.TheVariants.{Memory as wanting};

    ghost from_gives = { λ _ refusal. refusal ≡ wanting };

    fn from(_: Memory) -> Self {
        Refusal::Memory
    }
}
