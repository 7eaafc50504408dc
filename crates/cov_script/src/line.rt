// What a line of a script says.
use cov_base::{Memory, Name, Path, Text};
use cov_expr::{RawChoice, RawExpr};

/// How an edit names the line that it is about.
#[derive(Clone, Copy, Debug, PartialEq, Eq)]
pub enum LineField {
    /// By its number in the whole store.
    Number(u32),
    /// By its number, from 0, among the lines that the session inserted; it is written with a `+`.
    Own(u32),
}

/// What a line says.
#[derive(Drop)]
pub enum Line {
    /// It is empty or begins with `#`, and has no reply.
    Nothing,
    Option {
        token: Text,
    },
    Constraint {
        expr: RawExpr,
    },
    Prefer {
        expr: RawExpr,
    },
    Default {
        token: Text,
        on: bool,
    },
    Complete {
        choice: RawChoice,
    },
    OpenSession {
        name: Name,
        choice: RawChoice,
        ambition: RawExpr,
    },
    Side {
        name: Name,
        side: RawExpr,
    },
    MakeDir {
        name: Name,
        path: Path,
    },
    MakeFile {
        name: Name,
        path: Path,
    },
    Rename {
        name: Name,
        path: Path,
        to: Name,
    },
    Move {
        name: Name,
        path: Path,
        target: Path,
    },
    Remove {
        name: Name,
        path: Path,
    },
    Insert {
        name: Name,
        path: Path,
        line: LineField,
        text: Text,
    },
    Delete {
        name: Name,
        path: Path,
        line: LineField,
    },
    Replace {
        name: Name,
        path: Path,
        line: LineField,
        text: Text,
    },
    Show {
        name: Name,
        path: Path,
    },
    List {
        name: Name,
        path: Path,
    },
    Refresh {
        name: Name,
    },
    Commit {
        name: Name,
    },
    Discard {
        name: Name,
    },
    Cat {
        choice: RawChoice,
        path: Path,
    },
    Checkout {
        tree: Name,
        choice: RawChoice,
    },
    Alt {
        choice: RawChoice,
        token: Text,
        path: Path,
    },
    Conditional {
        choice: RawChoice,
        path: Path,
    },
    Presence {
        line: u32,
    },
    Upgrade,
    Analyse,
    Nearest {
        choice: RawChoice,
    },
    Log {
        choice: RawChoice,
    },
    Blame {
        choice: RawChoice,
        path: Path,
    },
    Past {
        position: u32,
        choice: RawChoice,
        path: Path,
    },
    PastOut {
        tree: Name,
        position: u32,
        choice: RawChoice,
    },
}

/// Why a line has no form.
#[derive(Clone, Copy, Debug, PartialEq, Eq)]
pub enum LineSyntax {
    /// The place of its mistake, a byte offset from 0: 0 for an unknown keyword, the first byte of a field that isn't
    /// of its kind, within an expression the place of the mistake there, the line's length for a missing field, and the
    /// space behind the last field where more follows.
    Syntax { at: u32 },
    /// Its expression has more than `MOST_TOKENS` tokens.
    TooLong,
    Memory,
}

impl From<Memory> for LineSyntax {
    ghost use Rattle.std.specs.Prelude.{◌≡◌};
    ghost use Rattle.cov_script.specs.declared.line.LineSyntax.TheVariants.{Memory as wanting};

    ghost from_gives = { λ _ e. e ≡ wanting };

    fn from(_: Memory) -> Self {
        LineSyntax::Memory
    }
}
