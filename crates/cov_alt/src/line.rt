// Lines of both sides.
use cov_base::{LineNo, List, Text};

/// On which of the two sides of an option a line is.
#[derive(Clone, Copy, Debug, PartialEq, Eq)]
pub enum Mark {
    Both,
    OnOnly,
    OffOnly,
}

/// A line of a file that is on at least one side.
#[derive(Debug, Drop)]
pub struct AltLine {
    pub mark: Mark,
    pub line: LineNo,
    pub text: Text,
}

/// Lines of a file, in order.
pub type AltLines = List<AltLine>;
