// What is told of commits and of lines.
use cov_base::{LineNo, List, Position, Text};

/// A commit, by the position after it, and how many of its edits apply on a choice.
#[derive(Clone, Copy, Debug, PartialEq, Eq)]
pub struct LogRow {
    pub position: Position,
    pub edits: u32,
}

/// Commits in order.
pub type LogRows = List<LogRow>;

/// A line with the position of the commit that inserts it.
#[derive(Debug, Drop)]
pub struct BlameRow {
    pub position: Position,
    pub line: LineNo,
    pub text: Text,
}

/// Lines of a file, in order.
pub type BlameRows = List<BlameRow>;
