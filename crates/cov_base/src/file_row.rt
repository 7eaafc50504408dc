// Lines with their texts.
use crate::{LineNo, List, Shared, Text};

/// A line of a file.
#[derive(Debug, Drop)]
pub struct FileRow {
    pub line: LineNo,
    pub text: Text,
}

/// Lines of a file, in order.
pub type FileRows = List<FileRow>;

/// Lines of a file, in order, which several owners have and none changes.
pub type SharedRows = Shared<FileRows>;
