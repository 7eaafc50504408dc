// Rows of written trees.
use cov_base::{List, Text};

/// A directory or a file that was written, with its path.
#[derive(Debug, Drop)]
pub struct OutRow {
    pub path: Text,
    /// The bytes of a file, None for a directory.
    pub bytes: Option<Text>,
}

/// What was written, in order.
pub type OutRows = List<OutRow>;
