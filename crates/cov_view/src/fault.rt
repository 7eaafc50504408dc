// Refusals of edits and of reads.
use cov_base::NodeNo;
use thiserror::Error;

/// Why a variant refuses an edit, or want of memory.
#[derive(Clone, Copy, Debug, PartialEq, Eq, Error)]
pub enum EditFault {
    /// A node that the edit names isn't there.
    #[error("no such node")]
    NoSuchNode,
    /// Lines belong into files.
    #[error("not a file")]
    NotFile,
    /// Nodes belong into directories.
    #[error("not a directory")]
    NotDirectory,
    /// The directory has a node of that name.
    #[error("name taken")]
    NameTaken,
    /// The directory that is to be taken out has a node.
    #[error("not empty")]
    NotEmpty,
    /// The directory is the node that is moved, or lies below it.
    #[error("into itself")]
    IntoItself,
    /// The root keeps its place and has no name.
    #[error("is root")]
    IsRoot,
    /// The file doesn't have the line.
    #[error("no such line")]
    NoSuchLine,
    #[error("out of memory")]
    Memory,
}

/// Why the lines of a node can't be read.
#[derive(Clone, Copy, Debug, PartialEq, Eq)]
pub enum ReadFaultOfView {
    NoSuchNode,
    NotFile,
    Memory,
}

/// Why what is in a node can't be listed.
#[derive(Clone, Copy, Debug, PartialEq, Eq)]
pub enum ListFault {
    NoSuchNode,
    NotDirectory,
    Memory,
}

/// What makes a variant unsound.
#[derive(Clone, Copy, Debug, PartialEq, Eq)]
pub enum Fault {
    /// Two nodes of one directory have one name.
    Clash { low: NodeNo, high: NodeNo },
    /// The directory of a node isn't there.
    Orphan { node: NodeNo },
    /// The way from a node to its directory, and on from there, never comes to the root.
    Loop { node: NodeNo },
}
