// Edits of one variant, by references.
ghost use Rattle.std.specs.Prelude.{◌≡◌, IfOk};
ghost use Rattle.cov_edit.specs.EditFits.{has_line_text, fits_edit};

use cov_base::{Kind, LineRef, Memory, Name, NodeRef, Text};

/// One edit of a variant. The text of a line has at most `MOST_TEXT_BYTES` bytes and no byte 10.
#[derive(Debug, Drop)]
pub enum Edit {
    /// Makes a file or directory in a directory.
    New {
        kind: Kind,
        parent: NodeRef,
        name: Name,
    },
    /// Makes a line directly after another, or first where that is the head, line 0.
    Insert {
        file: NodeRef,
        after: LineRef,
        text: Text,
    },
    /// Takes a line out of a file.
    Delete {
        file: NodeRef,
        line: LineRef,
    },
    /// Gives a file or directory another name in its directory.
    Rename {
        node: NodeRef,
        name: Name,
    },
    /// Puts a file or directory into another directory.
    Move {
        node: NodeRef,
        parent: NodeRef,
    },
    /// Takes out a file or a directory.
    Remove {
        node: NodeRef,
    },
}

impl Edit {
    /// The same edit.
    pub fn copy(&self) -> Result<Edit, Memory>
        ensures { IfOk result (λ edit. edit ≡ self.now) }
    {
        match self {
            Edit::New { kind, parent, name } => Ok(Edit::New {
                kind: *kind,
                parent: *parent,
                name: name.copy()?,
            }),
            Edit::Insert { file, after, text } => Ok(Edit::Insert {
                file: *file,
                after: *after,
                text: text.copy()?,
            }),
            Edit::Delete { file, line } => Ok(Edit::Delete {
                file: *file,
                line: *line,
            }),
            Edit::Rename { node, name } => Ok(Edit::Rename {
                node: *node,
                name: name.copy()?,
            }),
            Edit::Move { node, parent } => Ok(Edit::Move {
                node: *node,
                parent: *parent,
            }),
            Edit::Remove { node } => Ok(Edit::Remove { node: *node }),
        }
    }

    // Does nothing; it tells that a name is well spelt, which its type keeps. A call on the name says so.
    pub(crate) fn spelling_is_kept(&self)
        ensures { fits_edit self.now ≡ has_line_text self.now }
    {
        match self {
            Edit::New { name, .. } | Edit::Rename { name, .. } => {
                name.as_slice();
            }
            Edit::Insert { .. } | Edit::Delete { .. } | Edit::Move { .. } | Edit::Remove { .. } =>
                {}
        }
    }
}
