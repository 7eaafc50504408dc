// What a commit's edits do to the lines of files, one after another.
ghost use Rattle.std.specs.Prelude.{◌≡◌, map};
ghost use Rattle.std.specs.List.{AllByRecursion};
ghost use Rattle.cov_edit.specs.Touched.{AreRising};
ghost use Rattle.cov_visible.specs.Parts.{part_node};
ghost use Rattle.cov_visible.specs.Carrying.{CanCarryOutIn, AreCarriedOut};

use crate::FilePart;
use crate::places::index_of;
use cov_base::{Kind, LineNo, Name, NodeNo, Position, Text};
use cov_dd::Node;

/// An edit by numbers, with the node where it applies: a line is visible there, or is left visible there when it is deleted, and
/// rows change where that node is true.
#[derive(Drop)]
pub enum ResolvedEdit {
    New {
        node: NodeNo,
        kind: Kind,
        parent: NodeNo,
        name: Name,
        on: Node,
    },
    Insert {
        file: NodeNo,
        anchor: LineNo,
        line: LineNo,
        text: Text,
        vis: Node,
    },
    Delete {
        file: NodeNo,
        line: LineNo,
        vis: Node,
    },
    Rename {
        node: NodeNo,
        name: Name,
        on: Node,
    },
    Move {
        node: NodeNo,
        parent: NodeNo,
        on: Node,
    },
    Remove {
        node: NodeNo,
        on: Node,
    },
}

/// Does to a file what an edit does. It takes at most time in the lines of that file, and no memory.
pub(crate) fn carry_out(files: &mut [FilePart], edit: ResolvedEdit, at: Position)
    requires rising { AreRising (map part_node files.old) }
    requires can { AllByRecursion (CanCarryOutIn at edit) files.old }
    ensures { AreCarriedOut at edit files.old files.new }
{
    match edit {
        ResolvedEdit::Insert {
            file,
            anchor,
            line,
            text,
            vis,
        } => match index_of(files, file) {
            Some(index) => files[index].insert(anchor, line, text, vis, at),
            None => (),
        },
        ResolvedEdit::Delete { file, line, vis } => match index_of(files, file) {
            Some(index) => files[index].delete(line, vis, at),
            None => (),
        },
        ResolvedEdit::New { .. }
        | ResolvedEdit::Rename { .. }
        | ResolvedEdit::Move { .. }
        | ResolvedEdit::Remove { .. } => (),
    }
}
