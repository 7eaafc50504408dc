// What a commit adds to files: those that it makes, and the room in each for what it does to it.
ghost use Rattle.std.specs.Prelude.{◌≡◌, ◌++◌, [], ◌∷◌, length, map, take, OnOk};
ghost use Rattle.std.specs.List.{cons_option};
ghost use Rattle.cov_edit.specs.Touched.{AreRising};
ghost use Rattle.cov_history.specs.FileNodes.{if_file};
ghost use Rattle.cov_visible.specs.Staging.{contents, new_contents, made_files};
ghost use Rattle.cov_visible.specs.Carrying.{Expects, ExpectsInsert, ExpectsDelete};
ghost use Rattle.cov_visible.specs.Parts.{part_node};

use crate::FilePart;
use crate::places::index_of;
use crate::resolved_edit::ResolvedEdit;
use cov_base::{Kind, LineNo, Memory, NodeNo};
use cov_dd::{Node, Table};
use cov_file::FileLines;

/// Adds the file that an edit makes, if it makes one.
pub(crate) fn stage_file(files: &mut Vec<FilePart>, edit: &ResolvedEdit) -> Result<(), Memory>
    ensures ok { OnOk result (map contents files.new.items
        ≡ map contents files.old.items ++ map new_contents (made_files (edit.now ∷ []))) }
    ensures front { take (length files.old.items) files.new.items ≡ files.old.items }
{
    match edit {
        ResolvedEdit::New { node, kind, .. } => add_file(files, *node, *kind),
        ResolvedEdit::Insert { .. }
        | ResolvedEdit::Delete { .. }
        | ResolvedEdit::Rename { .. }
        | ResolvedEdit::Move { .. }
        | ResolvedEdit::Remove { .. } => Ok(()),
    }
}

// Adds a node without lines, if it is a file.
fn add_file(files: &mut Vec<FilePart>, node: NodeNo, kind: Kind) -> Result<(), Memory>
    ensures ok { OnOk result (map contents files.new.items ≡
        map contents files.old.items ++ map new_contents (cons_option (if_file kind node) [])) }
    ensures front { take (length files.old.items) files.new.items ≡ files.old.items }
{
    match kind {
        Kind::File => {
            let lines = FileLines::new(*files.allocator());
            files.push(FilePart { node, lines })?;
            Ok(())
        }
        Kind::Dir => Ok(()),
    }
}

/// Makes room in each file for what an edit does to it, by the nodes of a table.
pub(crate) fn add_room_for(
    files: &mut [FilePart],
    table: &Table,
    edit: &ResolvedEdit,
) -> Result<(), Memory>
    requires rising { AreRising (map part_node files.old) }
    ensures same { map contents files.new ≡ map contents files.old }
    ensures room { OnOk result (Expects edit.now files.old files.new) }
{
    match edit {
        ResolvedEdit::New { .. }
        | ResolvedEdit::Rename { .. }
        | ResolvedEdit::Move { .. }
        | ResolvedEdit::Remove { .. } => Ok(()),
        ResolvedEdit::Insert { file, vis, .. } => expect_insert(files, *file, table, *vis),
        ResolvedEdit::Delete { file, line, vis } => {
            expect_delete(files, *file, *line, table, *vis)
        }
    }
}

// Makes room for one line more of a file.
fn expect_insert(
    files: &mut [FilePart],
    file: NodeNo,
    table: &Table,
    vis: Node,
) -> Result<(), Memory>
    requires rising { AreRising (map part_node files.old) }
    ensures same { map contents files.new ≡ map contents files.old }
    ensures room { OnOk result (ExpectsInsert file files.old files.new) }
{
    match index_of(files, file) {
        Some(at) => files[at].expect_insert(table, vis),
        None => Ok(()),
    }
}

// Makes room for another visibility of a line of a file.
fn expect_delete(
    files: &mut [FilePart],
    file: NodeNo,
    line: LineNo,
    table: &Table,
    vis: Node,
) -> Result<(), Memory>
    requires rising { AreRising (map part_node files.old) }
    ensures same { map contents files.new ≡ map contents files.old }
    ensures room { OnOk result (ExpectsDelete file line files.old files.new) }
{
    match index_of(files, file) {
        Some(at) => files[at].expect_delete(line, table, vis),
        None => Ok(()),
    }
}

/// What was expected of the file with a node is no longer.
pub(crate) fn expect_nothing_in(files: &mut [FilePart], file: NodeNo)
    requires rising { AreRising (map part_node files.old) }
    ensures { map contents files.new ≡ map contents files.old }
{
    match index_of(files, file) {
        Some(at) => files[at].expect_nothing(),
        None => (),
    }
}
