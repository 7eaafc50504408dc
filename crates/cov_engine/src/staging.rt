// What a commit adds to what is kept. It is added before the commit is installed, all but what it does to the lines of files,
// for which there is room then; where the commit is given up, it is cut off again.
ghost use Rattle.std.specs.Prelude.{◌≡◌, ◌<◌, ◌≤◌, ◌++◌, [], ◌∷◌, length, map, take, OnOk, OnErr};
ghost use Rattle.std.specs.List.{AllByRecursion};
ghost use Rattle.cov_base.specs.declared.limits.TheConstants.{LIMITS};
ghost use Rattle.cov_edit.specs.Touched.{AreRising};
ghost use Rattle.cov_visible.specs.Parts.{part_node};
ghost use Rattle.cov_visible.specs.Staging.{contents, new_contents, made_files, files_of_lines, HasRoom};
ghost use Rattle.cov_tree.specs.Dated.{HasRoom as HasRowRoom, without_room};
ghost use Rattle.cov_visible.specs.RowPlans.{IsSet};
ghost use Rattle.cov_visible.specs.Carrying.{CanCarryOutAll, AreInstalled};

use crate::Visible;
use crate::history_index::HistoryIndex;
use cov_base::{Memory, NodeNo, Position};
use cov_overtaking::CommitMark;
use cov_tree::{Entries, EntryPlan};
use cov_visible::ResolvedEdit;
use std::collections::VecDeque;

/// Adds the files of the lines that a commit's edits insert.
pub(crate) fn stage_files_of_lines(
    file_of_line: &mut Vec<NodeNo>,
    edits: &[ResolvedEdit],
) -> Result<(), Memory>
    ensures ok { OnOk result (file_of_line.new.items ≡
        file_of_line.old.items ++ files_of_lines edits.now) }
    ensures front { take (length file_of_line.old.items) file_of_line.new.items ≡
        file_of_line.old.items }
{
    let mut ahead = edits;
    while let [edit, rest @ ..] = ahead {
        stage_file_of_line(file_of_line, edit)?;
        ahead = rest;
    }
    Ok(())
}

fn stage_file_of_line(file_of_line: &mut Vec<NodeNo>, edit: &ResolvedEdit) -> Result<(), Memory>
    ensures ok { OnOk result (file_of_line.new.items
        ≡ file_of_line.old.items ++ files_of_lines (edit.now ∷ [])) }
    ensures err { OnErr result (file_of_line.new.items ≡ file_of_line.old.items) }
{
    match edit {
        ResolvedEdit::Insert { file, .. } => {
            file_of_line.push(*file)?;
            Ok(())
        }
        ResolvedEdit::New { .. }
        | ResolvedEdit::Delete { .. }
        | ResolvedEdit::Rename { .. }
        | ResolvedEdit::Move { .. }
        | ResolvedEdit::Remove { .. } => Ok(()),
    }
}

/// Adds what a commit's edits make, up to a last node, and makes room for what they do to files and for the commit. On `Err` some of
/// it may be there.
pub(crate) fn stage(
    index: &mut HistoryIndex,
    visible: &mut Visible,
    rows: &EntryPlan,
    last: NodeNo,
    edits: &[ResolvedEdit],
) -> Result<(), Memory>
    requires rising { AreRising (map part_node visible.old.files ++ made_files edits.now) }
    requires few { length edits.now ≤ LIMITS.edits }
    ensures commits { index.new.commits.items ≡ index.old.commits.items }
    ensures entries { without_room visible.new.entries ≡ without_room visible.old.entries }
    ensures file_of_line { OnOk result (index.new.file_of_line.items
        ≡ index.old.file_of_line.items ++ files_of_lines edits.now) }
    ensures files { OnOk result (map contents visible.new.files
        ≡ map contents visible.old.files ++ map new_contents (made_files edits.now)) }
    ensures room { OnOk result (AllByRecursion (HasRoom edits.now) visible.new.files) }
    ensures row_room { OnOk result (HasRowRoom rows.now visible.new.entries) }
    ensures commit_room { OnOk result (0 < index.new.commits.spare) }
    ensures front_file_of_line { take (length index.old.file_of_line.items)
        index.new.file_of_line.items ≡ index.old.file_of_line.items }
    ensures table { visible.new.table ≡ visible.old.table }
    ensures front_files { map contents (take (length visible.old.files) visible.new.files) ≡
        map contents visible.old.files }
{
    index.commits.reserve(last)?;
    visible.entries.reserve(rows)?;
    stage_files_of_lines(&mut index.file_of_line, edits)?;
    visible.files.stage(edits)?;
    visible.files.add_rooms(&visible.table, edits)
}

/// Cuts off what a commit made behind so many files and lines; it touches these nodes.
pub(crate) fn unstage(
    index: &mut HistoryIndex,
    visible: &mut Visible,
    files: usize,
    lines: u32,
    touched: &[NodeNo],
)
    requires rising { AreRising (map part_node (take files visible.old.files)) }
    ensures table { visible.new.table ≡ visible.old.table }
    ensures commits { index.new.commits.items ≡ index.old.commits.items }
    ensures entries { visible.new.entries ≡ visible.old.entries }
    ensures file_of_line { index.new.file_of_line.items ≡ take lines index.old.file_of_line.items }
    ensures files { map contents visible.new.files ≡ map contents (take files visible.old.files) }
{
    index.file_of_line.truncate(lines as usize);
    visible.files.truncate(files);
    visible.files.expect_nothing(touched, files);
}

/// Installs a commit that is staged: carries out its edits, makes its changes of rows, and keeps its mark. The files that it makes
/// stand from a place on.
pub(crate) fn install(
    index: &mut HistoryIndex,
    visible: &mut Visible,
    first: usize,
    edits: Vec<ResolvedEdit>,
    rows: EntryPlan,
    mark: CommitMark,
)
    requires rising { AreRising (map part_node visible.old.files) }
    requires can { CanCarryOutAll mark.position edits.items visible.old.files }
    requires later { visible.old.entries.from ≤ mark.position }
    requires row_room { HasRowRoom rows visible.old.entries }
    requires room { 0 < index.old.commits.spare }
    ensures commits { index.new.commits.items ≡ index.old.commits.items ++ mark ∷ [] }
    ensures entries { IsSet mark.position rows visible.old.entries visible.new.entries }
    ensures file_of_line { index.new.file_of_line.items ≡ index.old.file_of_line.items }
    ensures table { visible.new.table ≡ visible.old.table }
    ensures files { AreInstalled mark.position edits.items visible.old.files visible.new.files }
{
    visible
        .files
        .carry_out_all(VecDeque::from(edits), mark.position);
    visible.files.expect_nothing(mark.touched.as_slice(), first);
    set_rows(&mut visible.entries, rows, mark.position);
    index.commits.push(mark);
}

// Makes the changes of a plan from a position on.
fn set_rows(entries: &mut Entries, rows: EntryPlan, at: Position)
    requires later { entries.old.from ≤ at }
    requires room { HasRowRoom rows entries.old }
    ensures { IsSet at rows entries.old entries.new }
{
    entries.install(rows, at);
}
