// What is made ready for a command.
ghost use Rattle.std.specs.Prelude.{◌≡◌, ◌<◌, ◌≤◌, ◌++◌, length, map, OnOk, OnErr};
ghost use Rattle.std.specs.List.{AllByRecursion};
ghost use Rattle.cov_base.specs.declared.limits.TheConstants.{LIMITS};
ghost use Rattle.cov_edit.specs.Touched.{AreRising};
ghost use Rattle.cov_tree.specs.Dated.{HasRoom as HasRowRoom, without_room};
ghost use Rattle.cov_visible.specs.Parts.{part_node};
ghost use Rattle.cov_visible.specs.Staging.{contents, new_contents, made_files, files_of_lines, HasRoom};

use crate::history_index::HistoryIndex;
use crate::staging::{stage, unstage};
use crate::{Counts, Visible};
use cov_base::{Memory, NodeNo, OptionName};
use cov_overtaking::CommitMark;
use cov_rules::{Rule, RulePlan};
use cov_tree::EntryPlan;
use cov_visible::ResolvedEdit;

/// What is ready for a command that is accepted.
#[derive(Drop)]
pub(crate) enum Addition {
    /// The name of the option, for which there is room.
    Option {
        name: OptionName,
    },
    /// The rule, for which there is room.
    Rule {
        rule: Rule,
        plan: RulePlan,
    },
    /// What is to be kept of the commit, the counts with it, its edits by numbers, and the plan of its rows. What it makes is staged.
    Commit {
        mark: CommitMark,
        counts: Counts,
        edits: Vec<ResolvedEdit>,
        rows: EntryPlan,
    },
    /// Nothing: an upgrade takes no room but that of its command.
    Upgrade,
}

/// Stages what a commit's edits make, up to a last node, so many lines being there before; on `Err` nothing of it is there. It
/// touches these nodes.
pub(crate) fn stage_commit(
    index: &mut HistoryIndex,
    visible: &mut Visible,
    rows: &EntryPlan,
    lines: u32,
    last: NodeNo,
    touched: &[NodeNo],
    edits: &[ResolvedEdit],
) -> Result<(), Memory>
    requires lines { lines ≡ length index.old.file_of_line.items }
    requires rising { AreRising (map part_node visible.old.files ++ made_files edits.now) }
    requires few { length edits.now ≤ LIMITS.edits }
    ensures table { visible.new.table ≡ visible.old.table }
    ensures commits { index.new.commits.items ≡ index.old.commits.items }
    ensures entries { without_room visible.new.entries ≡ without_room visible.old.entries }
    ensures file_of_line { OnOk result (index.new.file_of_line.items
        ≡ index.old.file_of_line.items ++ files_of_lines edits.now) }
    ensures files { OnOk result (map contents visible.new.files
        ≡ map contents visible.old.files ++ map new_contents (made_files edits.now)) }
    ensures room { OnOk result (AllByRecursion (HasRoom edits.now) visible.new.files) }
    ensures row_room { OnOk result (HasRowRoom rows.now visible.new.entries) }
    ensures commit_room { OnOk result (0 < index.new.commits.spare) }
    ensures same_file_of_line { OnErr result (index.new.file_of_line.items ≡
        index.old.file_of_line.items) }
    ensures same_files { OnErr result (map contents visible.new.files ≡
        map contents visible.old.files) }
{
    let files = visible.files.len();
    match stage(index, visible, rows, last, edits) {
        Ok(()) => Ok(()),
        Err(Memory) => {
            unstage(index, visible, files, lines, touched);
            Err(Memory)
        }
    }
}
