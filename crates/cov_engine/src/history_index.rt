// Which file each line is in, and the commits.
ghost use Rattle.std.specs.Prelude.{◌≡◌, map};
ghost use Rattle.std.specs.Option.{option_copied};
ghost use Rattle.cov_edit.specs.Touched.{AreRising};
ghost use Rattle.cov_visible.specs.Parts.{part_node};
ghost use Rattle.cov_engine.specs.Visibility.{item_of, stored_file_of};

use crate::{FilePart, Visible};
use cov_base::{LineNo, NodeNo};
use cov_overtaking::Commits;
use cov_visible::part_of;

/// The commits, and the file of each line by number.
#[derive(Drop)]
pub(crate) struct HistoryIndex {
    pub(crate) commits: Commits,
    pub(crate) file_of_line: Vec<NodeNo>,
}

/// The file of a line.
pub(crate) fn file_of<'a>(
    index: &HistoryIndex,
    visible: &'a Visible,
    line: LineNo,
) -> Option<&'a FilePart>
    requires rising { AreRising (map part_node visible.now.files) }
    ensures { option_copied result ≡
        stored_file_of visible.now.files (item_of index.now.file_of_line.items line) }
{
    match item_of(&index.file_of_line, line.number() as usize) {
        Some(file) => part_of(visible.files.as_slice(), *file),
        None => None,
    }
}

/// The item with a number, from 1.
pub(crate) fn item_of<X>(items: &[X], number: usize) -> Option<&X>
    ensures { option_copied result ≡ item_of items.now number }
{
    match number {
        0 => None,
        number => items.get(number - 1),
    }
}
