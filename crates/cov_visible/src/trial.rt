// Edits that are tried on as much of a variant as they depend on.
ghost use Rattle.std.specs.Prelude.{◌≡◌, ◌≤◌, ◌<◌, ◌-◌, ◌^◌, true, false, length, map, Option, IfOk, OnOk};
ghost use Rattle.cov_base.specs.Rows.{AreOnce};
ghost use Rattle.cov_base.specs.declared.limits.TheConstants.{LIMITS};
ghost use Rattle.std.specs.List.{list_any};
ghost use Rattle.cov_edit.specs.Sides.{unsided};
ghost use Rattle.cov_edit.specs.Touched.{touched, AreRising};
ghost use Rattle.cov_history.specs.RowChanges.{changes_rows};
ghost use Rattle.cov_tree.specs.Dated.{rows_at};
ghost use Rattle.cov_view.specs.Seen.{kind_in, seen_fault};
ghost use Rattle.cov_view.specs.Views.{FaultBy};
ghost use Rattle.cov_visible.specs.Parts.{part_node};
ghost use Rattle.cov_visible.specs.Trying.{deleted_from, file_shows, has_tried, is_file, place_refused, place_tried, rows_changed, rows_for, seen_tried, takes, takes_rows, tried_after};

use crate::Visible;
use crate::places::part_of;
use crate::tried_rows::TriedRows;
use cov_base::{Choice, Kind, LineNo, LineRef, Memory, NodeNo, NodeNos, NodeRef, Position};
use cov_edit::{Edit, Edits};
use cov_tree::NodeRows;
use cov_view::{EditFault, is_head};
use indexmap::IndexSet;
use std::alloc::Global;
use std::marker::Model;

/// The first edit, from 0, that is refused on a choice at a position; the edits touch these old nodes, and are told to change rows or
/// not. It takes time in the edits and what they touch, and in the rows that are kept if an edit changes rows. Each line that an edit
/// names is looked up by itself, whatever else is in its file.
pub fn first_refused(
    alloc: Global,
    visible: &Visible,
    choice: Choice,
    at: Position,
    edits: &Edits,
    nodes: &NodeNos,
    changing: bool,
) -> Result<Option<u32>, Memory>
    requires nodes { nodes.now ≡ touched (unsided edits.now) }
    requires changing { changing ≡ list_any changes_rows (unsided edits.now) }
    requires rising { AreRising (map part_node visible.now.files) }
    requires once { AreOnce (rows_at visible.now.table choice at visible.now.entries) }
    requires few { length (unsided edits.now) ≤ LIMITS.edits }
    ensures { IfOk result (λ found. found ≡
        place_refused 0 (seen_tried visible.now choice at (unsided edits.now))
        (unsided edits.now)) }
{
    let rows = rows_tried(visible, choice, at, nodes, changing)?;
    let mut trial = Trial {
        rows: TriedRows::new(alloc, rows)?,
        made: Vec::new(alloc),
        deleted: IndexSet::new(alloc),
    };
    let sight = Sight {
        visible,
        choice,
        at,
    };
    trial.first_refused(&sight, edits.as_slice())
}

// The rows that edits are tried on which touch these nodes.
fn rows_tried(
    visible: &Visible,
    choice: Choice,
    at: Position,
    nodes: &NodeNos,
    changing: bool,
) -> Result<NodeRows, Memory>
    ensures { IfOk result (λ rows. rows ≡ rows_for visible.now choice at changing nodes.now) }
{
    match changing {
        true => visible.entries.rows_at(&visible.table, choice, at),
        false => visible
            .entries
            .rows_among(nodes.as_slice(), &visible.table, choice, at),
    }
}

// Where lines of before are looked up: what a choice shows at a position.
#[derive(Drop)]
struct Sight<'a> {
    visible: &'a Visible,
    choice: Choice,
    at: Position,
}

impl Sight<'_> {
    // Whether a file shows a line.
    fn shows(&self, file: NodeNo, line: LineNo) -> bool
        requires { AreRising (map part_node self.now.visible.now.files) }
        ensures { result ≡
            file_shows self.now.visible.now.table self.now.choice self.now.at
            self.now.visible.now.files file line }
    {
        match part_of(self.visible.files.as_slice(), file) {
            Some(part) => part
                .lines
                .is_visible(line, &self.visible.table, self.choice, self.at),
            None => false,
        }
    }
}

/// A line of before, with its file.
#[derive(Clone, Copy, PartialEq, Eq, Hash)]
struct OldLine {
    file: NodeNo,
    line: LineNo,
}

// The rows that edits are tried on, without lines, and what the edits so far did to lines: of each that they made its file, None where
// they deleted it again, and the lines of before that they deleted. So no line is ever looked for among others.
#[derive(Drop)]
struct Trial {
    rows: TriedRows,
    made: Vec<Option<NodeRef>>,
    deleted: IndexSet<OldLine>,
}

impl Model for Trial {
    ghost use Rattle.cov_visible.specs.Trying.{Trying};

    ghost Value = { Trying };

    ghost view = { λ t. record { rows = t.rows; made = t.made.items; deleted = t.deleted.keys } };
}

impl Trial {
    // The place of the first edit that isn't taken.
    fn first_refused(&mut self, sight: &Sight<'_>, edits: &[Edit]) -> Result<Option<u32>, Memory>
        requires rising { AreRising (map part_node sight.now.visible.now.files) }
        requires few { length edits.now ≤ LIMITS.edits }
        requires nodes { self.old.rows.nodes_made ≡ 0 }
        requires lines { self.old.rows.lines_made ≡ 0 }
        ensures { IfOk result (λ found. found ≡
            place_tried (file_shows sight.now.visible.now.table sight.now.choice sight.now.at
            sight.now.visible.now.files) 0 self.old edits.now) }
    {
        let mut index = 0;
        let mut ahead = edits;
        while let [edit, rest @ ..] = ahead {
            match self.takes(sight, edit)? {
                true => (),
                false => return Ok(Some(index)),
            }
            index += 1;
            ahead = rest;
        }
        Ok(None)
    }

    // Whether an edit is taken. Then it is done.
    fn takes(&mut self, sight: &Sight<'_>, edit: &Edit) -> Result<bool, Memory>
        requires rising { AreRising (map part_node sight.now.visible.now.files) }
        requires nodes { self.old.rows.nodes_made < 2 ^ 32 - 1 }
        requires lines { self.old.rows.lines_made < 2 ^ 32 - 1 }
        ensures taken { IfOk result (λ taken. taken ≡
            takes (file_shows sight.now.visible.now.table sight.now.choice sight.now.at
            sight.now.visible.now.files) self.old edit.now) }
        ensures done { IfOk result (λ taken. taken ≡ true → self.new ≡
            tried_after self.old edit.now) }
    {
        match edit {
            Edit::Insert { file, after, .. } => {
                let taken = self.is_file(file) && (is_head(after) || self.has(sight, file, after));
                if taken {
                    self.made.push(Some(*file))?;
                }
                Ok(taken)
            }
            Edit::Delete { file, line } => {
                let taken = self.is_file(file) && !is_head(line) && self.has(sight, file, line);
                if taken {
                    self.delete(file, line)?;
                }
                Ok(taken)
            }
            Edit::New { .. } | Edit::Rename { .. } | Edit::Move { .. } | Edit::Remove { .. } => {
                self.takes_rows(edit)
            }
        }
    }

    // Whether there is a file.
    fn is_file(&self, node: &NodeRef) -> bool
        ensures { result ≡ is_file (kind_in self.now.rows.rows node.now) }
    {
        match self.rows.kind(node) {
            Some(Kind::File) => true,
            Some(Kind::Dir) | None => false,
        }
    }

    // Whether a file has a line after the edits so far.
    fn has(&self, sight: &Sight<'_>, file: &NodeRef, line: &LineRef) -> bool
        requires rising { AreRising (map part_node sight.now.visible.now.files) }
        ensures { result ≡
            has_tried (file_shows sight.now.visible.now.table sight.now.choice sight.now.at
            sight.now.visible.now.files) self.now file.now line.now }
    {
        match (file, line) {
            (NodeRef::Old(file), LineRef::Old(line)) => {
                let old = OldLine {
                    file: *file,
                    line: *line,
                };
                sight.shows(*file, *line) && !self.deleted.contains(&old)
            }
            (NodeRef::New(_), LineRef::Old(_)) => false,
            (_, LineRef::New(number)) => match self.made.get(*number as usize) {
                Some(Some(other)) => *other == *file,
                Some(None) | None => false,
            },
        }
    }

    // Deletes a line that is there.
    fn delete(&mut self, file: &NodeRef, line: &LineRef) -> Result<(), Memory>
        ensures { OnOk result (self.new ≡ deleted_from self.old file.now line.now) }
    {
        match (file, line) {
            (NodeRef::Old(file), LineRef::Old(line)) => {
                self.deleted.insert(OldLine {
                    file: *file,
                    line: *line,
                })?;
            }
            (NodeRef::New(_), LineRef::Old(_)) => (),
            (_, LineRef::New(number)) => {
                if let Some(made) = self.made.get_mut(*number as usize) {
                    *made = None;
                }
            }
        }
        Ok(())
    }

    // Whether an edit of rows is taken. Then it is done.
    fn takes_rows(&mut self, edit: &Edit) -> Result<bool, Memory>
        requires nodes { self.old.rows.nodes_made < 2 ^ 32 - 1 }
        requires lines { self.old.rows.lines_made < 2 ^ 32 - 1 }
        ensures taken { IfOk result (λ taken. taken ≡
            takes_rows (seen_fault self.old.rows.rows edit.now)) }
        ensures done { IfOk result (λ taken. taken ≡ true → self.new ≡
            rows_changed self.old edit.now) }
    {
        let alloc = *self.made.allocator();
        if let Err(fault) = self.rows.apply(alloc, edit) {
            return not_taken(fault);
        }
        Ok(true)
    }
}

// An edit with a fault isn't taken, unless memory is wanting.
fn not_taken(fault: EditFault) -> Result<bool, Memory>
    ensures told { IfOk result (λ taken. (refused : Option EditFault) → FaultBy fault refused →
        taken ≡ takes_rows refused) }
    ensures not { IfOk result (λ taken. taken ≡ false) }
{
    match fault {
        EditFault::Memory => Err(Memory),
        EditFault::NoSuchNode
        | EditFault::NotFile
        | EditFault::NotDirectory
        | EditFault::NameTaken
        | EditFault::NotEmpty
        | EditFault::IntoItself
        | EditFault::IsRoot
        | EditFault::NoSuchLine => Ok(false),
    }
}
