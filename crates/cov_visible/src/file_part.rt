// The lines of one file.
ghost use Rattle.std.specs.Prelude.{◌≡◌, ◌≤◌, ◌<◌, ◌+◌, ◌-◌, ◌^◌, ◌++◌, ◌∷◌, [], ℕ, length, take, drop, OnOk};
ghost use Rattle.cov_file.specs.Dated.{line_numbers_of};
ghost use Rattle.cov_file.specs.Rooms.{IsMade};
ghost use Rattle.cov_visible.specs.Staging.{contents};
ghost use Rattle.cov_visible.specs.Renumbered.{kept_nodes, IsRenumberedPart};
ghost use Rattle.cov_visible.specs.Carrying.{CanInsert, CanDelete, IsInserted, IsChanged};

use cov_base::{Choice, LineNo, Memory, NodeNo, Position, Text};
use cov_dd::{Node, Nodes, Table};
use cov_file::FileLines;

/// The lines ever inserted into a file. Something is expected of them only while a commit is staged.
#[derive(Drop)]
pub struct FilePart {
    pub node: NodeNo,
    pub lines: FileLines,
}

impl FilePart {
    /// Makes room for one line more, with a node.
    pub(crate) fn expect_insert(&mut self, table: &Table, vis: Node) -> Result<(), Memory>
        ensures same { contents self.new ≡ contents self.old }
        ensures inserts { (count : ℕ) → count ≤ self.old.lines.coming.inserts + 1 →
            count < 2 ^ 32 - 1 → count ≤ self.new.lines.coming.inserts }
        ensures deletes { self.new.lines.coming.deletes ≡ self.old.lines.coming.deletes }
        ensures room { OnOk result
            (IsMade self.new.lines.room (line_numbers_of self.new.lines.lines)
            self.new.lines.coming.inserts self.new.lines.coming.deletes) }
    {
        self.lines.note(table, vis);
        self.lines.expect_insert()
    }

    /// Makes room for another visibility of a line.
    pub(crate) fn expect_delete(
        &mut self,
        line: LineNo,
        table: &Table,
        vis: Node,
    ) -> Result<(), Memory>
        ensures same { contents self.new ≡ contents self.old }
        ensures inserts { self.new.lines.coming.inserts ≡ self.old.lines.coming.inserts }
        ensures deletes { OnOk result (self.new.lines.coming.deletes ≡
            self.old.lines.coming.deletes ++ line ∷ []) }
        ensures room { OnOk result
            (IsMade self.new.lines.room (line_numbers_of self.new.lines.lines)
            self.new.lines.coming.inserts self.new.lines.coming.deletes) }
    {
        self.lines.note(table, vis);
        self.lines.expect_delete(line)
    }

    /// Nothing more is expected.
    pub(crate) fn expect_nothing(&mut self)
        ensures { contents self.new ≡ contents self.old }
    {
        self.lines.settle();
    }

    /// Keeps what it shows on a choice from the newest change on, as `FileLines::keep` does.
    pub(crate) fn keep(&mut self, table: &Table, choice: Choice)
        ensures { self.new ≡ self.old }
    {
        self.lines.keep(table, choice);
    }

    /// Puts a line directly after its anchor, with its visibility from a position on.
    pub(crate) fn insert(
        &mut self,
        anchor: LineNo,
        line: LineNo,
        text: Text,
        vis: Node,
        at: Position,
    )
        requires { CanInsert at anchor line self.old }
        ensures { IsInserted at anchor line text vis self.old self.new }
    {
        self.lines.insert(anchor, line, text, vis, at);
    }

    /// Gives a line another visibility from a position on.
    pub(crate) fn delete(&mut self, line: LineNo, vis: Node, at: Position)
        requires { CanDelete at line self.old }
        ensures { IsChanged at line vis self.old self.new }
    {
        self.lines.delete(line, vis, at);
    }

    /// Puts the nodes of a list from a place on in the places of those that the lines keep, and answers the place after the last.
    pub(crate) fn renumber(&mut self, from: &Nodes, first: u64) -> u64
        requires { first + length (kept_nodes self.old) ≤ length from.now }
        ensures next { result ≡ first + length (kept_nodes self.old) }
        ensures nodes { kept_nodes self.new ≡
            take (length (kept_nodes self.old)) (drop first from.now) }
        ensures part { IsRenumberedPart self.old self.new }
    {
        self.lines.renumber(from, first)
    }
}
