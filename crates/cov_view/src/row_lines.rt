// The lines of one file of a view.
ghost use Rattle.std.specs.Prelude.{◌≡◌, ◌++◌, [], true, map, IfOk, OnOk, OnErr};
ghost use Rattle.cov_view.specs.Lines.{is_among, after_ref, without_ref, old_line};
ghost use Rattle.cov_view.specs.SeenTree.{ended_lines};

use crate::adding::old_lines;
use crate::held::Held;
use crate::placed_lines::PlacedLines;
use crate::{ViewLine, ViewLines, line};
use cov_base::{LineRef, Memory, SharedRows, Text};
use std::alloc::Global;
use std::marker::Model;

/// The lines of a file, in order. They are shared until one is put among them, and from then on named by their places.
#[derive(Debug)]
pub(crate) struct RowLines {
    lines: Lines,
}

/// Lines with one owner, lines with several that don't change them, or those of both.
#[derive(Debug, Drop)]
enum Lines {
    Own(ViewLines),
    Shared(Held),
    Placed(PlacedLines),
}

impl Model for RowLines {
    ghost use Rattle.std.specs.Prelude.{List};
    ghost use Rattle.cov_view.specs.Owning.{lines_of};
    ghost use Rattle.cov_view.specs.declared.line.ViewLine.{ViewLine};

    ghost Value = { List ViewLine };

    ghost view = { λ r. lines_of r.lines };
}

// They are dropped by a call, so that whoever drops a row needn't know how its lines are owned.
impl Drop for RowLines {
    fn drop(self) {
        let RowLines { lines } = self;
        drop(lines);
    }
}

impl RowLines {
    pub(crate) fn new(alloc: Global) -> RowLines
        ensures { result ≡ [] }
    {
        RowLines {
            lines: Lines::Own(ViewLines::new(alloc)),
        }
    }

    /// The same lines, which share their texts.
    pub(crate) fn copied(&self) -> Result<ViewLines, Memory>
        ensures { IfOk result (λ copy. copy ≡ self.now) }
    {
        match &self.lines {
            Lines::Own(own) => line::copied(own),
            Lines::Shared(held) => held.copied(),
            Lines::Placed(placed) => placed.copied(),
        }
    }

    /// Appends their bytes, with the end of each.
    pub(crate) fn append_text(&self, text: &mut Text) -> Result<(), Memory>
        ensures { OnOk result (text.new ≡ text.old ++ ended_lines self.now) }
    {
        match &self.lines {
            Lines::Own(own) => line::append_text(own, text),
            Lines::Shared(held) => held.append_text(text),
            Lines::Placed(placed) => placed.append_text(text),
        }
    }

    /// Whether a line is one of them.
    pub(crate) fn has(&self, line: &LineRef) -> bool
        ensures { result ≡ is_among line.now self.now }
    {
        match &self.lines {
            Lines::Own(own) => line::is_among(own.as_slice(), line),
            Lines::Shared(held) => held.has(line),
            Lines::Placed(placed) => placed.has(line),
        }
    }

    /// Appends all the lines or none.
    pub(crate) fn append(&mut self, lines: ViewLines) -> Result<(), Memory>
        ensures ok { OnOk result (self.new ≡ self.old ++ lines) }
        ensures err { OnErr result (self.new ≡ self.old) }
    {
        if let Lines::Own(own) = &mut self.lines {
            return own.append(lines);
        }
        let mut own = self.copied()?;
        own.append(lines)?;
        self.lines = Lines::Own(own);
        Ok(())
    }

    /// Appends shared lines, all or none. Where there were none, they stay shared.
    pub(crate) fn share(&mut self, lines: SharedRows) -> Result<(), Memory>
        ensures ok { OnOk result (self.new ≡ self.old ++ map old_line lines) }
        ensures err { OnErr result (self.new ≡ self.old) }
    {
        if self.has_none() {
            self.lines = Lines::Shared(Held::new(lines)?);
            return Ok(());
        }
        let more = old_lines(lines.lend())?;
        self.append(more)
    }

    // Whether there are none, or it isn't known.
    fn has_none(&self) -> bool
        ensures { result ≡ true → self.now ≡ [] }
    {
        match &self.lines {
            Lines::Own(own) => own.is_empty(),
            Lines::Shared(_) => false,
            Lines::Placed(_) => false,
        }
    }

    /// Puts a line directly after its anchor, or first where that is the head.
    pub(crate) fn insert_after(&mut self, after: &LineRef, line: ViewLine) -> Result<(), Memory>
        ensures ok { OnOk result (self.new ≡ after_ref after.now line self.old) }
        ensures err { OnErr result (self.new ≡ self.old) }
    {
        let placed = match &mut self.lines {
            Lines::Own(own) => return line::insert_after(own, after, line),
            Lines::Placed(placed) => return placed.insert_after(after, line),
            Lines::Shared(held) => held.with_line(after, line)?,
        };
        self.lines = Lines::Placed(placed);
        Ok(())
    }

    /// Takes a line out, without memory and in one pass over the lines.
    pub(crate) fn delete(&mut self, line: &LineRef)
        ensures { self.new ≡ without_ref line.now self.old }
    {
        match &mut self.lines {
            Lines::Own(own) => line::delete(own, line),
            Lines::Shared(held) => held.delete(line),
            Lines::Placed(placed) => placed.delete(line),
        }
    }
}
