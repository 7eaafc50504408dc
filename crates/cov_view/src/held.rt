// Shared lines of a file, and which of them a view doesn't show any more.
ghost use Rattle.std.specs.Prelude.{◌≡◌, ◌<◌, ◌≤◌, ◌-◌, ◌∷◌, ◌++◌, [], length, true, false, get_or, map, replicate, set, vec_capacity, IfOk, OnOk, if◌then◌else◌};
ghost use Rattle.cov_base.specs.declared.number.LineRef.TheVariants as lines;
ghost use Rattle.cov_view.specs.Held.{left};
ghost use Rattle.cov_view.specs.Lines.{is_among, after_ref, without_ref, old_line};
ghost use Rattle.cov_view.specs.References.{same_line};
ghost use Rattle.cov_view.specs.SeenTree.{ended_lines};

use crate::adding::old_line;
use crate::line::{append_line, same_line};
use crate::placed_lines::PlacedLines;
use crate::{ViewLine, ViewLines};
use cov_base::{FileRow, LineRef, Memory, SharedRows, Text};
use std::alloc::Global;
use std::marker::Model;

/// Lines of a history that several owners have, with a flag for each of the first so many that says whether it was taken out. The
/// flags take their room at once, so that taking a line out takes none; they are filled in when the first is.
#[derive(Debug, Drop)]
pub(crate) struct Held {
    rows: SharedRows,
    gone: Vec<bool>,
}

impl Model for Held {
    ghost use Rattle.std.specs.Prelude.{◌≤◌, List, length, vec_capacity};
    ghost use Rattle.cov_view.specs.Held.{left};
    ghost use Rattle.cov_view.specs.declared.line.ViewLine.{ViewLine};

    ghost Value = { List ViewLine };

    ghost view = { λ h. left h.rows h.gone.items };

    ghost invariant = { λ h. (length h.gone.items ≤ length h.rows) ×
        (length h.rows ≤ vec_capacity h.gone) };
}

impl Held {
    /// All of the lines. It takes room for a byte for each, and time that doesn't depend on them.
    pub(crate) fn new(rows: SharedRows) -> Result<Held, Memory>
        ensures { IfOk result (λ held. held ≡ map old_line rows) }
    {
        let lines = rows.lend();
        let gone = Vec::with_capacity(lines.allocator(), lines.len())?;
        Ok(Held { rows, gone })
    }

    /// The lines that are left, which share their texts.
    pub(crate) fn copied(&self) -> Result<ViewLines, Memory>
        ensures { IfOk result (λ copy. copy ≡ self.now) }
    {
        let rows = self.rows.lend();
        lines_left(rows.allocator(), rows.as_slice(), self.gone.as_slice())
    }

    /// Appends the bytes of the lines that are left, with the end of each.
    pub(crate) fn append_text(&self, text: &mut Text) -> Result<(), Memory>
        ensures { OnOk result (text.new ≡ text.old ++ ended_lines self.now) }
    {
        append_left(text, self.rows.lend().as_slice(), self.gone.as_slice())
    }

    /// Whether a line is left.
    pub(crate) fn has(&self, line: &LineRef) -> bool
        ensures { result ≡ is_among line.now self.now }
    {
        is_left(self.rows.lend().as_slice(), self.gone.as_slice(), line)
    }

    /// The lines that are left, with another directly after its anchor, or first where that is the head.
    pub(crate) fn with_line(&self, after: &LineRef, line: ViewLine) -> Result<PlacedLines, Memory>
        ensures { IfOk result (λ placed. placed ≡ after_ref after.now line self.now) }
    {
        let mut placed = PlacedLines::new(self.rows.share()?, self.gone.as_slice())?;
        placed.insert_after(after, line)?;
        Ok(placed)
    }

    /// Takes a line out, without memory and in one pass over the lines. Other owners still have it.
    pub(crate) fn delete(&mut self, line: &LineRef)
        ensures { self.new ≡ without_ref line.now self.old }
    {
        let rows = self.rows.lend().as_slice();
        fill(&mut self.gone, rows.len());
        take_out(rows, self.gone.as_mut_slice(), line);
    }
}

fn lines_left(alloc: Global, rows: &[FileRow], gone: &[bool]) -> Result<ViewLines, Memory>
    ensures { IfOk result (λ copy. copy ≡ left rows.now gone.now) }
{
    let mut copy = ViewLines::new(alloc);
    let mut index = 0;
    while index < rows.len() {
        add_left(&mut copy, &rows[index], is_gone(gone, index))?;
        index += 1;
    }
    Ok(copy)
}

// Adds a line that wasn't taken out.
fn add_left(copy: &mut ViewLines, row: &FileRow, is_gone: bool) -> Result<(), Memory>
    ensures { OnOk result (copy.new ≡
        copy.old ++ (if is_gone then [] else old_line row.now ∷ [])) }
{
    if is_gone {
        return Ok(());
    }
    copy.push(old_line(row)?)
}

fn append_left(text: &mut Text, rows: &[FileRow], gone: &[bool]) -> Result<(), Memory>
    ensures { OnOk result (text.new ≡ text.old ++ ended_lines (left rows.now gone.now)) }
{
    let mut index = 0;
    while index < rows.len() {
        append_if_left(text, &rows[index], is_gone(gone, index))?;
        index += 1;
    }
    Ok(())
}

// Appends the bytes of a line that wasn't taken out.
fn append_if_left(text: &mut Text, row: &FileRow, is_gone: bool) -> Result<(), Memory>
    ensures { OnOk result (text.new ≡
        text.old ++ ended_lines (if is_gone then [] else old_line row.now ∷ [])) }
{
    if is_gone {
        return Ok(());
    }
    append_line(text, row.text.as_slice())
}

fn is_left(rows: &[FileRow], gone: &[bool], line: &LineRef) -> bool
    ensures { result ≡ is_among line.now (left rows.now gone.now) }
{
    let mut index = 0;
    while index < rows.len() {
        if shows(&rows[index], is_gone(gone, index), line) {
            return true;
        }
        index += 1;
    }
    false
}

fn shows(row: &FileRow, is_gone: bool, line: &LineRef) -> bool
    ensures { result ≡ is_among line.now (if is_gone then [] else old_line row.now ∷ []) }
{
    if is_gone {
        return false;
    }
    is_line(row, line)
}

// Whether a line was taken out. One that has no flag wasn't.
pub(crate) fn is_gone(gone: &[bool], index: usize) -> bool
    ensures { result ≡ get_or gone.now index false }
{
    match gone.get(index) {
        Some(flag) => *flag,
        None => false,
    }
}

// Gives each of so many lines a flag, in the room that there is.
fn fill(gone: &mut Vec<bool>, count: usize)
    requires { count ≤ vec_capacity gone.old }
    ensures items { gone.new.items ≡
        gone.old.items ++ replicate (count - length gone.old.items) false }
    ensures capacity { vec_capacity gone.new ≡ vec_capacity gone.old }
{
    while gone.len() < count {
        gone.push_reserved(false);
    }
}

fn take_out(rows: &[FileRow], gone: &mut [bool], line: &LineRef)
    requires { length gone.old ≡ length rows.now }
    ensures left { left rows.now gone.new ≡ without_ref line.now (left rows.now gone.old) }
    ensures len { length gone.new ≡ length gone.old }
{
    let mut index = 0;
    while index < rows.len() {
        let is = is_line(&rows[index], line);
        mark(gone, index, is);
        index += 1;
    }
}

pub(crate) fn is_line(row: &FileRow, line: &LineRef) -> bool
    ensures { result ≡ same_line (lines.Old row.now.line) line.now }
{
    same_line(&LineRef::Old(row.line), line)
}

fn mark(gone: &mut [bool], index: usize, is: bool)
    requires { index < length gone.old }
    ensures { gone.new ≡ (if is then set gone.old index true else gone.old) }
{
    if is {
        gone[index] = true;
    }
}
