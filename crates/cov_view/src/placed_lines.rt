// Shared lines of a file with a view's own among them.
ghost use Rattle.std.specs.Prelude.{◌≡◌, ℕ, ◌<◌, ◌≤◌, ◌+◌, ◌∷◌, ◌++◌, [], length, position, vec_capacity, IfOk, IfSome, OnOk, OnErr, if◌then◌else◌};
ghost use Rattle.std.specs.List.{insert, list_any};
ghost use Rattle.cov_view.specs.AtPlaces.{joined, line_at, at_places, after_place, without_place, AreWithin};
ghost use Rattle.cov_view.specs.Held.{left};
ghost use Rattle.cov_view.specs.Lines.{is_among, after_ref, without_ref};
ghost use Rattle.cov_view.specs.References.{same_line};
ghost use Rattle.cov_view.specs.SeenTree.{ended_lines};

use crate::adding::old_line;
use crate::held::{is_gone, is_line};
use crate::line::{append_line, is_head, same_line};
use crate::{ViewLine, ViewLines};
use cov_base::{FileRow, LineNo, LineRef, Memory, SharedRows, Text};
use std::alloc::Global;
use std::marker::Model;

/// Lines that are named by their places: first those of shared lines, and behind these those of a view's own. So to put one among
/// them copies four bytes a line, and no line. An own line that was taken out keeps its place until the view goes.
#[derive(Debug, Drop)]
pub(crate) struct PlacedLines {
    rows: SharedRows,
    own: ViewLines,
    places: Vec<u32>,
}

impl Model for PlacedLines {
    ghost use Rattle.std.specs.Prelude.{List};
    ghost use Rattle.cov_view.specs.AtPlaces.{joined, at_places, AreWithin};
    ghost use Rattle.cov_view.specs.declared.line.ViewLine.{ViewLine};

    ghost Value = { List ViewLine };

    ghost view = { λ p. at_places (joined p.rows p.own) p.places.items };

    ghost invariant = { λ p. AreWithin (joined p.rows p.own) p.places.items };
}

impl PlacedLines {
    /// The lines that are left of shared ones, with room for the place of another.
    pub(crate) fn new(rows: SharedRows, gone: &[bool]) -> Result<PlacedLines, Memory>
        ensures { IfOk result (λ placed. placed ≡ left rows gone.now) }
    {
        let lines = rows.lend();
        let alloc = lines.allocator();
        let places = places_left(alloc, lines.as_slice(), gone)?;
        Ok(PlacedLines {
            rows,
            own: ViewLines::new(alloc),
            places,
        })
    }

    /// The same lines, which share their texts.
    pub(crate) fn copied(&self) -> Result<ViewLines, Memory>
        ensures { IfOk result (λ copy. copy ≡ self.now) }
    {
        let rows = self.rows.lend();
        let own = self.own.as_slice();
        let mut copy = ViewLines::new(rows.allocator());
        'places: for place in self.places.as_slice() {
            copy.push(copy_at(rows.allocator(), rows.as_slice(), own, *place)?)?;
        }
        Ok(copy)
    }

    /// Appends their bytes, with the end of each.
    pub(crate) fn append_text(&self, text: &mut Text) -> Result<(), Memory>
        ensures { OnOk result (text.new ≡ text.old ++ ended_lines self.now) }
    {
        let rows = self.rows.lend().as_slice();
        let own = self.own.as_slice();
        let mut ahead = self.places.as_slice();
        while let [first, rest @ ..] = ahead {
            append_at(text, rows, own, *first)?;
            ahead = rest;
        }
        Ok(())
    }

    /// Whether a line is one of them.
    pub(crate) fn has(&self, line: &LineRef) -> bool
        ensures { result ≡ is_among line.now self.now }
    {
        let rows = self.rows.lend().as_slice();
        let own = self.own.as_slice();
        is_placed(rows, own, self.places.as_slice(), line)
    }

    /// Puts a line directly after its anchor, or first where that is the head. `Memory` comes also where its place wouldn't fit.
    pub(crate) fn insert_after(&mut self, after: &LineRef, line: ViewLine) -> Result<(), Memory>
        ensures ok { OnOk result (self.new ≡ after_ref after.now line self.old) }
        ensures err { OnErr result (self.new ≡ self.old) }
    {
        let rows = self.rows.lend().as_slice();
        let at = index_behind(rows, self.own.as_slice(), self.places.as_slice(), after);
        let Some(place) = next_place(rows.len(), self.own.len()) else {
            return Err(Memory);
        };
        self.own.push(line)?;
        self.places.insert(at, place)?;
        Ok(())
    }

    /// Takes a line out, without memory and in one pass over the places.
    pub(crate) fn delete(&mut self, line: &LineRef)
        ensures { self.new ≡ without_ref line.now self.old }
    {
        let rows = self.rows.lend().as_slice();
        let own = self.own.as_slice();
        take_out(rows, own, &mut self.places, line);
    }
}

// The places of the lines that are left, with room for another.
fn places_left(alloc: Global, rows: &[FileRow], gone: &[bool]) -> Result<Vec<u32>, Memory>
    ensures left { IfOk result (λ places.
        at_places (joined rows.now []) places.items ≡ left rows.now gone.now) }
    ensures within { IfOk result (λ places. AreWithin (joined rows.now []) places.items) }
{
    let Ok(count) = u32::try_from(rows.len()) else {
        return Err(Memory);
    };
    let mut places = Vec::with_capacity(alloc, rows.len() + 1)?;
    let mut place = 0;
    while place < count {
        add_place(&mut places, place, is_gone(gone, place as usize));
        place += 1;
    }
    Ok(places)
}

// Adds the place of a line that wasn't taken out.
fn add_place(places: &mut Vec<u32>, place: u32, is_gone: bool)
    requires { length places.old.items < vec_capacity places.old }
    ensures items { places.new.items ≡
        places.old.items ++ (if is_gone then [] else place ∷ []) }
    ensures capacity { vec_capacity places.new ≡ vec_capacity places.old }
{
    if is_gone {
        return;
    }
    places.push_reserved(place);
}

// The place behind shared lines and so many of a view's own.
fn next_place(rows: usize, own: usize) -> Option<u32>
    ensures { IfSome result (λ place. place ≡ rows + own) }
{
    match rows.checked_add(own) {
        Some(place) => u32::try_from(place).ok(),
        None => None,
    }
}

// The index at which a line directly after an anchor stands.
fn index_behind(rows: &[FileRow], own: &[ViewLine], places: &[u32], after: &LineRef) -> usize
    ensures place { (new : ℕ) → insert places.now result new ≡
        after_place (joined rows.now own.now) after.now new places.now }
    ensures within { result ≤ length places.now }
{
    if is_head(after) {
        return 0;
    }
    match find(rows, own, places, after) {
        Some(at) => at + 1,
        None => places.len(),
    }
}

fn find(rows: &[FileRow], own: &[ViewLine], places: &[u32], line: &LineRef) -> Option<usize>
    ensures place { result ≡
        position (λ p. same_line (line_at (joined rows.now own.now) p).line line.now) places.now }
    ensures within { IfSome result (λ at. at < length places.now) }
{
    places
        .iter()
        .position(|place| is_at(rows, own, *place, line))
}

fn is_placed(rows: &[FileRow], own: &[ViewLine], places: &[u32], line: &LineRef) -> bool
    ensures { result ≡
        list_any (λ p. same_line (line_at (joined rows.now own.now) p).line line.now) places.now }
{
    places.iter().any(|place| is_at(rows, own, *place, line))
}

// Takes the place of a line out.
fn take_out(rows: &[FileRow], own: &[ViewLine], places: &mut Vec<u32>, line: &LineRef)
    ensures { places.new.items ≡
        without_place (joined rows.now own.now) line.now places.old.items }
{
    places.retain(|place| !is_at(rows, own, *place, line));
}

// Whether the line at a place is one. Behind all lines there is the head.
fn is_at(rows: &[FileRow], own: &[ViewLine], place: u32, line: &LineRef) -> bool
    ensures { result ≡ same_line (line_at (joined rows.now own.now) place).line line.now }
{
    let at = place as usize;
    if at < rows.len() {
        return is_line(&rows[at], line);
    }
    match own.get(at - rows.len()) {
        Some(other) => same_line(&other.line, line),
        None => is_head(line),
    }
}

// The line at a place, which shares its text.
fn copy_at(
    alloc: Global,
    rows: &[FileRow],
    own: &[ViewLine],
    place: u32,
) -> Result<ViewLine, Memory>
    ensures { IfOk result (λ line. line ≡ line_at (joined rows.now own.now) place) }
{
    let at = place as usize;
    if at < rows.len() {
        return old_line(&rows[at]);
    }
    match own.get(at - rows.len()) {
        Some(line) => line.copy(),
        None => Ok(ViewLine {
            line: LineRef::Old(LineNo::new(0)),
            text: Text::new(alloc),
        }),
    }
}

// Appends the bytes of the line at a place.
fn append_at(text: &mut Text, rows: &[FileRow], own: &[ViewLine], place: u32) -> Result<(), Memory>
    ensures { OnOk result (text.new ≡
        text.old ++ ended_lines (line_at (joined rows.now own.now) place ∷ [])) }
{
    let at = place as usize;
    if at < rows.len() {
        return append_line(text, rows[at].text.as_slice());
    }
    match own.get(at - rows.len()) {
        Some(line) => append_line(text, line.text.as_slice()),
        None => text.push(10),
    }
}
