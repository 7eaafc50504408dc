// A page of lines.
ghost use Rattle.std.specs.Prelude.{◌≡◌, ◌<◌, ◌≤◌, ℕ, [], nat_eq, nat_le, length, position, take, drop, IfOk};
ghost use Rattle.std.specs.List.{insert};
ghost use Rattle.cov_base.specs.Addresses.{after_anchor};
ghost use Rattle.cov_order.specs.Orders.{has_line};

use cov_base::{LineNo, Memory};
use std::alloc::Global;
use std::marker::Model;

/// The most lines of a page.
pub(crate) const MOST_LINES: usize = 256;

/// Half of them, with which a page is left that was split.
pub(crate) const HALF: usize = 128;

/// Lines that stand together, at most `MOST_LINES`. It has room for as many from its start.
#[derive(Drop)]
pub(crate) struct Page {
    lines: Vec<LineNo>,
}

impl Model for Page {
    ghost use Rattle.std.specs.Prelude.{List, ℕ, ◌≤◌, vec_len, vec_capacity};
    ghost use Rattle.cov_order.specs.declared.page.TheConstants.{MOST_LINES};

    ghost Value = { List ℕ };

    ghost view = { λ p. p.lines.items };

    ghost invariant = { λ p. (vec_len p.lines ≤ MOST_LINES) × (MOST_LINES ≤ vec_capacity p.lines) };
}

impl Page {
    pub(crate) fn new(alloc: Global) -> Result<Page, Memory>
        ensures { IfOk result (λ page. page ≡ []) }
    {
        let lines = Vec::with_capacity(alloc, MOST_LINES)?;
        Ok(Page { lines })
    }

    pub(crate) fn is_full(&self) -> bool
        ensures full { result ≡ nat_le MOST_LINES (length self.now) }
        ensures most { length self.now ≤ MOST_LINES }
    {
        self.lines.len() >= MOST_LINES
    }

    pub(crate) fn lines(&self) -> &[LineNo]
        ensures { result.now ≡ self.now }
    {
        self.lines.as_slice()
    }

    pub(crate) fn has(&self, line: LineNo) -> bool
        ensures { result ≡ has_line line self.now }
    {
        self.lines.iter().any(|other| *other == line)
    }

    /// Puts a line directly after its anchor, or first where the anchor is the head. It takes no memory.
    pub(crate) fn insert_after(&mut self, anchor: LineNo, line: LineNo)
        requires room { length self.old < MOST_LINES }
        ensures { self.new ≡ after_anchor anchor line self.old }
    {
        let at = place(&self.lines, anchor);
        match self.lines.insert(at, line) {
            Ok(()) => (),
            Err(_) => unreachable!(),
        }
    }

    /// Leaves the first half, and gives another page the rest in the place of its lines. It takes no memory.
    pub(crate) fn move_rest(&mut self, other: &mut Page)
        requires half { HALF ≤ length self.old }
        ensures first { self.new ≡ take HALF self.old }
        ensures rest { other.new ≡ drop HALF self.old }
    {
        other.lines.clear();
        match other.lines.extend_from_slice(&self.lines[HALF..]) {
            Ok(()) => (),
            Err(_) => unreachable!(),
        }
        self.lines.truncate(HALF);
    }
}

// The index at which a line directly after an anchor stands.
fn place(lines: &[LineNo], anchor: LineNo) -> usize
    ensures place { (line : ℕ) → insert lines.now result line ≡ after_anchor anchor line lines.now }
    ensures within { result ≤ length lines.now }
{
    if anchor.number() == 0 {
        return 0;
    }
    match find(lines, anchor) {
        Some(at) => at + 1,
        None => lines.len(),
    }
}

fn find(lines: &[LineNo], line: LineNo) -> Option<usize>
    ensures { result ≡ position (λ n. nat_eq n line) lines.now }
{
    lines.iter().position(|other| *other == line)
}
