// The pages of an order, and the index of their lines.
ghost use Rattle.std.specs.Prelude.{◌≡◌, ◌<◌, ◌≤◌, ◌+◌, ◌-◌, ◌*◌, ◌/◌, ◌^◌, ◌++◌, ◌∷◌, ℕ, [], Bool, true, false, Some, nat_eq, min, length, drop, position, slice_get, vec_len, IfOk, OnOk, OnErr};
ghost use Rattle.std.specs.List.{insert, list_any};
ghost use Rattle.indexmap.specs.IndexMap.{get, spare};
ghost use Rattle.cov_base.specs.Addresses.{after_anchor, after_first};
ghost use Rattle.cov_order.specs.Orders.{has_line, is_anchor};
ghost use Rattle.cov_order.specs.Pages.{lines_on, lines_of, has_page, halved, crowding, moved, IsPageOf, IsPaged, HasRoom, Grows};

use crate::hash::LineHasher;
use crate::page::{HALF, Page};
use cov_base::{LineNo, LineNos, Memory};
use indexmap::IndexMap;
use std::alloc::Global;
use std::hash::BuildHasherDefault;

/// The numbers of the pages of lines.
type Index = IndexMap<LineNo, usize, BuildHasherDefault<LineHasher>>;

/// The lines of a file on pages. `sequence` has the numbers of the pages in the order of their lines, `index` the number of the
/// page of each line, and `empty` the pages to come.
#[derive(Drop)]
pub(crate) struct Pages {
    pages: Vec<Page>,
    sequence: Vec<usize>,
    index: Index,
    empty: Vec<Page>,
}

impl Pages {
    pub(crate) fn new(alloc: Global) -> Pages
        ensures paged { IsPaged result }
        ensures lines { lines_of result ≡ [] }
        ensures room { HasRoom result 0 }
    {
        Pages {
            pages: Vec::new(alloc),
            sequence: Vec::new(alloc),
            index: IndexMap::with_hasher(alloc, BuildHasherDefault::new()),
            empty: Vec::new(alloc),
        }
    }

    /// Makes room for `n` lines more, and keeps no more empty pages than these can want. It takes time in `n`, and now and then,
    /// where the index doubles, in the number of lines; where `n` is one more than at the last call, it makes one page at most.
    pub(crate) fn reserve(&mut self, n: u32) -> Result<(), Memory>
        requires paged { IsPaged self.old }
        ensures paged { IsPaged self.new }
        ensures lines { lines_of self.new ≡ lines_of self.old }
        ensures room { OnOk result (HasRoom self.new n) }
        ensures few { OnOk result (vec_len self.new.empty ≤
            min n (vec_len self.old.pages + n / 128)) }
        ensures kept { OnErr result ((m : ℕ) → HasRoom self.old m → HasRoom self.new m) }
    {
        let wanted = most_splits(self.pages.len(), n);
        self.grow(n, wanted)?;
        self.empty.truncate(wanted);
        Ok(())
    }

    // Makes room for `n` lines more, with so many empty pages or more.
    fn grow(&mut self, n: u32, wanted: usize) -> Result<(), Memory>
        requires paged { IsPaged self.old }
        ensures grows { Grows self.old self.new }
        ensures index { OnOk result (n ≤ spare self.new.index) }
        ensures begun { OnOk result (0 < n → 0 < vec_len self.new.pages) }
        ensures empty { OnOk result (wanted ≤ vec_len self.new.empty) }
    {
        self.make_index(n)?;
        self.begin(n)?;
        self.make_empty(wanted)
    }

    // Makes room for `n` lines more in the index.
    fn make_index(&mut self, n: u32) -> Result<(), Memory>
        requires paged { IsPaged self.old }
        ensures grows { Grows self.old self.new }
        ensures index { OnOk result (n ≤ spare self.new.index) }
    {
        self.index.reserve(n as usize)?;
        Ok(())
    }

    // Puts a first page in use, where there is none and a line is to come.
    fn begin(&mut self, n: u32) -> Result<(), Memory>
        requires paged { IsPaged self.old }
        ensures grows { Grows self.old self.new }
        ensures index { spare self.new.index ≡ spare self.old.index }
        ensures begun { OnOk result (0 < n → 0 < vec_len self.new.pages) }
    {
        if n == 0 {
            return Ok(());
        }
        if !self.pages.is_empty() {
            return Ok(());
        }
        self.pages.reserve(self.empty.len() + 1)?;
        self.sequence.reserve(self.empty.len() + 1)?;
        let page = Page::new(*self.pages.allocator())?;
        self.pages.push_reserved(page);
        self.sequence.push_reserved(0);
        Ok(())
    }

    // Makes the empty pages at least so many.
    fn make_empty(&mut self, wanted: usize) -> Result<(), Memory>
        requires paged { IsPaged self.old }
        ensures grows { Grows self.old self.new }
        ensures index { spare self.new.index ≡ spare self.old.index }
        ensures pages { vec_len self.new.pages ≡ vec_len self.old.pages }
        ensures empty { OnOk result (wanted ≤ vec_len self.new.empty) }
    {
        self.pages.reserve(wanted)?;
        self.sequence.reserve(wanted)?;
        add_empty(&mut self.empty, wanted, *self.pages.allocator())
    }

    /// Puts a line directly after its anchor, or first where the anchor is the head. It takes time in the lines of a page and,
    /// where one is split, in the number of pages, and no memory.
    pub(crate) fn insert_after(&mut self, anchor: LineNo, line: LineNo)
        requires paged { IsPaged self.old }
        requires anchored { is_anchor anchor (lines_of self.old) ≡ true }
        requires line { 0 < line }
        requires fresh { has_line line (lines_of self.old) ≡ false }
        requires room { HasRoom self.old 1 }
        ensures paged { IsPaged self.new }
        ensures lines { lines_of self.new ≡ after_anchor anchor line (lines_of self.old) }
        ensures room { (n : ℕ) → 0 < n → HasRoom self.old n → HasRoom self.new (n - 1) }
    {
        let number = self.page_with_place(anchor);
        self.put(number, anchor, line);
    }

    // The number of the page on which a line directly after an anchor is put; where it is full it is split before.
    fn page_with_place(&mut self, anchor: LineNo) -> usize
        requires paged { IsPaged self.old }
        requires anchored { is_anchor anchor (lines_of self.old) ≡ true }
        requires room { HasRoom self.old 1 }
        ensures paged { IsPaged self.new }
        ensures lines { lines_of self.new ≡ lines_of self.old }
        ensures page { IsPageOf self.new.pages.items self.new.sequence.items anchor result }
        ensures place { length (lines_on self.new.pages.items result) < 256 }
        ensures index { spare self.new.index ≡ spare self.old.index }
        ensures begun { 0 < vec_len self.new.pages }
        ensures empty { vec_len self.old.empty ≤ vec_len self.new.empty + 1 }
        ensures crowding { crowding self.new.pages.items + 128 * vec_len self.old.empty ≤
            crowding self.old.pages.items + 128 * vec_len self.new.empty }
    {
        let number = self.page_of(anchor);
        if !self.pages[number].is_full() {
            return number;
        }
        let next = self.split(number);
        if anchor.number() == 0 {
            return number;
        }
        if self.pages[number].has(anchor) {
            return number;
        }
        next
    }

    // The number of the page of an anchor, that of the first page where it is the head.
    fn page_of(&self, anchor: LineNo) -> usize
        requires paged { IsPaged self.now }
        requires anchored { is_anchor anchor (lines_of self.now) ≡ true }
        requires begun { 0 < vec_len self.now.pages }
        ensures page { IsPageOf self.now.pages.items self.now.sequence.items anchor result }
        ensures within { result < vec_len self.now.pages }
    {
        if anchor.number() == 0 {
            return self.sequence[0];
        }
        match page_in(&self.index, anchor) {
            Some(number) => number,
            None => unreachable!(),
        }
    }

    // Splits a full page in two halves, the second of which is on the page with the number that it answers.
    fn split(&mut self, number: usize) -> usize
        requires paged { IsPaged self.old }
        requires known { has_page number self.old.sequence.items ≡ true }
        requires full { length (lines_on self.old.pages.items number) ≡ 256 }
        requires empty { 0 < vec_len self.old.empty }
        ensures paged { IsPaged self.new }
        ensures lines { lines_of self.new ≡ lines_of self.old }
        ensures number { result ≡ length self.old.pages.items }
        ensures pages { self.new.pages.items ≡ halved self.old.pages.items number }
        ensures sequence { self.new.sequence.items ≡
            after_first (λ n. nat_eq n number) (length self.old.pages.items)
            self.old.sequence.items }
        ensures first { length (lines_on self.new.pages.items number) < 256 }
        ensures second { length (lines_on self.new.pages.items result) < 256 }
        ensures crowding { crowding self.new.pages.items + 128 ≡ crowding self.old.pages.items }
        ensures index { spare self.new.index ≡ spare self.old.index }
        ensures empty { vec_len self.new.empty + 1 ≡ vec_len self.old.empty }
    {
        let Some(mut rest) = self.empty.pop() else {
            unreachable!()
        };
        let next = self.pages.len();
        let page = &mut self.pages[number];
        page.move_rest(&mut rest);
        move_lines(&mut self.index, rest.lines(), next);
        self.pages.push_reserved(rest);
        let at = place_of(&self.sequence, number);
        match self.sequence.insert(at, next) {
            Ok(()) => next,
            Err(_) => unreachable!(),
        }
    }

    // Puts a line on the page of its anchor.
    fn put(&mut self, number: usize, anchor: LineNo, line: LineNo)
        requires paged { IsPaged self.old }
        requires page { IsPageOf self.old.pages.items self.old.sequence.items anchor number }
        requires place { length (lines_on self.old.pages.items number) < 256 }
        requires line { 0 < line }
        requires fresh { has_line line (lines_of self.old) ≡ false }
        requires room { 0 < spare self.old.index }
        ensures paged { IsPaged self.new }
        ensures lines { lines_of self.new ≡ after_anchor anchor line (lines_of self.old) }
        ensures crowding { crowding self.new.pages.items ≤ crowding self.old.pages.items + 1 }
        ensures pages { vec_len self.new.pages ≡ vec_len self.old.pages }
        ensures empty { vec_len self.new.empty ≡ vec_len self.old.empty }
        ensures index { spare self.old.index ≤ spare self.new.index + 1 }
    {
        let page = &mut self.pages[number];
        page.insert_after(anchor, line);
        match self.index.insert(line, number) {
            Ok(_) => (),
            Err(_) => unreachable!(),
        }
    }

    /// The lines in order.
    pub(crate) fn walk(&self) -> Result<LineNos, Memory>
        ensures { IfOk result (λ lines. lines ≡ lines_of self.now) }
    {
        let mut walked = LineNos::new(*self.pages.allocator());
        'numbers: for number in &self.sequence {
            add_lines(&mut walked, lines_at(&self.pages, *number))?;
        }
        Ok(walked)
    }
}

// The number of the page of a line. The lines of a file that came first mostly have numbers in a row, and then stand by these in the
// index, so it is looked there first.
fn page_in(index: &Index, line: LineNo) -> Option<usize>
    ensures { result ≡ get nat_eq index.now line }
{
    match index.get_index(place_in_row(index, line)) {
        Some((other, number)) if *other == line => Some(*number),
        _ => index.get(&line).copied(),
    }
}

// How far a line's number is beyond that of the first line in the index.
fn place_in_row(index: &Index, line: LineNo) -> usize {
    match index.first() {
        Some((first, _)) => (line.number() as usize).saturating_sub(first.number() as usize),
        None => 0,
    }
}

// How many splits of pages so many lines more can make at most: a page that was just split takes `HALF` lines before it is
// split again.
fn most_splits(pages: usize, n: u32) -> usize
    requires { pages < 2 ^ 63 }
    ensures { result ≡ min n (pages + n / 128) }
{
    (n as usize).min(pages + n as usize / HALF)
}

// Makes pages until there are so many.
fn add_empty(empty: &mut Vec<Page>, wanted: usize, alloc: Global) -> Result<(), Memory>
    ensures more { vec_len empty.old ≤ vec_len empty.new }
    ensures most { vec_len empty.new ≤ vec_len empty.old + (wanted - vec_len empty.old) }
    ensures ok { OnOk result (wanted ≤ vec_len empty.new) }
{
    'making: while empty.len() < wanted {
        let page = Page::new(alloc)?;
        empty.push(page)?;
    }
    Ok(())
}

// The lines on a page, none where there is no such page.
fn lines_at(pages: &[Page], number: usize) -> &[LineNo]
    ensures { result.now ≡ lines_on pages.now number }
{
    match pages.get(number) {
        Some(page) => page.lines(),
        None => &[],
    }
}

// Appends lines.
fn add_lines(walked: &mut LineNos, lines: &[LineNo]) -> Result<(), Memory>
    ensures { OnOk result (walked.new ≡ walked.old ++ lines.now) }
{
    'lines: for line in lines {
        walked.push(*line)?;
    }
    Ok(())
}

// Gives each line of the index that is among some lines a new page.
fn move_lines(index: &mut Index, lines: &[LineNo], number: usize)
    ensures lines { (q : ℕ) → get nat_eq index.new q ≡
        moved number (has_line q lines.now) (get nat_eq index.old q) }
    ensures spare { spare index.new ≡ spare index.old }
{
    'lines: for line in lines {
        move_line(index, *line, number);
    }
}

// Gives a line a new page, if it is in the index.
fn move_line(index: &mut Index, line: LineNo, number: usize)
    ensures lines { (q : ℕ) → get nat_eq index.new q ≡
        moved number (nat_eq line q) (get nat_eq index.old q) }
    ensures spare { spare index.new ≡ spare index.old }
{
    if let Some(page) = index.get_mut(&line) {
        *page = number;
    }
}

// The place behind a page in the sequence.
fn place_of(sequence: &[usize], number: usize) -> usize
    ensures place { (next : ℕ) → insert sequence.now result next ≡
        after_first (λ n. nat_eq n number) next sequence.now }
    ensures within { result ≤ length sequence.now }
{
    match find(sequence, number) {
        Some(at) => at + 1,
        None => sequence.len(),
    }
}

fn find(sequence: &[usize], number: usize) -> Option<usize>
    ensures { result ≡ position (λ n. nat_eq n number) sequence.now }
{
    sequence.iter().position(|other| *other == number)
}
