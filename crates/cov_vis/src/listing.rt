// Listings of decision diagrams.
ghost use Rattle.std.specs.Prelude.{◌≡◌, ◌++◌, ◌∷◌, [], true, slice_get, OnOk, OnErr};
ghost use Rattle.std.specs.List.{list_any, list_all};
ghost use Rattle.cov_base.specs.declared.limits.TheConstants.{CHOICE_WIDTH};
ghost use Rattle.cov_vis.specs.Counting.{count_walk};
ghost use Rattle.cov_vis.specs.Listings.{are_distinct, has_options_below, is_below, is_in_range, is_in_walk_order, is_ordered, is_reduced, same_child, same_entry};

use cov_base::{CHOICE_WIDTH, List, Memory, OptionId};
use std::alloc::Global;
use std::marker::Model;

/// What stands on a side of an entry, or at the root: false, true or an entry.
#[derive(Clone, Copy, Debug, PartialEq, Eq)]
pub enum Child {
    F,
    T,
    At(u64),
}

/// An option, with what a choice reads where it is off and where it is on.
#[derive(Clone, Copy, Debug, PartialEq, Eq)]
pub struct ListingEntry {
    pub option: OptionId,
    pub off: Child,
    pub on: Child,
}

/// Entries in order; `Child::At` gives the index of one of them.
pub type ListingEntries = List<ListingEntry>;

/// A decision diagram as a root and a list of entries. It is read from the root: of an entry the side that a choice has for its
/// option, until false or true.
#[derive(Debug, Drop)]
pub struct Listing {
    root: Child,
    entries: ListingEntries,
}

impl Model for Listing {
    ghost use Rattle.std.specs.Prelude.{◌≡◌, true};
    ghost use Rattle.cov_base.specs.declared.limits.TheConstants.{CHOICE_WIDTH};
    ghost use Rattle.cov_vis.specs.Listings.{ListingValue, has_options_below};

    ghost Value = { ListingValue };

    ghost view = { λ l. record { root = l.root; entries = l.entries } };

    ghost invariant = { λ l. has_options_below CHOICE_WIDTH
        (record { root = l.root; entries = l.entries }) ≡ true };
}

impl Listing {
    /// A listing without entries.
    pub fn new(alloc: Global, root: Child) -> Listing
        ensures root { result.root ≡ root }
        ensures entries { result.entries ≡ [] }
    {
        Listing {
            root,
            entries: ListingEntries::new(alloc),
        }
    }

    /// Puts an entry behind the others.
    pub fn push(&mut self, entry: ListingEntry) -> Result<(), Memory>
        ensures root { self.new.root ≡ self.old.root }
        ensures entries { OnOk result (self.new.entries ≡ self.old.entries ++ entry ∷ []) }
        ensures err { OnErr result (self.new ≡ self.old) }
    {
        // What `number` ensures bounds the option for the proof.
        let _small = entry.option.number();
        self.entries.push(entry)
    }

    pub fn root(&self) -> Child
        ensures { result ≡ self.now.root }
    {
        self.root
    }

    pub fn entries(&self) -> &ListingEntries
        ensures { result.now ≡ self.now.entries }
    {
        &self.entries
    }

    /// Whether the listing is the one of its function: in range, ordered, without useless or equal entries, and in the order of a
    /// walk that takes an entry first, then what lies below its off side, then what lies below its on side. It takes no memory, so
    /// it compares each two entries: its time is the square of their number.
    pub fn check(&self) -> bool
        ensures reduced { result ≡ is_reduced self.now }
        ensures options { has_options_below CHOICE_WIDTH self.now ≡ true }
    {
        reduced(self.root, self.entries.as_slice())
    }
}

fn reduced(root: Child, entries: &[ListingEntry]) -> bool
    ensures { result ≡ is_reduced (record { root = root; entries = entries.now }) }
{
    if !in_range(entries, root) {
        return false;
    }
    if !all_ordered(entries) {
        return false;
    }
    if !distinct(entries) {
        return false;
    }
    in_walk_order(entries, root)
}

fn in_range(entries: &[ListingEntry], child: Child) -> bool
    ensures { result ≡ is_in_range entries.now child }
{
    match child {
        Child::F | Child::T => true,
        Child::At(index) => index < entries.len() as u64,
    }
}

fn entry_at(entries: &[ListingEntry], index: u64) -> Option<ListingEntry>
    ensures { result ≡ slice_get entries.now index }
{
    entries.get(index as usize).copied()
}

fn below(entries: &[ListingEntry], option: OptionId, child: Child) -> bool
    ensures { result ≡ is_below entries.now option child }
{
    match child {
        Child::F | Child::T => true,
        Child::At(index) => match entry_at(entries, index) {
            Some(entry) => option.number() < entry.option.number(),
            None => false,
        },
    }
}

fn same(a: Child, b: Child) -> bool
    ensures { result ≡ same_child a b }
{
    match (a, b) {
        (Child::F, Child::F) | (Child::T, Child::T) => true,
        (Child::At(i), Child::At(j)) => i == j,
        _ => false,
    }
}

fn ordered(entries: &[ListingEntry], entry: &ListingEntry) -> bool
    ensures { result ≡ is_ordered entries.now entry.now }
{
    below(entries, entry.option, entry.off)
        && below(entries, entry.option, entry.on)
        && !same(entry.off, entry.on)
}

fn all_ordered(entries: &[ListingEntry]) -> bool
    ensures { result ≡ list_all (is_ordered entries.now) entries.now }
{
    entries.iter().all(|entry| ordered(entries, entry))
}

fn equal(a: &ListingEntry, b: &ListingEntry) -> bool
    ensures { result ≡ same_entry a.now b.now }
{
    a.option == b.option && same(a.off, b.off) && same(a.on, b.on)
}

fn stands_in(entry: &ListingEntry, entries: &[ListingEntry]) -> bool
    ensures { result ≡ list_any (same_entry entry.now) entries.now }
{
    entries.iter().any(|other| equal(entry, other))
}

fn distinct(entries: &[ListingEntry]) -> bool
    ensures { result ≡ are_distinct entries.now }
{
    let mut ahead = entries;
    while let [first, rest @ ..] = ahead {
        if stands_in(first, rest) {
            return false;
        }
        ahead = rest;
    }
    true
}

fn in_walk_order(entries: &[ListingEntry], root: Child) -> bool
    ensures { result ≡ is_in_walk_order (record { root = root; entries = entries.now }) }
{
    match count(entries, CHOICE_WIDTH, root, 0) {
        Some(met) => met == entries.len() as u64,
        None => false,
    }
}

// How many entries are met after a child, where those below a number were met; None where another than that number is next.
fn count(entries: &[ListingEntry], steps: u8, child: Child, met: u64) -> Option<u64>
    ensures count { result ≡ count_walk entries.now steps child met }
{
    let Child::At(index) = child else {
        return Some(met);
    };
    if steps == 0 || index < met {
        return Some(met);
    }
    let Some(entry) = entry_at(entries, index) else {
        return Some(met);
    };
    if index != met {
        return None;
    }
    let beside = count(entries, steps - 1, entry.off, met + 1)?;
    count(entries, steps - 1, entry.on, beside)
}
