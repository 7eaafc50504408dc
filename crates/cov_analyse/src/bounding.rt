// Lower bounds of the distance from a choice, one for each entry of a listing.
ghost use Rattle.std.specs.Prelude.{◌≡◌, nat_le, slice_get};
ghost use Rattle.std.specs.List.{list_all};
ghost use Rattle.cov_base.specs.Choices.{is_on};
ghost use Rattle.cov_analyse.specs.Bounding.{are_bounds, bound_of, differing, is_bound, is_checked, number_in, off_number, on_number};

use cov_base::{ByValue, Choice, List, OptionId};
use cov_vis::{Child, Listing, ListingEntry};

/// The bound of false: more than any two choices are apart.
pub const BEYOND: u8 = 129;

/// A number for each entry of a listing, in their order: on how many options, at least, a choice that is read there as true differs.
pub type Bounds = List<u8, ByValue>;

/// Whether the bounds are lower bounds by the listing alone: it is reduced, has a number for each entry, none above `BEYOND`, and each at
/// most those of the entry's sides, plus 1 for the side that the choice hasn't. It takes no memory, and time in the square of the entries.
pub fn check(listing: &Listing, choice: Choice, bounds: &Bounds) -> bool
    ensures { result ≡ is_checked listing.now choice bounds.now }
{
    if !listing.check() {
        return false;
    }
    if bounds.len() != listing.entries().len() {
        return false;
    }
    if !all_small(bounds.as_slice()) {
        return false;
    }
    all_bound(bounds.as_slice(), choice, listing.entries().as_slice())
}

fn all_small(bounds: &[u8]) -> bool
    ensures { result ≡ list_all (λ n. nat_le n BEYOND) bounds.now }
{
    bounds.iter().all(|bound| *bound <= BEYOND)
}

fn all_bound(bounds: &[u8], choice: Choice, entries: &[ListingEntry]) -> bool
    ensures { result ≡ are_bounds bounds.now choice entries.now bounds.now }
{
    let mut numbers = bounds;
    let mut ahead = entries;
    while let [entry, rest @ ..] = ahead {
        let [number, others @ ..] = numbers else {
            return false;
        };
        if !is_bounded(bounds, choice, entry, *number) {
            return false;
        }
        ahead = rest;
        numbers = others;
    }
    true
}

fn is_bounded(bounds: &[u8], choice: Choice, entry: &ListingEntry, number: u8) -> bool
    ensures { result ≡ is_bound bounds.now choice entry.now number }
{
    number as u16 <= off_number(bounds, choice, entry)
        && number as u16 <= on_number(bounds, choice, entry)
}

// What an entry's off side allows: one more where the choice is on.
pub(crate) fn off_number(bounds: &[u8], choice: Choice, entry: &ListingEntry) -> u16
    ensures { result ≡ off_number bounds.now choice entry.now }
{
    let on = is_set(choice, entry.option);
    bound(bounds, entry.off) as u16 + differing(on, false) as u16
}

// What its on side allows: one more where the choice is off.
pub(crate) fn on_number(bounds: &[u8], choice: Choice, entry: &ListingEntry) -> u16
    ensures { result ≡ on_number bounds.now choice entry.now }
{
    let on = is_set(choice, entry.option);
    bound(bounds, entry.on) as u16 + differing(on, true) as u16
}

pub(crate) fn bound(bounds: &[u8], child: Child) -> u8
    ensures { result ≡ bound_of bounds.now child }
{
    match child {
        Child::F => BEYOND,
        Child::T => 0,
        Child::At(index) => number_at(bounds, index),
    }
}

fn number_at(bounds: &[u8], index: u64) -> u8
    ensures { result ≡ number_in (slice_get bounds.now index) }
{
    match bounds.get(index as usize) {
        Some(number) => *number,
        None => 0,
    }
}

fn differing(a: bool, b: bool) -> u8
    ensures { result ≡ differing a b }
{
    if a == b { 0 } else { 1 }
}

// Whether an option is on; off at or above the choice's count.
fn is_set(choice: Choice, option: OptionId) -> bool
    ensures { result ≡ is_on choice option }
{
    option.number() < choice.count() && choice.get(option)
}
