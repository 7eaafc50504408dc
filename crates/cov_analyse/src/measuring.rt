// The number of each entry of a listing: on how many options, at least, a choice that reads true there differs from a given one.
ghost use Rattle.std.specs.Prelude.{◌≡◌, ◌<◌, ◌≤◌, length, min, nat_lt, slice_get, Some, true, IfOk};
ghost use Rattle.std.specs.List.{list_all};
ghost use Rattle.cov_base.specs.declared.limits.TheConstants.{CHOICE_WIDTH};
ghost use Rattle.cov_vis.specs.Listings.{is_ordered};
ghost use Rattle.cov_analyse.specs.LeastNumbers.{least_number, AreLeast, AreMeasured, AreUnmeasured, HasSteps, IsMeasured, Keeps};

use crate::bounding::{BEYOND, Bounds, off_number, on_number};
use cov_base::{CHOICE_WIDTH, Choice, Memory};
use cov_vis::{Child, ListingEntries, ListingEntry};
use std::alloc::Global;

/// The number of an entry that has none yet.
pub const UNMEASURED: u8 = 255;

/// The least number of each entry, in time linear in their number.
pub(crate) fn measured(entries: &ListingEntries, choice: Choice) -> Result<Bounds, Memory>
    requires ordered { list_all (is_ordered entries.now) entries.now ≡ true }
    requires small { list_all (λ e. nat_lt e.option CHOICE_WIDTH) entries.now ≡ true }
    ensures { IfOk result (AreLeast entries.now choice) }
{
    let mut numbers = unmeasured(entries.allocator(), entries.len())?;
    measure_all(entries.as_slice(), choice, &mut numbers);
    Ok(numbers)
}

fn unmeasured(alloc: Global, count: usize) -> Result<Bounds, Memory>
    ensures count { IfOk result (λ numbers. length numbers ≡ count) }
    ensures none { IfOk result AreUnmeasured }
{
    let mut numbers = Bounds::new(alloc);
    while numbers.len() < count {
        numbers.push(UNMEASURED)?;
    }
    Ok(numbers)
}

// Finds the number of each entry, none of which has one: those of its sides first, each once.
fn measure_all(entries: &[ListingEntry], choice: Choice, numbers: &mut Bounds)
    requires ordered { list_all (is_ordered entries.now) entries.now ≡ true }
    requires small { list_all (λ e. nat_lt e.option CHOICE_WIDTH) entries.now ≡ true }
    requires count { length numbers.old ≡ length entries.now }
    requires none { AreUnmeasured numbers.old }
    ensures { AreLeast entries.now choice numbers.new }
{
    let mut index = 0;
    while index < entries.len() {
        measure(
            entries,
            choice,
            CHOICE_WIDTH,
            Child::At(index as u64),
            numbers,
        );
        index += 1;
    }
}

// Finds the numbers of a child and of all below it that have none. It goes no deeper than there are options.
fn measure(entries: &[ListingEntry], choice: Choice, steps: u8, child: Child, numbers: &mut Bounds)
    requires ordered { list_all (is_ordered entries.now) entries.now ≡ true }
    requires small { list_all (λ e. nat_lt e.option CHOICE_WIDTH) entries.now ≡ true }
    requires count { length numbers.old ≡ length entries.now }
    requires steps { HasSteps entries.now steps child }
    requires measured { AreMeasured entries.now choice numbers.old }
    ensures count { length numbers.new ≡ length entries.now }
    ensures measured { AreMeasured entries.now choice numbers.new }
    ensures kept { Keeps numbers.old numbers.new }
    ensures child { IsMeasured numbers.new child }
{
    let Child::At(index) = child else {
        return;
    };
    let entry = entry_at(entries, index as usize);
    if number_at(numbers, index as usize) != UNMEASURED {
        return;
    }
    measure(entries, choice, steps - 1, entry.off, numbers);
    measure(entries, choice, steps - 1, entry.on, numbers);
    let number = least(numbers.as_slice(), choice, &entry);
    numbers.set(index as usize, number);
}

fn entry_at(entries: &[ListingEntry], index: usize) -> ListingEntry
    requires { index < length entries.now }
    ensures { slice_get entries.now index ≡ Some result }
{
    entries[index]
}

fn number_at(numbers: &Bounds, index: usize) -> u8
    requires { index < length numbers.now }
    ensures { slice_get numbers.now index ≡ Some result }
{
    numbers.as_slice()[index]
}

fn least(numbers: &[u8], choice: Choice, entry: &ListingEntry) -> u8
    ensures { result ≡ least_number numbers.now choice entry.now }
{
    let sides = lesser(
        off_number(numbers, choice, entry),
        on_number(numbers, choice, entry),
    );
    lesser(BEYOND as u16, sides) as u8
}

fn lesser(a: u16, b: u16) -> u16
    ensures { result ≡ min a b }
{
    if a <= b { a } else { b }
}
