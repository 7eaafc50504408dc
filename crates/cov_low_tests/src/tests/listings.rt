//! Listings of diagrams.
ghost use Rattle.std.specs.Prelude.{◌<◌};
ghost use Rattle.cov_base.specs.declared.limits.TheConstants.{CHOICE_WIDTH};

use cov_base::{Memory, OptionId};
use cov_dd::Table;
use cov_vis::{Child, Listing, ListingEntry, list};
use std::alloc::Global;
use std::process::Abort;
use std::test::Fail;

fn entry(option: u8, off: Child, on: Child) -> ListingEntry
    requires { option < CHOICE_WIDTH }
{
    ListingEntry {
        option: OptionId::new(option),
        off,
        on,
    }
}

fn first() -> ListingEntry {
    entry(0, Child::At(1), Child::T)
}

fn second() -> ListingEntry {
    entry(1, Child::F, Child::T)
}

// Option 0 or option 1.
fn check_either(rt: &impl Abort, listing: &Listing) {
    assert!(rt; listing.root() == Child::At(0));
    let entries = listing.entries().as_slice();
    assert!(rt; entries.len() == 2);
    assert!(rt; entries.get(0) == Some(&first()));
    assert!(rt; entries.get(1) == Some(&second()));
    assert!(rt; listing.check());
}

fn check_listed(rt: &impl Abort, table: &mut Table) -> Result<(), Fail> {
    let a = table.literal(OptionId::new(0))?;
    let b = table.literal(OptionId::new(1))?;
    let either = table.or(a, b)?;
    let listing = list(table, either)?;
    check_either(rt, &listing);
    drop(listing);
    Ok(())
}

#[test]
fn listing_of_a_node(rt: HostRuntime) -> Result<(), Fail> {
    let mut table = Table::new(rt.alloc())?;
    let checked = check_listed(&rt, &mut table);
    drop(table);
    checked
}

// A listing whose root is its first entry.
fn of_two(alloc: Global, first: ListingEntry, second: ListingEntry) -> Result<Listing, Memory> {
    let mut listing = Listing::new(alloc, Child::At(0));
    listing.push(first)?;
    listing.push(second)?;
    Ok(listing)
}

#[test]
fn listing_in_another_order(rt: HostRuntime) -> Result<(), Fail> {
    let pushed = of_two(rt.alloc(), first(), second())?;
    check_either(&rt, &pushed);
    drop(pushed);
    let exchanged = of_two(rt.alloc(), second(), first())?;
    assert!(rt; !exchanged.check());
    drop(exchanged);
    Ok(())
}
