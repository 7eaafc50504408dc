// The valid choice that is nearest to a given one, by a listing of all valid ones.
ghost use Rattle.std.specs.Prelude.{◌≡◌, ◌≤◌, length, nat_lt, Some, true, IfOk};
ghost use Rattle.std.specs.List.{list_all};
ghost use Rattle.cov_base.specs.declared.limits.TheConstants.{CHOICE_WIDTH};
ghost use Rattle.cov_vis.specs.Listings.{has_options_below, is_reduced, reads};
ghost use Rattle.cov_analyse.specs.Bounding.{bound_of, distance, is_checked};
ghost use Rattle.cov_analyse.specs.Nearest.{first_nearest};
ghost use Rattle.cov_analyse.specs.Walking.{side_of, turns_on, walked, IsMet};

use crate::bounding::{Bounds, bound, off_number, on_number};
use crate::measuring::measured;
use cov_base::{CHOICE_WIDTH, Choice, Memory};
use cov_vis::{Child, Listing, ListingEntry};

/// The valid choice that is nearest to a given one, with what shows that none is nearer.
#[derive(Debug, Drop)]
pub struct Nearest {
    pub choice: Choice,
    /// On how many options it differs from the given one.
    pub changed: u8,
    /// What reads true on exactly the valid choices.
    pub listing: Listing,
    /// For each of its entries, on how many options a choice that reads true there differs from the given one at least.
    pub bounds: Bounds,
}

/// The first of those choices that are nearest to one, of all on which a listing reads true, in time linear in the listing.
pub(crate) fn nearest_in(listing: Listing, choice: Choice) -> Result<Nearest, Memory>
    requires reduced { is_reduced listing ≡ true }
    requires options { has_options_below (length choice) listing ≡ true }
    requires few { length choice ≤ CHOICE_WIDTH }
    requires met { IsMet (length choice) listing }
    ensures listing { IfOk result (λ found. found.listing ≡ listing) }
    ensures checked { IfOk result (λ found.
        is_checked found.listing choice found.bounds ≡ true) }
    ensures root { IfOk result (λ found.
        found.changed ≡ bound_of found.bounds found.listing.root) }
    ensures changed { IfOk result (λ found. found.changed ≡ distance choice found.choice) }
    ensures nearest { IfOk result (λ found.
        first_nearest (length choice) (reads listing) choice ≡ Some found.choice) }
{
    let bounds = match measured(listing.entries(), choice) {
        Ok(bounds) => bounds,
        Err(memory) => return Err(memory),
    };
    let nearest = walk(
        listing.entries().as_slice(),
        bounds.as_slice(),
        choice,
        CHOICE_WIDTH,
        listing.root(),
    );
    let changed = bound(bounds.as_slice(), listing.root());
    Ok(Nearest {
        choice: nearest,
        changed,
        listing,
        bounds,
    })
}

// The choice with the options set that are read on the way from a child down: of each entry to the side with the lesser number, and
// at a tie to its off side.
fn walk(entries: &[ListingEntry], numbers: &[u8], choice: Choice, steps: u8, child: Child) -> Choice
    requires { list_all (λ e. nat_lt e.option (length choice)) entries.now ≡ true }
    ensures walked { result ≡ walked entries.now numbers.now choice steps child }
    ensures count { length result ≡ length choice }
{
    let index = match child {
        Child::F | Child::T => return choice,
        Child::At(index) => index,
    };
    if steps == 0 {
        return choice;
    }
    let Some(entry) = entries.get(index as usize) else {
        return choice;
    };
    let on = is_nearer_on(numbers, choice, entry);
    let below = walk(entries, numbers, choice, steps - 1, side(entry, on));
    below.with(entry.option, on)
}

fn is_nearer_on(numbers: &[u8], choice: Choice, entry: &ListingEntry) -> bool
    ensures { result ≡ turns_on numbers.now choice entry.now }
{
    on_number(numbers, choice, entry) < off_number(numbers, choice, entry)
}

fn side(entry: &ListingEntry, on: bool) -> Child
    ensures { result ≡ side_of entry.now on }
{
    if on { entry.on } else { entry.off }
}
