// The expression of a listing.
ghost use Rattle.std.specs.Prelude.{◌≡◌, ◌<◌, ◌≤◌, slice_get, MatchOption, IfOk};
ghost use Rattle.cov_base.specs.declared.limits.TheConstants.{MOST_PARTS};
ghost use Rattle.cov_expr.specs.Formula.{Not, And, Or, part_count};
ghost use Rattle.cov_expr.specs.Parts.{formula};
ghost use Rattle.cov_cond.specs.Building.{literal, IsBuilt, TakesRoom};
ghost use Rattle.cov_cond.specs.Exporting.{child_expression, entry_expression, expression_of};

use cov_base::{CHOICE_WIDTH, MOST_PARTS, Memory, OptionId};
use cov_expr::{Expr, Part};
use cov_vis::{Child, Listing, ListingEntry};
use std::alloc::Global;

/// A part, and for how many parts more there is room.
#[derive(Drop)]
pub(crate) struct Built {
    part: Part,
    room: u32,
}

/// The expression that a listing spells; None exactly where it has more than `MOST_PARTS` parts. A listing shares what its expression
/// repeats, so building ends as soon as there is no room: it takes time in `MOST_PARTS` at most.
pub(crate) fn expression(listing: &Listing) -> Result<Option<Expr>, Memory>
    ensures { IfOk result (λ found. MatchOption found
        (MOST_PARTS < part_count (expression_of listing.now))
        (λ expr. expr ≡ expression_of listing.now)) }
{
    let alloc = listing.entries().allocator();
    let entries = listing.entries().as_slice();
    let steps = CHOICE_WIDTH as u64 + entries.len() as u64;
    match child_part(alloc, entries, steps, listing.root(), MOST_PARTS)? {
        Some(built) => Ok(Some(finished(built))),
        None => Ok(None),
    }
}

// The expression of a part that was built.
fn finished(built: Built) -> Expr
    requires { part_count (formula built.part) ≤ MOST_PARTS }
    ensures { result ≡ formula built.part }
{
    match Expr::new(built.part) {
        Ok(expr) => expr,
        Err(_) => unreachable!(),
    }
}

// The part of a child, by at most so many entries below one another; None exactly where it has more parts than there is room for.
// It goes no deeper than there is room.
#[cycle(building)]
fn child_part(
    alloc: Global,
    entries: &[ListingEntry],
    steps: u64,
    child: Child,
    room: u32,
) -> Result<Option<Built>, Memory>
    ensures { IfOk result (IsBuilt (child_expression entries.now steps child) room) }
{
    let index = match child {
        Child::F => return Ok(leaf(Part::False, room)),
        Child::T => return Ok(leaf(Part::True, room)),
        Child::At(index) => index,
    };
    if steps == 0 {
        return Ok(leaf(Part::False, room));
    }
    match entry_at(entries, index) {
        Some(entry) => entry_part(alloc, entries, steps - 1, entry, room),
        None => Ok(leaf(Part::False, room)),
    }
}

// The part of an entry, whose children have at most so many entries below one another.
#[cycle(building)]
fn entry_part(
    alloc: Global,
    entries: &[ListingEntry],
    steps: u64,
    entry: ListingEntry,
    room: u32,
) -> Result<Option<Built>, Memory>
    ensures { IfOk result (IsBuilt (entry_expression (child_expression entries.now steps)
        entry.option entry.off entry.on) room) }
{
    let option = entry.option;
    match (entry.off, entry.on) {
        (Child::F, Child::T) => literal(alloc, option, true, room),
        (Child::T, Child::F) => literal(alloc, option, false, room),
        (Child::F, on) => both(alloc, entries, steps, option, true, on, room),
        (Child::T, on) => either(alloc, entries, steps, option, false, on, room),
        (off, Child::F) => both(alloc, entries, steps, option, false, off, room),
        (off, Child::T) => either(alloc, entries, steps, option, true, off, room),
        (off, on) => {
            let Some(first) = both(alloc, entries, steps, option, true, on, room)? else {
                return Ok(None);
            };
            let Some(second) = both(alloc, entries, steps, option, false, off, first.room)? else {
                return Ok(None);
            };
            disjoin(alloc, first.part, second)
        }
    }
}

// The part that is true where an option is on, or off, and a child is.
#[cycle(building)]
fn both(
    alloc: Global,
    entries: &[ListingEntry],
    steps: u64,
    option: OptionId,
    on: bool,
    child: Child,
    room: u32,
) -> Result<Option<Built>, Memory>
    ensures { IfOk result (IsBuilt (And (literal option on)
        (child_expression entries.now steps child)) room) }
{
    let Some(left) = literal(alloc, option, on, room)? else {
        return Ok(None);
    };
    let Some(right) = child_part(alloc, entries, steps, child, left.room)? else {
        return Ok(None);
    };
    conjoin(alloc, left.part, right)
}

// The part that is true where an option is on, or off, or a child is.
#[cycle(building)]
fn either(
    alloc: Global,
    entries: &[ListingEntry],
    steps: u64,
    option: OptionId,
    on: bool,
    child: Child,
    room: u32,
) -> Result<Option<Built>, Memory>
    ensures { IfOk result (IsBuilt (Or (literal option on)
        (child_expression entries.now steps child)) room) }
{
    let Some(left) = literal(alloc, option, on, room)? else {
        return Ok(None);
    };
    let Some(right) = child_part(alloc, entries, steps, child, left.room)? else {
        return Ok(None);
    };
    disjoin(alloc, left.part, right)
}

fn entry_at(entries: &[ListingEntry], index: u64) -> Option<ListingEntry>
    ensures { result ≡ slice_get entries.now index }
{
    entries.get(index as usize).copied()
}

// A part that consists of itself alone.
fn leaf(part: Part, room: u32) -> Option<Built>
    requires { part_count (formula part) ≡ 1 }
    ensures { IsBuilt (formula part) room result }
{
    if room == 0 {
        return None;
    }
    Some(Built {
        part,
        room: room - 1,
    })
}

// The part that is true where an option is on, or off.
fn literal(alloc: Global, option: OptionId, on: bool, room: u32) -> Result<Option<Built>, Memory>
    ensures { IfOk result (IsBuilt (literal option on) room) }
{
    let Some(built) = leaf(Part::Option(option), room) else {
        return Ok(None);
    };
    if on {
        return Ok(Some(built));
    }
    negate(alloc, built)
}

fn negate(alloc: Global, operand: Built) -> Result<Option<Built>, Memory>
    ensures { IfOk result (TakesRoom (Not (formula operand.part)) 1 operand.room) }
{
    if operand.room == 0 {
        return Ok(None);
    }
    let room = operand.room - 1;
    let part = Part::Not(Box::new(alloc, operand.part)?);
    Ok(Some(Built { part, room }))
}

fn conjoin(alloc: Global, left: Part, right: Built) -> Result<Option<Built>, Memory>
    ensures { IfOk result (TakesRoom (And (formula left) (formula right.part)) 1 right.room) }
{
    if right.room == 0 {
        return Ok(None);
    }
    let room = right.room - 1;
    let part = Part::And(Box::new(alloc, left)?, Box::new(alloc, right.part)?);
    Ok(Some(Built { part, room }))
}

fn disjoin(alloc: Global, left: Part, right: Built) -> Result<Option<Built>, Memory>
    ensures { IfOk result (TakesRoom (Or (formula left) (formula right.part)) 1 right.room) }
{
    if right.room == 0 {
        return Ok(None);
    }
    let room = right.room - 1;
    let part = Part::Or(Box::new(alloc, left)?, Box::new(alloc, right.part)?);
    Ok(Some(Built { part, room }))
}
