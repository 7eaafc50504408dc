// The refusal of a commit that would leave a variant unsound.
ghost use Rattle.std.specs.Prelude.{◌≡◌, None, IfOk, option_map, if◌then◌else◌};
ghost use Rattle.std.specs.List.{list_any};
ghost use Rattle.cov_base.specs.Faults.{fault_of};
ghost use Rattle.cov_dd.specs.Diagrams.{Extends};
ghost use Rattle.cov_history.specs.BadChoices.{fault_refusal};
ghost use Rattle.cov_history.specs.RowChanges.{changes_rows};
ghost use Rattle.cov_tree.specs.Carried.{AreOnceWith};
ghost use Rattle.cov_tree.specs.Dated.{rows_with};
ghost use Rattle.cov_engine.specs.Evidence.{CanBeTested, first_faulty, refusal_by_plan, refusal_for};

use crate::Refusal;
use cov_base::{Choice, Memory, Steps, Uncounted};
use cov_dd::{Node, Table};
use cov_edit::Edit;
use cov_tree::{Entries, EntryPlan};
use cov_view::Fault;
use cov_visible::view_of_rows;
use std::alloc::Global;

/// Whether edits change rows.
pub(crate) fn change_rows(edits: &[Edit]) -> bool
    ensures { result ≡ list_any changes_rows edits.now }
{
    edits.iter().any(changes_rows)
}

// Whether an edit changes rows.
fn changes_rows(edit: &Edit) -> bool
    ensures { result ≡ changes_rows edit.now }
{
    match edit {
        Edit::New { .. } | Edit::Rename { .. } | Edit::Move { .. } | Edit::Remove { .. } => true,
        Edit::Insert { .. } | Edit::Delete { .. } => false,
    }
}

/// The refusal for the fault of the rows with the plan of edits on the first choice of two nodes where they have one. Edits that
/// change no row leave none, and aren't tested.
pub(crate) fn refusal_left(
    alloc: Global,
    table: &mut Table,
    entries: &Entries,
    plan: &EntryPlan,
    valid: Node,
    ambition: Node,
    count: u8,
    changes_rows: bool,
) -> Result<Option<Refusal>, Memory>
    requires { CanBeTested table.old entries.now plan.now valid ambition count }
    ensures extends { Extends table.old table.new }
    ensures found { IfOk result (λ found. found ≡ (if changes_rows
        then refusal_by_plan table.old entries.now plan.now valid ambition count else None)) }
{
    match changes_rows {
        true => fault_left(alloc, table, entries, plan, valid, ambition, count),
        false => Ok(None),
    }
}

// The refusal for the fault of the rows with a plan on the first choice of two nodes where they have one.
fn fault_left(
    alloc: Global,
    table: &mut Table,
    entries: &Entries,
    plan: &EntryPlan,
    valid: Node,
    ambition: Node,
    count: u8,
) -> Result<Option<Refusal>, Memory>
    requires { CanBeTested table.old entries.now plan.now valid ambition count }
    ensures extends { Extends table.old table.new }
    ensures found { IfOk result (λ found. found ≡
        refusal_by_plan table.old entries.now plan.now valid ambition count) }
{
    match first_faulty(table, entries, plan, valid, ambition, count)? {
        Some(choice) => refusal_on(alloc, table, entries, plan, choice),
        None => Ok(None),
    }
}

// The first choice of two nodes on which the rows with a plan have a fault.
fn first_faulty(
    table: &mut Table,
    entries: &Entries,
    plan: &EntryPlan,
    valid: Node,
    ambition: Node,
    count: u8,
) -> Result<Option<Choice>, Memory>
    requires { CanBeTested table.old entries.now plan.now valid ambition count }
    ensures extends { Extends table.old table.new }
    ensures first { IfOk result (λ found. found ≡
        first_faulty table.old entries.now plan.now valid ambition count) }
{
    let within = table.and(valid, ambition, &mut Steps::<Uncounted>::new())?;
    let node = entries.unsound(plan, table, within)?;
    Ok(table.least(node, count))
}

// The refusal for the fault of the rows with a plan on a choice, if they have one there.
fn refusal_on(
    alloc: Global,
    table: &Table,
    entries: &Entries,
    plan: &EntryPlan,
    choice: Choice,
) -> Result<Option<Refusal>, Memory>
    requires once { AreOnceWith table.now plan.now entries.now }
    ensures { IfOk result (λ found. found ≡
        option_map (fault_refusal choice)
        (fault_of (rows_with table.now choice plan.now entries.now))) }
{
    let rows = entries.rows_with(plan, table, choice)?;
    let view = view_of_rows(alloc, rows.as_slice())?;
    match view.first_fault()? {
        Some(fault) => Ok(Some(refusal_for(fault, choice))),
        None => Ok(None),
    }
}

// The refusal for a fault on a choice.
fn refusal_for(fault: Fault, choice: Choice) -> Refusal
    ensures { result ≡ refusal_for choice fault }
{
    match fault {
        Fault::Clash { low, high } => Refusal::Clash { low, high, choice },
        Fault::Orphan { node } => Refusal::Orphan { node, choice },
        Fault::Loop { node } => Refusal::Loop { node, choice },
    }
}
