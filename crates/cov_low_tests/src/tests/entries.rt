//! The nodes of a store by choice and position, and where they have a fault.
ghost use Rattle.std.specs.Prelude.{◌≡◌, ◌≤◌, ◌<◌, ◌∷◌, [], List, IfOk};
ghost use Rattle.cov_dd.specs.declared.triple.Triple.{Triple};
ghost use Rattle.cov_dd.specs.Diagrams.{diagram_size};
ghost use Rattle.cov_tree.specs.Carried.{AreNodesAt, AreNodesWith, AreOnceAt, AreOnceWith};
ghost use Rattle.cov_tree.specs.Dated.{nodes_in, nodes_with};

use cov_base::{Choice, Kind, Name, NodeNo, OptionId, Position, Steps, Uncounted};
use cov_dd::{Node, TRUE, Table};
use cov_tree::laws::{nodes_stay, once_stays};
use cov_tree::{Entries, EntryPlan, NodeRows};
use std::alloc::Global;
use std::process::Abort;
use std::test::Fail;

// The directory d, node 1, and in it the file m, node 2.
fn create(
    entries: &Entries,
    plan: &mut EntryPlan,
    table: &mut Table,
    alloc: Global,
) -> Result<(), Fail>
    requires none { nodes_with plan.old entries.now ≡ [] }
    requires within { AreNodesWith table.old plan.old entries.now }
    requires once { AreOnceWith table.old plan.old entries.now }
    requires inner { 2 ≤ diagram_size table.old }
    ensures nodes { IfOk result (λ _. nodes_with plan.new entries.now ≡ 1 ∷ 2 ∷ []) }
    ensures within { AreNodesWith table.new plan.new entries.now }
    ensures once { AreOnceWith table.new plan.new entries.now }
    ensures count { diagram_size table.old ≤ diagram_size table.new }
{
    let d = Name::read(alloc, b"d")?;
    let m = Name::read(alloc, b"m")?;
    let root = NodeNo::new(0);
    let dir = NodeNo::new(1);
    plan.created(entries, table, dir, Kind::Dir, root, &d, TRUE)?;
    plan.created(entries, table, NodeNo::new(2), Kind::File, dir, &m, TRUE)?;
    Ok(())
}

// Makes these nodes from position 3 on.
fn add_two(entries: &mut Entries, table: &mut Table, alloc: Global) -> Result<(), Fail>
    requires none { nodes_in entries.old ≡ [] }
    requires within { (t : List Triple) → AreNodesAt t entries.old }
    requires once { (t : List Triple) → AreOnceAt t entries.old }
    requires from { entries.old.from ≤ 3 }
    requires inner { 2 ≤ diagram_size table.old }
    ensures nodes { IfOk result (λ _. nodes_in entries.new ≡ 1 ∷ 2 ∷ []) }
    ensures within { IfOk result (λ _. AreNodesAt table.new entries.new) }
    ensures once { IfOk result (λ _. AreOnceAt table.new entries.new) }
    ensures from { IfOk result (λ _. entries.new.from ≤ 3) }
    ensures count { diagram_size table.old ≤ diagram_size table.new }
{
    let mut plan = EntryPlan::new(alloc);
    create(entries, &mut plan, table, alloc)?;
    entries.reserve(&plan)?;
    entries.install(plan, Position::new(3));
    Ok(())
}

// These nodes alone.
fn two_nodes(table: &mut Table, alloc: Global) -> Result<Entries, Fail>
    requires inner { 2 ≤ diagram_size table.old }
    ensures nodes { IfOk result (λ entries. nodes_in entries ≡ 1 ∷ 2 ∷ []) }
    ensures within { IfOk result (λ entries. AreNodesAt table.new entries) }
    ensures once { IfOk result (λ entries. AreOnceAt table.new entries) }
    ensures from { IfOk result (λ entries. entries.from ≤ 3) }
    ensures count { diagram_size table.old ≤ diagram_size table.new }
{
    let mut entries = Entries::new(alloc)?;
    match add_two(&mut entries, table, alloc) {
        Ok(()) => Ok(entries),
        Err(fail) => {
            drop(entries);
            Err(fail)
        }
    }
}

// The file becomes n in the root, and the directory goes, where the ambition is true.
fn change(
    entries: &Entries,
    plan: &mut EntryPlan,
    table: &mut Table,
    alloc: Global,
    ambition: Node,
) -> Result<(), Fail>
    requires within { AreNodesWith table.old plan.old entries.now }
    requires once { AreOnceWith table.old plan.old entries.now }
    requires ambition { ambition < diagram_size table.old }
{
    let n = Name::read(alloc, b"n")?;
    let file = NodeNo::new(2);
    plan.renamed(entries, table, file, &n, ambition)?;
    plan.moved(entries, table, file, NodeNo::new(0), ambition)?;
    plan.removed(entries, table, NodeNo::new(1), ambition)?;
    Ok(())
}

// The rows with that change where option 0 is on, before they are installed at position 5.
fn change_where_on(
    rt: &impl Abort,
    entries: &mut Entries,
    table: &mut Table,
    alloc: Global,
    on: Node,
) -> Result<(), Fail>
    requires within { AreNodesAt table.old entries.old }
    requires once { AreOnceAt table.old entries.old }
    requires from { entries.old.from ≤ 5 }
    requires on { on < diagram_size table.old }
{
    let mut plan = EntryPlan::new(alloc);
    change(entries, &mut plan, table, alloc, on)?;
    rows_to_come(rt, entries, &plan, table)?;
    entries.reserve(&plan)?;
    entries.install(plan, Position::new(5));
    Ok(())
}

fn rows_to_come(
    rt: &impl Abort,
    entries: &Entries,
    plan: &EntryPlan,
    table: &Table,
) -> Result<(), Fail> {
    let rows = entries.rows_with(plan, table, Choice::new(1, 1))?;
    assert_eq!(rt; rows.len(), 1);
    is_row(rt, &rows, 0, 2, 0, b"n");
    Ok(())
}

// The last row on a choice at a position.
fn last_row(rt: &impl Abort, rows: &NodeRows, index: usize, node: u32, parent: u32, name: &[u8])
    requires { index < 2 }
{
    assert_eq!(rt; rows.len(), index + 1);
    is_row(rt, rows, index, node, parent, name);
}

// The rows before the change, and after it where option 0 is off and where it is on.
fn rows_there(
    rt: &impl Abort,
    entries: &Entries,
    table: &Table,
    alloc: Global,
) -> Result<(), Fail> {
    let on = Choice::new(1, 1);
    let first = entries.rows_at(table, on, Position::new(2))?;
    assert_eq!(rt; first.len(), 0);
    let before = entries.rows_at(table, on, Position::new(4))?;
    last_row(rt, &before, 1, 2, 1, b"m");
    let off = entries.rows_at(table, Choice::new(0, 1), Position::new(5))?;
    last_row(rt, &off, 1, 2, 1, b"m");
    let after = entries.rows_at(table, on, Position::new(5))?;
    last_row(rt, &after, 0, 2, 0, b"n");
    found_there(rt, entries, table, alloc)?;
    rows_of_one(rt, entries, table)
}

// The file by its name and the kind of the directory before the change, and after it where option 0 is on.
fn found_there(
    rt: &impl Abort,
    entries: &Entries,
    table: &Table,
    alloc: Global,
) -> Result<(), Fail> {
    let m = Name::read(alloc, b"m")?;
    let n = Name::read(alloc, b"n")?;
    is_child(rt, entries, table, 4, 1, &m);
    is_no_child(rt, entries, table, 4, 1, &n);
    is_no_child(rt, entries, table, 4, 0, &m);
    is_child(rt, entries, table, 5, 0, &n);
    is_no_child(rt, entries, table, 5, 0, &m);
    is_no_child(rt, entries, table, 5, 1, &n);
    is_dir_before(rt, entries, table);
    Ok(())
}

// The file has that name in that directory, at a position where option 0 is on.
fn is_child(rt: &impl Abort, entries: &Entries, table: &Table, at: u32, dir: u32, name: &Name) {
    let on = Choice::new(1, 1);
    let found = entries.child_at(table, on, Position::new(at), NodeNo::new(dir), name);
    assert_eq!(rt; found, Some(NodeNo::new(2)));
}

// No node has that name there.
fn is_no_child(rt: &impl Abort, entries: &Entries, table: &Table, at: u32, dir: u32, name: &Name) {
    let on = Choice::new(1, 1);
    let found = entries.child_at(table, on, Position::new(at), NodeNo::new(dir), name);
    assert!(rt; found.is_none());
}

// The kind of the directory, which is gone after the change.
fn is_dir_before(rt: &impl Abort, entries: &Entries, table: &Table) {
    let on = Choice::new(1, 1);
    let dir = NodeNo::new(1);
    let before = entries.kind_at(table, on, Position::new(4), dir);
    assert_eq!(rt; before, Some(Kind::Dir));
    let after = entries.kind_at(table, on, Position::new(5), dir);
    assert_eq!(rt; after, None);
}

// The rows of a node alone, before the change and after it where option 0 is on.
fn rows_of_one(rt: &impl Abort, entries: &Entries, table: &Table) -> Result<(), Fail> {
    let on = Choice::new(1, 1);
    let dir = entries.rows_among(&[NodeNo::new(1)], table, on, Position::new(4))?;
    last_row(rt, &dir, 0, 1, 0, b"d");
    let none = entries.rows_among(&[NodeNo::new(1)], table, on, Position::new(5))?;
    assert_eq!(rt; none.len(), 0);
    let file = entries.rows_among(&[NodeNo::new(2)], table, on, Position::new(5))?;
    last_row(rt, &file, 0, 2, 0, b"n");
    Ok(())
}

// A row has these values.
fn is_row(rt: &impl Abort, rows: &NodeRows, index: usize, node: u32, parent: u32, name: &[u8]) {
    match rows.get(index) {
        Some(row) => {
            assert_eq!(rt; row.node, NodeNo::new(node));
            assert_eq!(rt; row.parent, NodeNo::new(parent));
            assert_eq!(rt; row.name.as_slice(), name);
        }
        None => assert!(rt; false),
    }
}

fn check_rows(rt: &impl Abort, table: &mut Table, alloc: Global) -> Result<(), Fail>
    requires { 2 ≤ diagram_size table.old }
{
    let on = table.literal(OptionId::new(0))?;
    let mut entries = two_nodes(table, alloc)?;
    let checked = match change_where_on(rt, &mut entries, table, alloc, on) {
        Ok(()) => rows_there(rt, &entries, table, alloc),
        Err(fail) => Err(fail),
    };
    drop(entries);
    checked
}

#[test]
fn rows_by_choice_and_position(rt: HostRuntime) -> Result<(), Fail> {
    let mut table = Table::new(rt.alloc())?;
    let checked = check_rows(&rt, &mut table, rt.alloc());
    drop(table);
    checked
}

// The directory goes where one option is on, another node gets its name where a second is, and it moves below its own file where
// a third is.
fn unsound_change(
    entries: &Entries,
    plan: &mut EntryPlan,
    table: &mut Table,
    alloc: Global,
    gone: Node,
    taken: Node,
    below: Node,
) -> Result<(), Fail>
    requires nodes { nodes_with plan.old entries.now ≡ 1 ∷ 2 ∷ [] }
    requires within { AreNodesWith table.old plan.old entries.now }
    requires once { AreOnceWith table.old plan.old entries.now }
    requires gone { gone < diagram_size table.old }
    requires taken { taken < diagram_size table.old }
    requires below { below < diagram_size table.old }
    ensures within { AreNodesWith table.new plan.new entries.now }
    ensures once { AreOnceWith table.new plan.new entries.now }
    ensures count { diagram_size table.old ≤ diagram_size table.new }
{
    let d = Name::read(alloc, b"d")?;
    let dir = NodeNo::new(1);
    let root = NodeNo::new(0);
    plan.created(entries, table, NodeNo::new(3), Kind::File, root, &d, taken)?;
    plan.moved(entries, table, dir, NodeNo::new(2), below)?;
    plan.removed(entries, table, dir, gone)?;
    Ok(())
}

// The choices of a fourth option on which that is unsound.
fn unsound_where(
    rt: &impl Abort,
    entries: &Entries,
    table: &mut Table,
    alloc: Global,
) -> Result<(), Fail>
    requires nodes { nodes_in entries.now ≡ 1 ∷ 2 ∷ [] }
    requires within { AreNodesAt table.old entries.now }
    requires once { AreOnceAt table.old entries.now }
{
    nodes_stay();
    once_stays();
    let gone = table.literal(OptionId::new(0))?;
    let taken = table.literal(OptionId::new(1))?;
    let below = table.literal(OptionId::new(2))?;
    let within = table.literal(OptionId::new(3))?;
    let mut plan = EntryPlan::new(alloc);
    unsound_change(entries, &mut plan, table, alloc, gone, taken, below)?;
    let unsound = entries.unsound(&plan, table, within)?;
    let either = table.or(gone, taken)?;
    let any = table.or(either, below)?;
    let wanted = table.and(any, within, &mut Steps::<Uncounted>::new())?;
    assert_eq!(rt; unsound, wanted);
    Ok(())
}

fn check_unsound(rt: &impl Abort, table: &mut Table, alloc: Global) -> Result<(), Fail>
    requires { 2 ≤ diagram_size table.old }
{
    let entries = two_nodes(table, alloc)?;
    let checked = unsound_where(rt, &entries, table, alloc);
    drop(entries);
    checked
}

#[test]
fn unsound_by_orphan_clash_and_loop(rt: HostRuntime) -> Result<(), Fail> {
    let mut table = Table::new(rt.alloc())?;
    let checked = check_unsound(&rt, &mut table, rt.alloc());
    drop(table);
    checked
}
