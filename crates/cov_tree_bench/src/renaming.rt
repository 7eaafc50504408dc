// Files that are made and renamed.
ghost use Rattle.std.specs.Prelude.{◌≡◌, ◌<◌, ◌≤◌, ◌+◌, List, false, [], ◌∷◌, ◌++◌, OnOk};
ghost use Rattle.cov_base.specs.Rows.{has_node};
ghost use Rattle.cov_dd.specs.Diagrams.{diagram_size, Extends};
ghost use Rattle.cov_dd.specs.declared.triple.Triple.{Triple};
ghost use Rattle.cov_tree.specs.Carried.{AreNodesAt, AreNodesWith, AreOnceAt, AreOnceWith};
ghost use Rattle.cov_tree.specs.Dated.{nodes_in, nodes_with};

use cov_base::{Choice, Kind, Memory, Name, NodeNo, Position};
use cov_dd::{TRUE, Table};
use cov_tree::laws::{nodes_stay, once_stays};
use cov_tree::{Entries, EntryPlan};
use std::alloc::Global;

/// How many rows there are, once so many files are made and so many of them renamed.
pub fn count_renamed(
    alloc: Global,
    files: u16,
    renames: u16,
    tested: bool,
) -> Result<usize, Memory> {
    let mut table = Table::new(alloc)?;
    let counted = count_in_table(alloc, &mut table, files, renames, tested);
    drop(table);
    counted
}

fn count_in_table(
    alloc: Global,
    table: &mut Table,
    files: u16,
    renames: u16,
    tested: bool,
) -> Result<usize, Memory>
    requires inner { 2 ≤ diagram_size table.old }
{
    let mut entries = Entries::new(alloc)?;
    let counted = count_entries(alloc, &mut entries, table, files, renames, tested);
    drop(entries);
    counted
}

fn count_entries(
    alloc: Global,
    entries: &mut Entries,
    table: &mut Table,
    files: u16,
    renames: u16,
    tested: bool,
) -> Result<usize, Memory>
    requires none { nodes_in entries.old ≡ [] }
    requires within { (t : List Triple) → AreNodesAt t entries.old }
    requires once { (t : List Triple) → AreOnceAt t entries.old }
    requires from { entries.old.from ≤ 1 }
    requires inner { 2 ≤ diagram_size table.old }
{
    grow(alloc, entries, table, files)?;
    rename_all(alloc, entries, table, renames, tested)?;
    let rows = entries.rows_at(table, Choice::new(0, 0), Position::new(u32::MAX))?;
    Ok(rows.len())
}

// So many files in the root, from position 1 on.
fn grow(alloc: Global, entries: &mut Entries, table: &mut Table, files: u16) -> Result<(), Memory>
    requires none { nodes_in entries.old ≡ [] }
    requires within { (t : List Triple) → AreNodesAt t entries.old }
    requires once { (t : List Triple) → AreOnceAt t entries.old }
    requires from { entries.old.from ≤ 1 }
    requires inner { 2 ≤ diagram_size table.old }
    ensures within { OnOk result (AreNodesAt table.new entries.new) }
    ensures once { OnOk result (AreOnceAt table.new entries.new) }
    ensures from { OnOk result (entries.new.from ≤ 1) }
    ensures inner { 2 ≤ diagram_size table.new }
{
    let mut plan = EntryPlan::new(alloc);
    make_all(alloc, entries, &mut plan, table, files)?;
    entries.reserve(&plan)?;
    entries.install(plan, Position::new(1));
    Ok(())
}

// Plans so many files, each with the number behind that of the one before.
fn make_all(
    alloc: Global,
    entries: &Entries,
    plan: &mut EntryPlan,
    table: &mut Table,
    files: u16,
) -> Result<(), Memory>
    requires none { nodes_with plan.old entries.now ≡ [] }
    requires within { AreNodesWith table.old plan.old entries.now }
    requires once { AreOnceWith table.old plan.old entries.now }
    requires inner { 2 ≤ diagram_size table.old }
    ensures within { AreNodesWith table.new plan.new entries.now }
    ensures once { AreOnceWith table.new plan.new entries.now }
    ensures inner { 2 ≤ diagram_size table.new }
{
    'files: for file in 0..files {
        make(alloc, entries, plan, table, u32::from(file) + 1)?;
    }
    Ok(())
}

// Plans a file.
fn make(
    alloc: Global,
    entries: &Entries,
    plan: &mut EntryPlan,
    table: &mut Table,
    node: u32,
) -> Result<(), Memory>
    requires fresh { has_node node (0 ∷ nodes_with plan.old entries.now) ≡ false }
    requires within { AreNodesWith table.old plan.old entries.now }
    requires once { AreOnceWith table.old plan.old entries.now }
    requires inner { 2 ≤ diagram_size table.old }
    ensures nodes { OnOk result (nodes_with plan.new entries.now ≡
        nodes_with plan.old entries.now ++ node ∷ []) }
    ensures within { AreNodesWith table.new plan.new entries.now }
    ensures once { AreOnceWith table.new plan.new entries.now }
    ensures inner { 2 ≤ diagram_size table.new }
{
    let name = name_of(alloc, b'f', node)?;
    let root = NodeNo::new(0);
    plan.created(
        entries,
        table,
        NodeNo::new(node),
        Kind::File,
        root,
        &name,
        TRUE,
    )
}

// A letter and a number.
fn name_of(alloc: Global, letter: u8, number: u32) -> Result<Name, Memory> {
    let mut bytes = Vec::new(alloc);
    bytes.push(letter)?;
    let mut ahead = number;
    'digits: for _ in 0..10 {
        bytes.push(b'0' + (ahead % 10) as u8)?;
        ahead /= 10;
    }
    match Name::read(alloc, &bytes) {
        Ok(name) => Ok(name),
        Err(_) => Err(Memory),
    }
}

// Renames the first so many files, each from a position of its own on.
fn rename_all(
    alloc: Global,
    entries: &mut Entries,
    table: &mut Table,
    renames: u16,
    tested: bool,
) -> Result<(), Memory>
    requires within { AreNodesAt table.old entries.old }
    requires once { AreOnceAt table.old entries.old }
    requires from { entries.old.from ≤ 1 }
    requires inner { 2 ≤ diagram_size table.old }
{
    'renames: for rename in 0..renames {
        let node = u32::from(rename) + 1;
        rename_file(alloc, entries, table, node, tested)?;
    }
    Ok(())
}

// Renames a file from the position behind its number on.
fn rename_file(
    alloc: Global,
    entries: &mut Entries,
    table: &mut Table,
    node: u32,
    tested: bool,
) -> Result<(), Memory>
    requires within { AreNodesAt table.old entries.old }
    requires once { AreOnceAt table.old entries.old }
    requires from { entries.old.from ≤ node }
    requires near { node < 65_536 }
    requires inner { 2 ≤ diagram_size table.old }
    ensures within { OnOk result (AreNodesAt table.new entries.new) }
    ensures once { OnOk result (AreOnceAt table.new entries.new) }
    ensures from { OnOk result (entries.new.from ≤ node + 1) }
    ensures inner { OnOk result (2 ≤ diagram_size table.new) }
{
    nodes_stay();
    once_stays();
    let name = name_of(alloc, b'g', node)?;
    let mut plan = EntryPlan::new(alloc);
    plan_rename(entries, &mut plan, table, NodeNo::new(node), &name, tested)?;
    entries.reserve(&plan)?;
    entries.install(plan, Position::new(node + 1));
    Ok(())
}

// Plans another name of a node, and tests the rows with it, if they are to be.
fn plan_rename(
    entries: &Entries,
    plan: &mut EntryPlan,
    table: &mut Table,
    node: NodeNo,
    name: &Name,
    tested: bool,
) -> Result<(), Memory>
    requires within { AreNodesWith table.old plan.old entries.now }
    requires once { AreOnceWith table.old plan.old entries.now }
    requires inner { 2 ≤ diagram_size table.old }
    ensures extends { Extends table.old table.new }
    ensures within { OnOk result (AreNodesWith table.new plan.new entries.now) }
    ensures once { OnOk result (AreOnceWith table.new plan.new entries.now) }
{
    plan.renamed(entries, table, node, name, TRUE)?;
    test(entries, plan, table, tested)
}

// Makes the node of the choices on which the rows with a plan have a fault, if it is to be made.
fn test(entries: &Entries, plan: &EntryPlan, table: &mut Table, tested: bool) -> Result<(), Memory>
    requires within { AreNodesWith table.old plan.now entries.now }
    requires once { AreOnceWith table.old plan.now entries.now }
    requires inner { 2 ≤ diagram_size table.old }
    ensures extends { Extends table.old table.new }
    ensures within { OnOk result (AreNodesWith table.new plan.now entries.now) }
    ensures once { OnOk result (AreOnceWith table.new plan.now entries.now) }
{
    nodes_stay();
    once_stays();
    if !tested {
        return Ok(());
    }
    entries.unsound(plan, table, TRUE)?;
    Ok(())
}
