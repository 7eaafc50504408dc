// What nodes show on a choice, in a tree that is shared.
ghost use Rattle.std.specs.Prelude.{◌≡◌, ◌++◌, ◌∷◌, ℕ, Bool, [], true, false, map, IfOk, IfSome, OnOk};
ghost use Rattle.cov_base.specs.Rows.{is_present, AreOnce};
ghost use Rattle.cov_dd.specs.Diagrams.{value_in};
ghost use Rattle.cov_tree.specs.Dated.{entry_at, newest_entry, rows_at};
ghost use Rattle.cov_tree.specs.Entries.{row_at, rows_in, rows_of};
ghost use Rattle.cov_tree.specs.Shown.{rows_by, rows_of_by, IsTree};
ghost use Rattle.cov_values.specs.Values.{Agrees};

use super::Entries;
use crate::dated::DatedEntry;
use crate::entry::Place;
use crate::trees::KeptTree;
use cov_base::{Choice, Kind, Memory, NodeNo, Position, Shared};
use cov_dd::Table;
use cov_values::Values;
use cov_view::{SharedTree, ShownTree};
use std::alloc::Global;

impl Entries {
    /// The rows on a choice at a position, shared with what is kept where that is right. Where none is, it takes time in the
    /// nodes, and evaluates the visibility of each place there once.
    pub fn shown(&self, table: &Table, choice: Choice, at: Position) -> Result<SharedTree, Memory>
        requires once { AreOnce (rows_at table.now choice at self.now) }
        ensures { IfOk result (λ tree. tree ≡ rows_at table.now choice at self.now) }
    {
        if let Some(tree) = self.kept(table, choice, at) {
            return Ok(tree);
        }
        let alloc = *self.entries.allocator();
        tree_on(alloc, self.entries.as_slice(), table, choice, at)
    }

    // The kept tree that is right on a choice at a position, if there is one. It evaluates the visibilities of kept trees alone.
    fn kept(&self, table: &Table, choice: Choice, at: Position) -> Option<SharedTree>
        ensures { IfSome result (λ tree. tree ≡ rows_at table.now choice at self.now) }
    {
        if at < self.from {
            return None;
        }
        self.trees.find(table, choice)
    }

    /// Keeps what is shown on a choice from the newest change on, if it isn't yet. It takes time in the nodes where it isn't, and
    /// else in the visibilities under which the kept trees are right. Where there is no memory, where the visibilities are more
    /// than may be or where a node would stand twice, none is kept, nor is another one until a plan with a change is installed
    /// or the visibilities are renumbered.
    pub fn keep(&mut self, table: &Table, choice: Choice)
        ensures { self.new ≡ self.old }
    {
        if !self.trees.wants(table, choice) {
            return;
        }
        let alloc = *self.entries.allocator();
        match kept_tree(alloc, self.entries.as_slice(), table, choice) {
            Ok(kept) => self.trees.keep(kept),
            Err(_) => self.trees.stop_keeping(),
        }
    }
}

// The rows that nodes have on a choice at a position.
fn tree_on(
    alloc: Global,
    entries: &[DatedEntry],
    table: &Table,
    choice: Choice,
    at: Position,
) -> Result<SharedTree, Memory>
    requires once { AreOnce (rows_in table.now choice (map (entry_at at) entries.now)) }
    ensures { IfOk result (λ tree. tree ≡
        rows_in table.now choice (map (entry_at at) entries.now)) }
{
    let mut tree = ShownTree::new(alloc);
    add_all(&mut tree, entries, table, choice, at)?;
    Shared::new(alloc, tree)
}

// Adds the rows that nodes have on a choice at a position.
fn add_all(
    tree: &mut ShownTree,
    entries: &[DatedEntry],
    table: &Table,
    choice: Choice,
    at: Position,
) -> Result<(), Memory>
    requires once { AreOnce (tree.old ++
        rows_in table.now choice (map (entry_at at) entries.now)) }
    ensures { OnOk result (tree.new ≡ tree.old ++
        rows_in table.now choice (map (entry_at at) entries.now)) }
{
    let mut ahead = entries;
    while let [entry, rest @ ..] = ahead {
        add_places(
            tree,
            entry.node,
            entry.kind,
            entry.places_at(at),
            table,
            choice,
        )?;
        ahead = rest;
    }
    Ok(())
}

// Adds the rows that a node with these places has on a choice.
fn add_places(
    tree: &mut ShownTree,
    node: NodeNo,
    kind: Kind,
    places: &[Place],
    table: &Table,
    choice: Choice,
) -> Result<(), Memory>
    requires once { AreOnce (tree.old ++ rows_of table.now choice node kind places.now) }
    ensures { OnOk result (tree.new ≡ tree.old ++ rows_of table.now choice node kind places.now) }
{
    let mut ahead = places;
    while let [place, rest @ ..] = ahead {
        add_place(tree, node, kind, place, table, choice)?;
        ahead = rest;
    }
    Ok(())
}

// Adds the row of a node at a place, if it is there on a choice.
fn add_place(
    tree: &mut ShownTree,
    node: NodeNo,
    kind: Kind,
    place: &Place,
    table: &Table,
    choice: Choice,
) -> Result<(), Memory>
    requires fresh { value_in table.now place.now.vis choice ≡ true →
        is_present tree.old node ≡ false }
    ensures { OnOk result (tree.new ≡
        tree.old ++ rows_of table.now choice node kind (place.now ∷ [])) }
{
    if table.value(place.vis, choice) {
        return add_fresh(tree, node, kind, place);
    }
    Ok(())
}

// Adds the row of a node that has none.
fn add_fresh(tree: &mut ShownTree, node: NodeNo, kind: Kind, place: &Place) -> Result<(), Memory>
    requires fresh { is_present tree.old node ≡ false }
    ensures { OnOk result (tree.new ≡ tree.old ++ row_at node kind place.now ∷ []) }
{
    match tree.add(node, kind, place.parent, &place.name) {
        Ok(true) => Ok(()),
        Ok(false) => unreachable!(),
        Err(error) => Err(error),
    }
}

// What the newest nodes show on a choice, with the values of their visibilities. It is refused where these are more than may
// be or a node would stand twice, as want of memory is.
fn kept_tree(
    alloc: Global,
    entries: &[DatedEntry],
    table: &Table,
    choice: Choice,
) -> Result<KeptTree, Memory>
    ensures { IfOk result (IsTree (map newest_entry entries.now)) }
{
    let mut values = Values::new(alloc);
    let mut tree = ShownTree::new(alloc);
    see_all(&mut tree, &mut values, entries, table, choice)?;
    let tree = Shared::new(alloc, tree)?;
    Ok(KeptTree {
        choice,
        values,
        shown: Some(tree),
    })
}

// Adds the rows that the newest nodes have on a choice. The values of their visibilities are among the values then.
fn see_all(
    tree: &mut ShownTree,
    values: &mut Values,
    entries: &[DatedEntry],
    table: &Table,
    choice: Choice,
) -> Result<(), Memory>
    ensures { OnOk result ((f : ℕ → Bool) → Agrees f values.new →
        tree.new ≡ tree.old ++ rows_by f (map newest_entry entries.now)) }
{
    let mut ahead = entries;
    while let [entry, rest @ ..] = ahead {
        see_places(
            tree,
            values,
            entry.node,
            entry.kind,
            entry.places.as_slice(),
            table,
            choice,
        )?;
        ahead = rest;
    }
    Ok(())
}

// Adds the rows that a node with these places has on a choice.
fn see_places(
    tree: &mut ShownTree,
    values: &mut Values,
    node: NodeNo,
    kind: Kind,
    places: &[Place],
    table: &Table,
    choice: Choice,
) -> Result<(), Memory>
    ensures rows { OnOk result ((f : ℕ → Bool) → Agrees f values.new →
        tree.new ≡ tree.old ++ rows_of_by f node kind places.now) }
    ensures grows { OnOk result ((f : ℕ → Bool) → Agrees f values.new → Agrees f values.old) }
{
    let mut ahead = places;
    while let [place, rest @ ..] = ahead {
        see_place(tree, values, node, kind, place, table, choice)?;
        ahead = rest;
    }
    Ok(())
}

// Adds the row of a node at a place, if it is there on a choice.
fn see_place(
    tree: &mut ShownTree,
    values: &mut Values,
    node: NodeNo,
    kind: Kind,
    place: &Place,
    table: &Table,
    choice: Choice,
) -> Result<(), Memory>
    ensures rows { OnOk result ((f : ℕ → Bool) → Agrees f values.new →
        tree.new ≡ tree.old ++ rows_of_by f node kind (place.now ∷ [])) }
    ensures grows { OnOk result ((f : ℕ → Bool) → Agrees f values.new → Agrees f values.old) }
{
    if values.evaluate(place.vis, table, choice)? {
        return see_row(tree, node, kind, place);
    }
    Ok(())
}

// Adds the row of a node at a place. It is refused where the node has one already, as want of memory is.
fn see_row(tree: &mut ShownTree, node: NodeNo, kind: Kind, place: &Place) -> Result<(), Memory>
    ensures { OnOk result (tree.new ≡ tree.old ++ row_at node kind place.now ∷ []) }
{
    match tree.add(node, kind, place.parent, &place.name) {
        Ok(true) => Ok(()),
        Ok(false) => Err(Memory),
        Err(error) => Err(error),
    }
}
