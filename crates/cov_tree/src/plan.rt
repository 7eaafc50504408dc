// Changes of the nodes of a store that are to come.
ghost use Rattle.std.specs.Prelude.{◌≡◌, ◌<◌, ◌≤◌, ◌++◌, ◌∷◌, ℕ, List, Bool, [], Some, false, nat_eq, length, position, IfSome, IfOk, OnOk, OnErr};
ghost use Rattle.cov_base.specs.Rows.{Created, Renamed, Moved, Removed, has_node, AreDistinct};
ghost use Rattle.cov_dd.specs.declared.triple.Triple.{Triple};
ghost use Rattle.cov_dd.specs.Diagrams.{diagram_size, Extends};
ghost use Rattle.cov_tree.specs.Entries.{nodes_of};
ghost use Rattle.cov_tree.specs.Dated.{Dated, newest_nodes, planned, rows_at, rows_with, nodes_in, kinds_in, nodes_with, kinds_with};
ghost use Rattle.cov_tree.specs.Carried.{AreNodesAt, AreNodesWith, AreOnceAt, AreOnceWith, AreUnreadAt, AreUnreadWith};
ghost use Rattle.cov_tree.specs.Changes.{Makes, MayChange, Stays, IsAlike, IsMade};
ghost use Rattle.cov_tree.specs.Shifts.{change_of, place_at};
ghost use Rattle.cov_tree.specs.Planning.{IsPlannedAt, CanBeShifted, IsShifted};
ghost use Rattle.cov_tree.specs.Standing.{places_with};

use crate::Entries;
use crate::entry::{Entry, Place, Places};
use crate::parting::{Shift, parted};
use cov_base::{Kind, Memory, Name, NodeNo};
use cov_dd::{Node, Table};
use indexmap::IndexSet;
use std::alloc::Global;
use std::collections::VecDeque;
use std::marker::Model;

/// Changes of entries, each where its ambition is true. It holds the nodes that it changes or makes, and no others, each found by
/// its number with one look-up; the i-th key is the node of entry i. Contracts tell of the rows that there are with them on each
/// choice (`rows_with`), and by `Makes` what the changes are. All calls with one plan are over the same entries.
#[derive(Drop)]
pub struct EntryPlan {
    alloc: Global,
    entries: Vec<Entry>,
    keys: IndexSet<NodeNo>,
}

impl Model for EntryPlan {
    ghost use Rattle.std.specs.Prelude.{◌≡◌, List, ◌∷◌};
    ghost use Rattle.cov_base.specs.Rows.{AreDistinct};
    ghost use Rattle.cov_tree.specs.declared.entry.Entry.{Entry as EntryValue};
    ghost use Rattle.cov_tree.specs.Entries.{nodes_of};

    ghost Value = { List EntryValue };

    ghost view = { λ p. p.entries.items };

    ghost invariant = { λ p. AreDistinct (0 ∷ nodes_of p.entries.items) ×
        (p.keys.keys ≡ nodes_of p.entries.items) };
}

impl EntryPlan {
    /// It makes no change.
    pub fn new(alloc: Global) -> EntryPlan
        ensures rows { (table : List Triple) (entries : Dated) (c : List Bool) (p : ℕ) →
            entries.from ≤ p → rows_with table c result entries ≡ rows_at table c p entries }
        ensures makes { (table : List Triple) (entries : Dated) → AreNodesAt table entries →
            Makes table entries result [] }
        ensures nodes { (entries : Dated) → nodes_with result entries ≡ nodes_in entries }
        ensures kinds { (entries : Dated) → kinds_with result entries ≡ kinds_in entries }
        ensures within { (table : List Triple) (entries : Dated) → AreNodesAt table entries →
            AreNodesWith table result entries }
        ensures once { (table : List Triple) (entries : Dated) → AreOnceAt table entries →
            AreOnceWith table result entries }
        ensures options { (table : List Triple) (entries : Dated) (count : ℕ) →
            AreUnreadAt table entries count → AreUnreadWith table result entries count }
    {
        EntryPlan {
            alloc,
            entries: Vec::new(alloc),
            keys: IndexSet::new(alloc),
        }
    }

    /// Makes a node in a directory.
    pub fn created(
        &mut self,
        entries: &Entries,
        table: &mut Table,
        node: NodeNo,
        kind: Kind,
        parent: NodeNo,
        name: &Name,
        ambition: Node,
    ) -> Result<(), Memory>
        requires fresh { has_node node (0 ∷ nodes_with self.old entries.now) ≡ false }
        requires may { MayChange table.old entries.now self.old ambition }
        ensures stays { Stays table.old table.new entries.now self.old self.new ambition }
        ensures ok { OnOk result (IsMade table.old table.new entries.now self.old self.new
            (Created node kind parent name.now) ambition) }
        ensures err { OnErr result (IsAlike entries.now self.old self.new) }
    {
        // The row of a new node is seen on the ambition itself, so no node is made, and none has its number.
        let _ = table;
        let _ = entries;
        self.add_new(node, kind, parent, name, ambition)
    }

    /// Gives a node another name. It changes nothing where the node has no row.
    pub fn renamed(
        &mut self,
        entries: &Entries,
        table: &mut Table,
        node: NodeNo,
        name: &Name,
        ambition: Node,
    ) -> Result<(), Memory>
        requires may { MayChange table.old entries.now self.old ambition }
        ensures stays { Stays table.old table.new entries.now self.old self.new ambition }
        ensures ok { OnOk result (IsMade table.old table.new entries.now self.old self.new
            (Renamed node name.now) ambition) }
        ensures err { OnErr result (IsAlike entries.now self.old self.new) }
    {
        let shift = Shift::Renamed(name.copy()?);
        self.shift(entries, table, node, &shift, ambition)
    }

    /// Puts a node into another directory. It changes nothing where the node has no row.
    pub fn moved(
        &mut self,
        entries: &Entries,
        table: &mut Table,
        node: NodeNo,
        parent: NodeNo,
        ambition: Node,
    ) -> Result<(), Memory>
        requires may { MayChange table.old entries.now self.old ambition }
        ensures stays { Stays table.old table.new entries.now self.old self.new ambition }
        ensures ok { OnOk result (IsMade table.old table.new entries.now self.old self.new
            (Moved node parent) ambition) }
        ensures err { OnErr result (IsAlike entries.now self.old self.new) }
    {
        self.shift(entries, table, node, &Shift::Moved(parent), ambition)
    }

    /// Takes a node out. It changes nothing where the node has no row.
    pub fn removed(
        &mut self,
        entries: &Entries,
        table: &mut Table,
        node: NodeNo,
        ambition: Node,
    ) -> Result<(), Memory>
        requires may { MayChange table.old entries.now self.old ambition }
        ensures stays { Stays table.old table.new entries.now self.old self.new ambition }
        ensures ok { OnOk result (IsMade table.old table.new entries.now self.old self.new
            (Removed node) ambition) }
        ensures err { OnErr result (IsAlike entries.now self.old self.new) }
    {
        self.shift(entries, table, node, &Shift::Removed, ambition)
    }

    // Shifts the places of a node where the ambition is true.
    fn shift(
        &mut self,
        entries: &Entries,
        table: &mut Table,
        node: NodeNo,
        shift: &Shift,
        ambition: Node,
    ) -> Result<(), Memory>
        requires may { MayChange table.old entries.now self.old ambition }
        ensures stays { Stays table.old table.new entries.now self.old self.new ambition }
        ensures ok { OnOk result (IsMade table.old table.new entries.now self.old self.new
            (change_of node shift.now) ambition) }
        ensures err { OnErr result (IsAlike entries.now self.old self.new) }
    {
        entries.stand_once();
        match self.place_for(entries, node)? {
            Some(at) => shift_entry(&mut self.entries, table, at, shift, ambition),
            None => Ok(()),
        }
    }

    // Where a node stands in the plan, which takes it from the entries unless it has it. There is none where these have none.
    fn place_for(&mut self, entries: &Entries, node: NodeNo) -> Result<Option<usize>, Memory>
        ensures same { planned self.new (newest_nodes entries.now) ≡
            planned self.old (newest_nodes entries.now) }
        ensures place { IfOk result (λ place.
            IsPlannedAt node place self.new (nodes_with self.old entries.now)) }
    {
        if let Some(at) = self.place_of(node) {
            return Ok(Some(at));
        }
        match entries.newest(node)? {
            Some(entry) => self.add(entry),
            None => Ok(None),
        }
    }

    // Where a node stands.
    fn place_of(&self, node: NodeNo) -> Option<usize>
        ensures place { result ≡ position (λ e. nat_eq e.node node) self.now }
        ensures within { IfSome result (λ at. at < length self.now) }
    {
        self.keys.get_index_of(&node)
    }

    // Adds a node that has one place, and that the plan doesn't have.
    fn add_new(
        &mut self,
        node: NodeNo,
        kind: Kind,
        parent: NodeNo,
        name: &Name,
        vis: Node,
    ) -> Result<(), Memory>
        requires fresh { has_node node (0 ∷ nodes_of self.old) ≡ false }
        ensures ok { OnOk result (self.new ≡
            self.old ++
            record { node = node; kind = kind; places = place_at parent name.now vis ∷ [] } ∷ []) }
        ensures err { OnErr result (self.new ≡ self.old) }
    {
        let name = name.copy()?;
        let places = Places::of(self.alloc, Place { parent, name, vis })?;
        self.add(Entry { node, kind, places })?;
        Ok(())
    }

    // Adds a node that the plan doesn't have, and answers where it stands.
    fn add(&mut self, entry: Entry) -> Result<Option<usize>, Memory>
        requires fresh { has_node entry.node (0 ∷ nodes_of self.old) ≡ false }
        ensures ok { IfOk result (λ at. (at ≡ Some (length self.old)) ×
            (self.new ≡ self.old ++ entry ∷ [])) }
        ensures err { OnErr result (self.new ≡ self.old) }
    {
        let at = self.entries.len();
        self.entries.reserve(1)?;
        self.keys.insert(entry.node)?;
        self.entries.push_reserved(entry);
        Ok(Some(at))
    }

    /// The places that it has for a node, or the node's own where it doesn't have the node.
    pub(crate) fn places_of<'a>(&'a self, node: NodeNo, own: &'a [Place]) -> &'a [Place]
        ensures { result.now ≡ places_with self.now node own.now }
    {
        match self.place_of(node) {
            Some(at) => self.entries[at].places.as_slice(),
            None => own,
        }
    }

    /// The nodes that it changes or makes.
    pub(crate) fn as_slice(&self) -> &[Entry]
        ensures nodes { result.now ≡ self.now }
        ensures distinct { AreDistinct (0 ∷ nodes_of self.now) }
    {
        self.entries.as_slice()
    }

    /// These nodes. It takes no memory.
    pub(crate) fn into_entries(self) -> VecDeque<Entry>
        ensures nodes { result.items ≡ self }
        ensures distinct { AreDistinct (0 ∷ nodes_of self) }
    {
        VecDeque::from(self.entries)
    }
}

// Shifts the places of the node at an index where the ambition is true.
fn shift_entry(
    list: &mut Vec<Entry>,
    table: &mut Table,
    at: usize,
    shift: &Shift,
    ambition: Node,
) -> Result<(), Memory>
    requires entry { CanBeShifted table.old list.old.items at }
    requires ambition { ambition < diagram_size table.old }
    ensures extends { Extends table.old table.new }
    ensures ok { OnOk result (IsShifted table.old table.new list.old.items list.new.items at
        shift.now ambition) }
    ensures err { OnErr result (list.new.items ≡ list.old.items) }
{
    let alloc = *list.allocator();
    let places = parted(table, alloc, list[at].places.as_slice(), ambition, shift)?;
    list[at].places = places;
    Ok(())
}
