// The nodes of a store at each position.
ghost use Rattle.std.specs.Prelude.{◌≡◌, ◌<◌, ◌≤◌, ◌+◌, ◌-◌, ℕ, nat_eq, List, Bool, true, false, [], ◌∷◌, ◌++◌, ◌&&◌, map, length, position, vec_len, vec_capacity, Some, None, IfOk, IfSome, OnOk, if◌then◌else◌};
ghost use Rattle.std.specs.List.{filter, find, list_any, AllByRecursion};
ghost use Rattle.std.specs.Map.{lookup};
ghost use Rattle.std.specs.Option.{is_some, option_map};
ghost use Rattle.std.specs.Str.{bytes_eq};
ghost use Rattle.cov_base.specs.Faults.{fault_of};
ghost use Rattle.cov_base.specs.Rows.{RowChange, has_node, row_of, AreDistinct};
ghost use Rattle.indexmap.specs.IndexMap.{spare};
ghost use Rattle.cov_dd.specs.Diagrams.{diagram_size, span, value_in, Extends, IsNode};
ghost use Rattle.cov_dd.specs.declared.triple.Triple.{Triple};
ghost use Rattle.cov_tree.specs.Entries.{rows_of, rows_in, row_at, nodes_of};
ghost use Rattle.cov_tree.specs.Looking.{stands_in, is_seen, earlier};
ghost use Rattle.cov_tree.specs.Dated.{entry_at, newest_entry, newest_nodes, planned, rows_at, among, rows_among, nodes_in, kinds_in, rows_with, nodes_with, kinds_with, with_no_room, without_room, HasRoom, HasRoomFor, HaveRoomFor};
ghost use Rattle.cov_tree.specs.Planning.{IsFoundAs};
ghost use Rattle.cov_tree.specs.Installing.{IsPlaceOf, IsIndex, IsPut, AreChanged};
ghost use Rattle.cov_tree.specs.Carried.{AreNodesAt, AreNodesWith, AreOnceAt, AreOnceWith, AreUnreadAt, AreUnreadWith};
ghost use Rattle.cov_tree.specs.Changes.{all_changed, Makes};
ghost use Rattle.cov_tree.specs.Renumbered.{visibilities, AreNodes};

mod renumbering;
mod showing;

use crate::EntryPlan;
use crate::dated::DatedEntry;
use crate::entry::{Entry, Place};
use crate::noted::NotedNodes;
use crate::soundness::unsound;
use crate::standing::{Standing, add_made, as_planned};
use crate::trees::{Trees, let_go_before};
use cov_base::{Choice, Kind, Memory, Name, NodeNo, Position};
use cov_dd::{Node, Table};
use cov_view::{NodeRow, NodeRows};
use indexmap::IndexMap;
use std::alloc::Global;
use std::collections::VecDeque;
use std::marker::Model;

/// How many nodes new entries have room for.
const FIRST_ROOM: usize = 16;

/// Where each node stands among the others, by its number.
type Index = IndexMap<NodeNo, usize>;

/// The nodes that a store ever had, each with its own changes. Contracts tell of the rows that they have on each choice, at each
/// position (`rows_at`) and with a plan (`rows_with`). The root is always there and has no row. A few trees of what was shown
/// last are kept, of which contracts tell nothing.
#[derive(Drop)]
pub struct Entries {
    from: Position,
    entries: Vec<DatedEntry>,
    index: Index,
    noted: NotedNodes,
    trees: Trees,
}

impl Model for Entries {
    ghost use Rattle.std.specs.Prelude.{◌-◌, ◌∷◌, map, min, vec_len, vec_capacity};
    ghost use Rattle.indexmap.specs.IndexMap.{spare};
    ghost use Rattle.cov_base.specs.Rows.{AreDistinct};
    ghost use Rattle.cov_tree.specs.Entries.{nodes_of};
    ghost use Rattle.cov_tree.specs.Dated.{Dated, newest_entry, AreUntil};
    ghost use Rattle.cov_tree.specs.Installing.{IsIndex, AreAllNoted};
    ghost use Rattle.cov_tree.specs.Shown.{AreTrees};

    ghost Value = { Dated };

    ghost view = { λ e. record {
      from = e.from;
      entries = e.entries.items;
      room = min (vec_capacity e.entries - vec_len e.entries) (spare e.index);
      noted = e.noted.nodes.entries;
    } };

    ghost invariant = { λ e. AreDistinct (0 ∷ nodes_of (map newest_entry e.entries.items)) ×
        AreUntil e.from e.entries.items × IsIndex e.index.entries e.entries.items ×
        AreAllNoted e.noted.nodes.entries e.entries.items ×
        AreTrees (map newest_entry e.entries.items) e.trees };
}

impl Entries {
    /// The root alone, from the first position on.
    pub fn new(alloc: Global) -> Result<Entries, Memory>
        ensures from { IfOk result (λ entries. entries.from ≡ 0) }
        ensures rows { IfOk result (λ entries. (table : List Triple) (c : List Bool) (p : ℕ) →
            rows_at table c p entries ≡ []) }
        ensures nodes { IfOk result (λ entries. nodes_in entries ≡ []) }
        ensures kinds { IfOk result (λ entries. kinds_in entries ≡ []) }
        ensures within { IfOk result (λ entries. (table : List Triple) → AreNodesAt table entries) }
        ensures kept { IfOk result (λ entries. visibilities entries ≡ []) }
        ensures once { IfOk result (λ entries. (table : List Triple) → AreOnceAt table entries) }
        ensures options { IfOk result (λ entries. (table : List Triple) (count : ℕ) →
            AreUnreadAt table entries count) }
    {
        Ok(Entries {
            from: Position::new(0),
            entries: Vec::with_capacity(alloc, FIRST_ROOM)?,
            index: IndexMap::new(alloc),
            noted: NotedNodes::new(alloc),
            trees: Trees::new(alloc),
        })
    }

    /// The rows on a choice as they would be with a plan installed. It evaluates each visibility of the plan at most once.
    pub fn rows_with(
        &self,
        plan: &EntryPlan,
        table: &Table,
        choice: Choice,
    ) -> Result<NodeRows, Memory>
        ensures planned { IfOk result (λ rows.
            rows ≡ rows_with table.now choice plan.now self.now) }
        ensures rows { (changes : List (RowChange × ℕ)) (p : ℕ) →
            Makes table.now self.now plan.now changes → self.now.from ≤ p →
            IfOk result (λ rows.
            rows ≡ all_changed table.now choice changes (rows_at table.now choice p self.now)) }
    {
        let alloc = *self.entries.allocator();
        let entries = self.standing(plan)?;
        visible_rows(alloc, entries.as_slice(), table, choice)
    }

    /// The node that is true on exactly the choices of `within` on which the rows as they would be with a plan installed have a
    /// fault. Clashes take a look-up for each directory and name that a node has. The choices on which the root is reached from
    /// each node grow in rounds over all nodes: two where each node was made after its parents, and one more for each parent on a
    /// way to the root that was made after its child.
    pub fn unsound(&self, plan: &EntryPlan, table: &mut Table, within: Node) -> Result<Node, Memory>
        requires within { within < diagram_size table.old }
        requires visible { AreNodesWith table.old plan.now self.now }
        requires once { AreOnceWith table.old plan.now self.now }
        ensures extends { Extends table.old table.new }
        ensures planned { IfOk result (λ r.
            IsNode table.new
            r
            (λ c. value_in table.old within c && is_some
            (fault_of (rows_with table.old c plan.now self.now)))) }
        ensures faults { (changes : List (RowChange × ℕ)) (p : ℕ) →
            Makes table.old self.now plan.now changes → self.now.from ≤ p →
            IfOk result (λ r.
            IsNode table.new
            r
            (λ c. value_in table.old within c && is_some
            (fault_of (all_changed table.old c changes (rows_at table.old c p self.now))))) }
        ensures options { (count : ℕ) → span table.old within ≤ count →
            AreUnreadWith table.old plan.now self.now count →
            IfOk result (λ r. span table.new r ≤ count) }
    {
        let alloc = *self.entries.allocator();
        let entries = self.standing(plan)?;
        unsound(table, alloc, entries.as_slice(), within)
    }

    /// Makes room for a plan: for a change of each node that it changes, and for those that it makes. Each place of these nodes is
    /// noted, so that nothing is left for `install` to note; a look-up passes over those of a plan that is given up. It takes no time
    /// in other nodes, but for those that were noted at the same places.
    pub fn reserve(&mut self, plan: &EntryPlan) -> Result<(), Memory>
        ensures same { without_room self.new ≡ without_room self.old }
        ensures from { self.new.from ≡ self.old.from }
        ensures room { OnOk result (HasRoom plan.now self.new) }
    {
        let plan = plan.as_slice();
        self.noted.note_all(plan)?;
        reserve_changes(&mut self.entries, &self.index, plan)?;
        self.entries.reserve(plan.len())?;
        self.index.reserve(plan.len())?;
        Ok(())
    }

    /// Makes the changes of a plan from a position on, and lets the trees that are kept go if there are any. It takes no memory.
    pub fn install(&mut self, plan: EntryPlan, at: Position)
        requires later { self.old.from ≤ at }
        requires room { HasRoom plan self.old }
        ensures planned { (table : List Triple) (c : List Bool) (p : ℕ) → at ≤ p →
            rows_at table c p self.new ≡ rows_with table c plan self.old }
        ensures rows { (table : List Triple) (changes : List (RowChange × ℕ)) →
            Makes table self.old plan changes → (c : List Bool) (p : ℕ) → at ≤ p →
            rows_at table c p self.new ≡ all_changed table c changes (rows_at table c p self.old) }
        ensures before { (table : List Triple) (c : List Bool) (p : ℕ) → p < at →
            rows_at table c p self.new ≡ rows_at table c p self.old }
        ensures from { self.new.from ≤ at }
        ensures nodes { nodes_in self.new ≡ nodes_with plan self.old }
        ensures kinds { kinds_in self.new ≡ kinds_with plan self.old }
        ensures within { (table : List Triple) → AreNodesAt table self.old →
            AreNodesWith table plan self.old → AreNodesAt table self.new }
        ensures kept { (table : List Triple) → AreNodes table (visibilities self.old) →
            AreNodesWith table plan self.old → AreNodes table (visibilities self.new) }
        ensures once { (table : List Triple) → AreOnceAt table self.old →
            AreOnceWith table plan self.old → AreOnceAt table self.new }
        ensures options { (table : List Triple) (count : ℕ) → AreUnreadAt table self.old count →
            AreUnreadWith table plan self.old count → AreUnreadAt table self.new count }
    {
        let_go_before(&mut self.trees, &plan);
        change_all(&mut self.entries, &mut self.index, plan.into_entries(), at);
        self.from = at;
    }

    /// The rows on a choice at a position. It evaluates each visibility there at most once.
    pub fn rows_at(&self, table: &Table, choice: Choice, at: Position) -> Result<NodeRows, Memory>
        ensures { IfOk result (λ rows. rows ≡ rows_at table.now choice at self.now) }
    {
        let alloc = *self.entries.allocator();
        rows_on(alloc, self.entries.as_slice(), table, choice, at)
    }

    /// The rows of these nodes alone on a choice at a position, in the order of the nodes. It takes no time in other nodes.
    pub fn rows_among(
        &self,
        nodes: &[NodeNo],
        table: &Table,
        choice: Choice,
        at: Position,
    ) -> Result<NodeRows, Memory>
        ensures { IfOk result (λ rows. rows ≡ rows_among table.now choice at nodes.now self.now) }
    {
        let alloc = *self.entries.allocator();
        rows_of_all(
            alloc,
            self.entries.as_slice(),
            &self.index,
            nodes,
            table,
            choice,
            at,
        )
    }

    /// The node of that name in a directory, on a choice at a position. It takes no memory, and looks at no other nodes than those
    /// that ever stood under that name there, and those of plans that were given up.
    pub fn child_at(
        &self,
        table: &Table,
        choice: Choice,
        at: Position,
        dir: NodeNo,
        name: &Name,
    ) -> Option<NodeNo>
        ensures { result ≡ option_map (λ r. r.node)
            (find (λ r. nat_eq r.parent dir && bytes_eq r.name name.now)
            (rows_at table.now choice at self.now)) }
    {
        let noted = self.noted.at(dir, name);
        match first_child(
            &self.entries,
            &self.index,
            noted,
            table,
            choice,
            at,
            dir,
            name,
        ) {
            Some(index) => Some(self.entries[index].node),
            None => None,
        }
    }

    /// The kind of a node that is there on a choice at a position, None where it isn't. It looks at no other node.
    pub fn kind_at(&self, table: &Table, choice: Choice, at: Position, node: NodeNo) -> Option<Kind>
        ensures { result ≡ option_map (λ r. r.kind)
            (row_of (rows_at table.now choice at self.now) node) }
    {
        match place_of(&self.entries, &self.index, node) {
            Some(index) => kind_seen(&self.entries[index], table, choice, at),
            None => None,
        }
    }

    // The nodes as they would be with a plan installed. Their places are lent, so it takes memory for the nodes alone.
    fn standing<'a>(&'a self, plan: &'a EntryPlan) -> Result<Vec<Standing<'a>>, Memory>
        ensures nodes { IfOk result (λ list.
            list.items ≡ planned plan.now (newest_nodes self.now)) }
        ensures distinct { AreDistinct (0 ∷ nodes_of (planned plan.now (newest_nodes self.now))) }
    {
        let alloc = *self.entries.allocator();
        let made = plan.as_slice();
        let mut list = as_planned(alloc, self.entries.as_slice(), plan)?;
        add_made(&mut list, self, made)?;
        Ok(list)
    }

    /// Whether a node is there.
    pub(crate) fn has(&self, node: NodeNo) -> bool
        ensures { result ≡ has_node node (nodes_in self.now) }
    {
        place_of(&self.entries, &self.index, node).is_some()
    }

    /// Each node stands once, and the root isn't among them.
    pub(crate) fn stand_once(&self)
        ensures { AreDistinct (0 ∷ nodes_in self.now) }
    {
        // It shows what the type's invariant says.
        let _ = &self.entries;
    }

    /// A node since its newest change, in memory of its own.
    pub(crate) fn newest(&self, node: NodeNo) -> Result<Option<Entry>, Memory>
        ensures { IfOk result (λ found. IsFoundAs node found (newest_nodes self.now)) }
    {
        match place_of(&self.entries, &self.index, node) {
            Some(at) => Ok(Some(self.entries[at].newest()?)),
            None => Ok(None),
        }
    }
}

// Makes room for a change of each node that a plan changes.
fn reserve_changes(
    entries: &mut Vec<DatedEntry>,
    index: &Index,
    plan: &[Entry],
) -> Result<(), Memory>
    requires once { AreDistinct (nodes_of (map newest_entry entries.old.items)) }
    requires indexed { IsIndex index.now.entries entries.old.items }
    ensures same { map with_no_room entries.new.items ≡ map with_no_room entries.old.items }
    ensures room { OnOk result (HaveRoomFor plan.now entries.new.items) }
{
    'plan: for entry in plan {
        reserve_change(entries, index, entry.node)?;
    }
    Ok(())
}

// Makes room for a change of a node, if it is there.
fn reserve_change(entries: &mut Vec<DatedEntry>, index: &Index, node: NodeNo) -> Result<(), Memory>
    requires once { AreDistinct (nodes_of (map newest_entry entries.old.items)) }
    requires indexed { IsIndex index.now.entries entries.old.items }
    ensures same { map with_no_room entries.new.items ≡ map with_no_room entries.old.items }
    ensures room { OnOk result (AllByRecursion (HasRoomFor node) entries.new.items) }
    ensures kept { OnOk result ((other : ℕ) → AllByRecursion (HasRoomFor other) entries.old.items →
        AllByRecursion (HasRoomFor other) entries.new.items) }
{
    match place_of(entries, index, node) {
        Some(at) => entries[at].reserve(),
        None => Ok(()),
    }
}

// Gives nodes the places that a plan has for them, from a position on, and puts those that it makes behind them. It takes no
// memory.
fn change_all(entries: &mut Vec<DatedEntry>, index: &mut Index, plan: VecDeque<Entry>, at: Position)
    requires distinct { AreDistinct (0 ∷ nodes_of plan.items) }
    requires once { AreDistinct (0 ∷ nodes_of (map newest_entry entries.old.items)) }
    requires indexed { IsIndex index.old.entries entries.old.items }
    requires made { length plan.items ≤ vec_capacity entries.old - vec_len entries.old }
    requires spare { length plan.items ≤ spare index.old }
    requires changed { HaveRoomFor plan.items entries.old.items }
    ensures changed { AreChanged at plan.items entries.old.items entries.new.items }
    ensures indexed { IsIndex index.new.entries entries.new.items }
{
    let mut plan = plan;
    while let Some(entry) = plan.pop_front() {
        change(entries, index, entry, at);
    }
}

// Gives a node other places from a position on, or puts it behind the others.
fn change(entries: &mut Vec<DatedEntry>, index: &mut Index, entry: Entry, at: Position)
    requires once { AreDistinct (nodes_of (map newest_entry entries.old.items)) }
    requires indexed { IsIndex index.old.entries entries.old.items }
    requires made { vec_len entries.old < vec_capacity entries.old }
    requires spare { 0 < spare index.old }
    requires room { AllByRecursion (HasRoomFor entry.node) entries.old.items }
    ensures changed { AreChanged at (entry ∷ []) entries.old.items entries.new.items }
    ensures indexed { IsIndex index.new.entries entries.new.items }
    ensures spare { spare index.old ≤ spare index.new + 1 }
    ensures made { vec_capacity entries.old - vec_len entries.old ≤
        vec_capacity entries.new - vec_len entries.new + 1 }
    ensures kept { (other : ℕ) → nat_eq entry.node other ≡ false →
        AllByRecursion (HasRoomFor other) entries.old.items →
        AllByRecursion (HasRoomFor other) entries.new.items }
{
    match place_of(entries, index, entry.node) {
        Some(place) => entries[place].set(entry.places, at),
        None => put(entries, index, entry, at),
    }
}

// Puts a node behind the others.
fn put(entries: &mut Vec<DatedEntry>, index: &mut Index, entry: Entry, at: Position)
    requires indexed { IsIndex index.old.entries entries.old.items }
    requires fresh { has_node entry.node (nodes_of (map newest_entry entries.old.items)) ≡ false }
    requires made { vec_len entries.old < vec_capacity entries.old }
    requires spare { 0 < spare index.old }
    ensures put { IsPut at entry entries.old.items entries.new.items }
    ensures indexed { IsIndex index.new.entries entries.new.items }
    ensures spare { spare index.old ≤ spare index.new + 1 }
    ensures made { vec_capacity entries.old - vec_len entries.old ≤
        vec_capacity entries.new - vec_len entries.new + 1 }
{
    let alloc = *entries.allocator();
    note_place(index, entry.node, entries.len());
    entries.push_reserved(DatedEntry::new(alloc, entry, at));
}

// Notes where a node stands that the index doesn't have.
fn note_place(index: &mut Index, node: NodeNo, at: usize)
    requires spare { 0 < spare index.old }
    ensures noted { (n : ℕ) → lookup (nat_eq n) index.new.entries ≡
        (if nat_eq node n then Some at else lookup (nat_eq n) index.old.entries) }
    ensures spare { spare index.old ≤ spare index.new + 1 }
{
    match index.insert(node, at) {
        Ok(_) => (),
        Err(_) => unreachable!(),
    }
}

// Where a node stands. Where the nodes have the numbers 1, 2 and so on, it takes no look-up in the index.
fn place_of(entries: &[DatedEntry], index: &Index, node: NodeNo) -> Option<usize>
    requires once { AreDistinct (nodes_of (map newest_entry entries.now)) }
    requires indexed { IsIndex index.now.entries entries.now }
    ensures place { IsPlaceOf node entries.now result }
    ensures within { IfSome result (λ at. at < length entries.now) }
{
    let likely = (node.number() as usize).saturating_sub(1);
    match entries.get(likely) {
        Some(entry) if entry.node == node => Some(likely),
        _ => indexed_place(index, node),
    }
}

// The place of a node that the index has.
fn indexed_place(index: &Index, node: NodeNo) -> Option<usize>
    ensures { result ≡ lookup (nat_eq node) index.now.entries }
{
    index.get(&node).copied()
}

// Where the first node stands that has a name in a directory, on a choice at a position. It is among some nodes.
fn first_child(
    entries: &[DatedEntry],
    index: &Index,
    nodes: &[NodeNo],
    table: &Table,
    choice: Choice,
    at: Position,
    dir: NodeNo,
    name: &Name,
) -> Option<usize>
    requires once { AreDistinct (nodes_of (map newest_entry entries.now)) }
    requires indexed { IsIndex index.now.entries entries.now }
    requires noted { AllByRecursion (λ e. stands_in table.now choice dir name.now
        (entry_at at e).places ≡ true → has_node e.node nodes.now ≡ true) entries.now }
    ensures place { result ≡ position (λ e. stands_in table.now choice dir name.now
        (entry_at at e).places) entries.now }
{
    let mut first = None;
    'nodes: for node in nodes {
        let child = child_of(entries, index, *node, table, choice, at, dir, name);
        first = earlier(first, child);
    }
    first
}

// Where a node stands, if it has a name in a directory, on a choice at a position.
fn child_of(
    entries: &[DatedEntry],
    index: &Index,
    node: NodeNo,
    table: &Table,
    choice: Choice,
    at: Position,
    dir: NodeNo,
    name: &Name,
) -> Option<usize>
    requires once { AreDistinct (nodes_of (map newest_entry entries.now)) }
    requires indexed { IsIndex index.now.entries entries.now }
    ensures { result ≡ position (λ e. nat_eq e.node node && stands_in table.now choice dir name.now
        (entry_at at e).places) entries.now }
{
    let Some(place) = place_of(entries, index, node) else {
        return None;
    };
    if stands_in(entries[place].places_at(at), table, choice, dir, name) {
        return Some(place);
    }
    None
}

// The earlier of two places.
fn earlier(a: Option<usize>, b: Option<usize>) -> Option<usize>
    ensures { result ≡ earlier a b }
{
    match (a, b) {
        (Some(i), Some(j)) => Some(i.min(j)),
        (Some(i), None) => Some(i),
        (None, place) => place,
    }
}

// Whether one of these places is a name in a directory and is there on a choice.
fn stands_in(places: &[Place], table: &Table, choice: Choice, dir: NodeNo, name: &Name) -> bool
    ensures { result ≡ stands_in table.now choice dir name.now places.now }
{
    places.iter().any(|place| place.parent == dir
        && place.name.as_slice() == name.as_slice()
        && table.value(place.vis, choice))
}

// The kind of a node, if it is there on a choice at a position.
fn kind_seen(entry: &DatedEntry, table: &Table, choice: Choice, at: Position) -> Option<Kind>
    ensures { result ≡ (if is_seen table.now choice (entry_at at entry.now).places
        then Some entry.now.kind else None) }
{
    if is_seen(entry.places_at(at), table, choice) {
        return Some(entry.kind);
    }
    None
}

// Whether one of these places is there on a choice.
fn is_seen(places: &[Place], table: &Table, choice: Choice) -> bool
    ensures { result ≡ is_seen table.now choice places.now }
{
    places.iter().any(|place| table.value(place.vis, choice))
}

// The rows that nodes have on a choice at a position.
fn rows_on(
    alloc: Global,
    entries: &[DatedEntry],
    table: &Table,
    choice: Choice,
    at: Position,
) -> Result<NodeRows, Memory>
    ensures { IfOk result (λ rows. rows ≡
        rows_in table.now choice (map (entry_at at) entries.now)) }
{
    let mut rows = NodeRows::new(alloc);
    'entries: for entry in entries {
        add_rows(
            &mut rows,
            entry.node,
            entry.kind,
            entry.places_at(at),
            table,
            choice,
        )?;
    }
    Ok(rows)
}

// The rows that these nodes have on a choice at a position.
fn rows_of_all(
    alloc: Global,
    entries: &[DatedEntry],
    index: &Index,
    nodes: &[NodeNo],
    table: &Table,
    choice: Choice,
    at: Position,
) -> Result<NodeRows, Memory>
    requires once { AreDistinct (nodes_of (map newest_entry entries.now)) }
    requires indexed { IsIndex index.now.entries entries.now }
    ensures { IfOk result (λ rows. rows ≡
        among nodes.now (rows_in table.now choice (map (entry_at at) entries.now))) }
{
    let mut rows = NodeRows::new(alloc);
    'nodes: for node in nodes {
        add_rows_of(&mut rows, entries, index, *node, table, choice, at)?;
    }
    Ok(rows)
}

// Adds the rows that one of these nodes has on a choice at a position.
fn add_rows_of(
    rows: &mut NodeRows,
    entries: &[DatedEntry],
    index: &Index,
    node: NodeNo,
    table: &Table,
    choice: Choice,
    at: Position,
) -> Result<(), Memory>
    requires once { AreDistinct (nodes_of (map newest_entry entries.now)) }
    requires indexed { IsIndex index.now.entries entries.now }
    ensures { OnOk result (rows.new ≡ rows.old ++
        filter (λ r. nat_eq r.node node)
        (rows_in table.now choice (map (entry_at at) entries.now))) }
{
    match place_of(entries, index, node) {
        Some(place) => {
            let entry = &entries[place];
            add_rows(
                rows,
                entry.node,
                entry.kind,
                entry.places_at(at),
                table,
                choice,
            )
        }
        None => Ok(()),
    }
}

// The rows that nodes have on a choice.
fn visible_rows(
    alloc: Global,
    entries: &[Standing<'_>],
    table: &Table,
    choice: Choice,
) -> Result<NodeRows, Memory>
    ensures { IfOk result (λ rows. rows ≡ rows_in table.now choice entries.now) }
{
    let mut rows = NodeRows::new(alloc);
    'entries: for entry in entries {
        add_rows(
            &mut rows,
            entry.node(),
            entry.kind(),
            entry.places(),
            table,
            choice,
        )?;
    }
    Ok(rows)
}

// Adds the rows that a node with these places has on a choice.
fn add_rows(
    rows: &mut NodeRows,
    node: NodeNo,
    kind: Kind,
    places: &[Place],
    table: &Table,
    choice: Choice,
) -> Result<(), Memory>
    ensures { OnOk result (rows.new ≡ rows.old ++ rows_of table.now choice node kind places.now) }
{
    'places: for place in places {
        if table.value(place.vis, choice) {
            rows.push(row_at(node, kind, place)?)?;
        }
    }
    Ok(())
}

// The row of a node at one of its places.
fn row_at(node: NodeNo, kind: Kind, place: &Place) -> Result<NodeRow, Memory>
    ensures { IfOk result (λ row. row ≡ row_at node kind place.now) }
{
    Ok(NodeRow {
        node,
        kind,
        parent: place.parent,
        name: place.name.copy()?,
    })
}
