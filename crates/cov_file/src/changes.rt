// The changes of the visibilities of lines.
ghost use Rattle.std.specs.Prelude.{◌≡◌, ◌<◌, ◌≤◌, ◌+◌, ◌-◌, ◌^◌, ℕ, List, [], ◌∷◌, ◌++◌, true, false, length, map, reverse, set, slice_get, take, drop, vec_len, vec_capacity, OnOk, OnErr, IfOk, IfSome, if◌then◌else◌, refl};
ghost use Rattle.std.specs.Option.{option_map, option_map_or};
ghost use Rattle.std.specs.List.{AllByRecursion, AllZip};
ghost use Rattle.cov_file.specs.Dated.{vis_at, newest_vis};
ghost use Rattle.cov_file.specs.Kept.{changes_before, changes_of, AreLinked, changes_at, is_at, with_node};
ghost use Rattle.cov_file.specs.Renumbered.{AddsNode, dates_of, having_node, node_of, AreAllListed, AreRenumberedLists};
ghost use Rattle.cov_file.specs.Replaced.{IsNewestReplaced};
ghost use Rattle.cov_file.specs.Sights.{AreNewestValues};
ghost use Rattle.cov_values.specs.Replaced.{AreReplaced};
ghost use Rattle.cov_values.specs.declared.replacing.Replaced.{Replaced};

use cov_base::{Choice, Memory, Position};
use cov_dd::{FALSE, HasNode, Node, Nodes, Table, append_nodes, renumber_nodes};
use cov_values::{NOT_REPLACED, Replacements, Values};
use std::alloc::Global;
use std::marker::Model;

/// How many changes of the lines of one file can be followed by others.
const MOST_EARLIER: usize = u32::MAX as usize;

/// A node from a position on. The change before it of the same line is the last of the first `before` earlier ones; there is
/// none where that is 0.
#[derive(Clone, Copy)]
struct Change {
    node: Node,
    from: Position,
    before: u32,
}

/// The changes of the lines of a file, each line by its index in the order in which they were inserted. Most lines have one
/// change for ever, which takes no memory of its own; those that others follow stand in one list for all lines.
#[derive(Drop)]
pub(crate) struct Changes {
    newest: Vec<Change>,
    earlier: Vec<Change>,
    from: Position,
    is_open: bool,
}

impl Model for Changes {
    ghost use Rattle.std.specs.Prelude.{◌-◌, ◌^◌, min, vec_len, vec_capacity};
    ghost use Rattle.cov_file.specs.Kept.{LineChanges, lists_of, AreChanges};
    ghost use Rattle.cov_file.specs.Renumbered.{nodes_of};

    ghost Value = { LineChanges };

    ghost view = { λ c. record {
      lists = lists_of c.newest.items c.earlier.items;
      newest = c.from;
      inserts = vec_capacity c.newest - vec_len c.newest;
      room = min (vec_capacity c.earlier - vec_len c.earlier) (2 ^ 32 - 1 - vec_len c.earlier);
      is_open = c.is_open;
      nodes = nodes_of c.newest.items c.earlier.items;
    } };

    ghost invariant = { λ c. AreChanges c.from c.newest.items c.earlier.items };
}

impl Changes {
    pub(crate) fn new(alloc: Global) -> Changes
        ensures lists { result.lists ≡ [] }
        ensures newest { result.newest ≡ 0 }
        ensures nodes { result.nodes ≡ [] }
    {
        Changes {
            newest: Vec::new(alloc),
            earlier: Vec::new(alloc),
            from: Position::new(0),
            is_open: false,
        }
    }

    /// Makes room for so many lines more, and for so many changes of lines, at any one position. It is refused beyond
    /// 2^32 - 1 changes that others follow.
    pub(crate) fn prepare(&mut self, inserts: u32, changes: usize) -> Result<(), Memory>
        ensures lists { self.new.lists ≡ self.old.lists }
        ensures newest { self.new.newest ≡ self.old.newest }
        ensures nodes { self.new.nodes ≡ self.old.nodes }
        ensures inserts { OnOk result (inserts ≤ self.new.inserts) }
        ensures room { OnOk result (changes ≤ self.new.room) }
        ensures open { OnOk result (self.new.is_open ≡ true) }
        ensures kept { self.old.room ≤ self.new.room }
        ensures err { OnErr result (self.new.is_open ≡ self.old.is_open) }
    {
        if changes > MOST_EARLIER.saturating_sub(self.earlier.len()) {
            return Err(Memory);
        }
        self.newest.reserve(inserts as usize)?;
        self.earlier.reserve(changes)?;
        self.is_open = true;
        Ok(())
    }

    /// Puts a line behind the others, with its node from a position on. It takes no memory.
    pub(crate) fn push(&mut self, node: Node, at: Position)
        requires room { 0 < self.old.inserts }
        requires later { self.old.newest ≤ at }
        ensures lists { self.new.lists ≡ self.old.lists ++ ((at, node) ∷ []) ∷ [] }
        ensures newest { self.new.newest ≡ at }
        ensures nodes { AddsNode node self.old.nodes self.new.nodes }
        ensures inserts { self.old.inserts ≤ self.new.inserts + 1 }
        ensures room { self.new.room ≡ self.old.room }
        ensures open { self.new.is_open ≡ false }
    {
        self.begin(at);
        let change = Change {
            node,
            from: at,
            before: 0,
        };
        self.newest.push_reserved(change);
    }

    /// Gives a line another node from a position on, in the place of the one that it has from there on. It takes no memory.
    pub(crate) fn set(&mut self, index: usize, node: Node, at: Position)
        requires index { index < length self.old.lists }
        requires later { self.old.newest ≤ at }
        requires room { is_at at (changes_at self.old.lists index) ≡ false → 0 < self.old.room }
        ensures lists { self.new.lists ≡
            set self.old.lists index (with_node at node (changes_at self.old.lists index)) }
        ensures newest { self.new.newest ≡ at }
        ensures nodes { AddsNode node self.old.nodes self.new.nodes }
        ensures inserts { self.new.inserts ≡ self.old.inserts }
        ensures room { self.old.room ≤ self.new.room + (if is_at at
            (changes_at self.old.lists index) then 0 else 1) }
        ensures open { self.new.is_open ≡ false }
    {
        self.begin(at);
        let newest = self.newest[index];
        if newest.from == at {
            self.newest[index].node = node;
            return;
        }
        let before = put_behind(&mut self.earlier, newest);
        self.newest[index] = Change {
            node,
            from: at,
            before,
        };
    }

    /// Appends every node, or none where there is no memory.
    pub(crate) fn nodes(&self, into: &mut Nodes) -> Result<(), Memory>
        ensures all { AreAllListed self.now.nodes self.now.lists }
        ensures ok { OnOk result (into.new ≡ into.old ++ self.now.nodes) }
        ensures err { OnErr result (into.new ≡ into.old) }
    {
        // Reading a field brings what contracts see of it into the proof.
        let _ = &self.newest;
        let before = into.len();
        match self.append_nodes(into) {
            Ok(()) => Ok(()),
            Err(error) => {
                into.cut(before);
                Err(error)
            }
        }
    }

    fn append_nodes(&self, into: &mut Nodes) -> Result<(), Memory>
        ensures ok { OnOk result (into.new ≡ into.old ++ self.now.nodes) }
        ensures front { take (length into.old) into.new ≡ into.old }
    {
        append_nodes(self.newest.as_slice(), into)?;
        append_nodes(self.earlier.as_slice(), into)
    }

    /// Puts the nodes of a list from a place on in the places of these, in the order of `nodes`. It answers the place after the
    /// last, and takes no memory.
    pub(crate) fn renumber(&mut self, from: &Nodes, first: u64) -> u64
        requires { first + length self.old.nodes ≤ length from.now }
        ensures next { result ≡ first + length self.old.nodes }
        ensures nodes { self.new.nodes ≡ take (length self.old.nodes) (drop first from.now) }
        ensures lists { AreRenumberedLists self.old.nodes self.new.nodes
            self.old.lists self.new.lists }
        ensures all { AreAllListed self.old.nodes self.old.lists }
        ensures replaced { (rs : List Replaced) →
            AreReplaced rs (map newest_vis self.old.lists) (drop first from.now) →
            AllZip (IsNewestReplaced rs) self.old.lists self.new.lists }
        ensures dates { map dates_of self.new.lists ≡ map dates_of self.old.lists }
        ensures newest { self.new.newest ≡ self.old.newest }
        ensures inserts { self.new.inserts ≡ self.old.inserts }
        ensures room { self.new.room ≡ self.old.room }
        ensures open { self.new.is_open ≡ self.old.is_open }
    {
        let nodes = from.as_slice();
        let middle = renumber_nodes(&mut self.newest, nodes, first);
        renumber_nodes(&mut self.earlier, nodes, middle)
    }

    /// Which node takes the place of the newest of each line, where those of a list from a place on take the places of all nodes in
    /// the order of `nodes`. None where one node would get two others, where they are too many, or where there is no memory.
    pub(crate) fn replacements(&self, from: &Nodes, first: u64) -> Option<Replacements>
        requires { first + length self.now.nodes ≤ length from.now }
        ensures { IfSome result (λ rs.
            AreReplaced rs (map newest_vis self.now.lists) (drop first from.now)) }
    {
        let nodes = from.as_slice();
        let mut rs = Replacements::new(*self.newest.allocator());
        match put_all(&mut rs, self.newest.as_slice(), &nodes[first as usize..]) {
            true => Some(rs),
            false => None,
        }
    }

    // The changes that come are at a position, and only there is room for them.
    fn begin(&mut self, at: Position)
        requires later { self.old.newest ≤ at }
        ensures lists { self.new.lists ≡ self.old.lists }
        ensures newest { self.new.newest ≡ at }
        ensures nodes { self.new.nodes ≡ self.old.nodes }
        ensures inserts { self.new.inserts ≡ self.old.inserts }
        ensures room { self.new.room ≡ self.old.room }
        ensures open { self.new.is_open ≡ false }
    {
        self.from = at;
        self.is_open = false;
    }

    /// The newest node of the line at an index, None exactly where there is no such line.
    pub(crate) fn get(&self, index: usize) -> Option<Node>
        ensures newest { result ≡ option_map newest_vis (slice_get self.now.lists index) }
        ensures latest { (p : ℕ) → self.now.newest ≤ p →
            result ≡ option_map (λ cs. vis_at cs p) (slice_get self.now.lists index) }
    {
        match self.newest.get(index) {
            Some(change) => Some(change.node),
            None => None,
        }
    }

    /// The position from which on each line has its newest node.
    pub(crate) fn latest(&self) -> Position
        ensures newest { result ≡ self.now.newest }
        ensures nodes { (p : ℕ) → self.now.newest ≤ p → AllByRecursion (λ cs. vis_at cs p ≡ newest_vis cs) self.now.lists }
    {
        self.from
    }

    /// The values on a choice of the newest nodes. A node is evaluated once, and looked for only where it isn't that of the line
    /// before. They are refused where they are too many, as where there is no memory.
    pub(crate) fn values(&self, table: &Table, choice: Choice) -> Result<Values, Memory>
        ensures { IfOk result (AreNewestValues table.now choice self.now.lists) }
    {
        let mut values = Values::new(*self.newest.allocator());
        let mut last = FALSE;
        let mut ahead = self.newest.as_slice();
        while let [change, more @ ..] = ahead {
            if change.node != last {
                values.evaluate(change.node, table, choice)?;
                last = change.node;
            }
            ahead = more;
        }
        Ok(values)
    }

    /// The node at a position of the line at an index, FALSE where it has none. It takes time in the number of changes of
    /// this line beyond the position.
    pub(crate) fn at(&self, index: usize, position: Position) -> Node
        ensures { result ≡ vis_at (changes_at self.now.lists index) position }
    {
        match self.newest.get(index) {
            Some(change) => node_at(&self.earlier, *change, position),
            None => FALSE,
        }
    }
}

impl HasNode for Change {
    ghost node_of = { node_of };

    ghost having_node = { having_node };

    fn node(&self) -> Node {
        self.node
    }

    fn set_node(&mut self, node: Node) {
        self.node = node;
    }

    ghost has_that_node = { λ n x. refl };
}

// Has the nodes of a list take the places of those of changes, one after another. Whether they do: a node may take one place alone.
fn put_all(replacements: &mut Replacements, changes: &[Change], nodes: &[Node]) -> bool
    ensures { result ≡ true →
        AreReplaced replacements.new (map node_of changes.now) nodes.now }
{
    let mut last = NOT_REPLACED;
    let mut ahead = changes;
    let mut to = nodes;
    while let [change, more @ ..] = ahead {
        let [node, others @ ..] = to else {
            return false;
        };
        if !replacements.put_next(change.node, *node, &mut last) {
            return false;
        }
        ahead = more;
        to = others;
    }
    true
}

// Puts a change behind the earlier ones, and answers how many there are then.
fn put_behind(earlier: &mut Vec<Change>, change: Change) -> u32
    requires room { vec_len earlier.old < vec_capacity earlier.old }
    requires few { vec_len earlier.old < 2 ^ 32 - 1 }
    ensures items { earlier.new.items ≡ earlier.old.items ++ change ∷ [] }
    ensures capacity { vec_capacity earlier.old ≤ vec_capacity earlier.new }
    ensures len { vec_len earlier.new ≡ vec_len earlier.old + 1 }
    ensures count { result ≡ vec_len earlier.new }
{
    earlier.push_reserved(change);
    earlier.len() as u32
}

// The node at a position of a line by its newest change.
fn node_at(earlier: &[Change], newest: Change, position: Position) -> Node
    requires linked { AreLinked (reverse earlier.now) }
    requires end { newest.before ≤ length earlier.now }
    ensures { result ≡ vis_at (changes_of (reverse earlier.now) newest) position }
{
    let mut change = newest;
    'changes: while position < change.from {
        match change_before(earlier, change.before) {
            Some(before) => change = before,
            None => return FALSE,
        }
    }
    change.node
}

// The last of the first so many changes.
fn change_before(earlier: &[Change], number: u32) -> Option<Change>
    requires linked { AreLinked (reverse earlier.now) }
    requires end { number ≤ length earlier.now }
    ensures changes { changes_before (reverse earlier.now) number ≡
        option_map_or (changes_of (reverse earlier.now)) result [] }
    ensures falls { IfSome result (λ c. c.before < number) }
{
    if number == 0 {
        return None;
    }
    earlier.get(number as usize - 1).copied()
}
