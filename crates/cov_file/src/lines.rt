// The lines of a file.
ghost use Rattle.std.specs.Prelude.{◌≡◌, ℕ, List, ◌<◌, ◌≤◌, ◌+◌, ◌-◌, ◌^◌, ◌++◌, ◌∷◌, [], true, false, nat_eq, length, map, position, take, drop, Some, IfOk, IfSome, OnOk, OnErr, if◌then◌else◌};
ghost use Rattle.std.specs.List.{list_any};
ghost use Rattle.std.specs.Map.{keys_of};
ghost use Rattle.std.specs.Option.{option_map};
ghost use Rattle.indexmap.specs.IndexMap.{get};
ghost use Rattle.cov_base.specs.Addresses.{after_anchor};
ghost use Rattle.cov_dd.specs.Diagrams.{value_in};
ghost use Rattle.cov_order.specs.Orders.{has_line, is_anchor};
ghost use Rattle.cov_file.specs.Dated.{DatedLine, line_numbers_of, new_line, with_line, with_change, rows_at, all_rows, newest_of, newest_vis, vis_of, AreAlike};
ghost use Rattle.cov_file.specs.Renumbered.{AddsNode, AreAllNodes, AreRenumberedLines};
ghost use Rattle.cov_file.specs.Rooms.{is_room_at, IsMade, IsLeft};
ghost use Rattle.cov_file.specs.Kept.{row_in, dated_lines};
ghost use Rattle.cov_file.specs.Replaced.{AreReplacedLines};
ghost use Rattle.cov_values.specs.Replaced.{AreReplaced};
ghost use Rattle.cov_file.specs.Sights.{AreSights, IsSight};
ghost use Rattle.cov_values.specs.declared.replacing.Replaced.{Replaced};

use crate::changes::Changes;
use crate::coming::Coming;
use crate::sights::{Kept, LineChange, Sights};
use cov_base::{
    Choice, FileRow, FileRows, LineNo, LineNos, Memory, Position, Shared, SharedRows, Text,
};
use cov_dd::{FALSE, Node, Nodes, Table};
use cov_order::Order;
use indexmap::IndexMap;
use std::alloc::Global;
use std::marker::Model;

/// By how many inserts, and by how many deletes, of one commit the lists that are kept are brought forward.
const MOST_FORWARD: usize = 32;

/// The lines that were ever inserted into a file. Contracts see them in order, each with its text and with the node on whose
/// choices it is visible from each position of a change on, the newest first; the room for changes that take no memory; and the
/// changes at one position that are expected.
#[derive(Drop)]
pub struct FileLines {
    order: Order,
    texts: IndexMap<LineNo, Text>,
    changes: Changes,
    coming: Coming,
    sights: Sights,
}

impl Model for FileLines {
    ghost use Rattle.std.specs.Prelude.{min};
    ghost use Rattle.std.specs.Map.{keys_of};
    ghost use Rattle.indexmap.specs.IndexMap.{spare};
    ghost use Rattle.cov_file.specs.Rooms.{DatedFile};
    ghost use Rattle.cov_file.specs.Kept.{dated_lines, position_of, changeable, AreKept};
    ghost use Rattle.cov_file.specs.Sights.{AreSights};

    ghost Value = { DatedFile };

    ghost view = { λ f. record {
      lines = dated_lines f.texts.entries f.changes.lists f.order.lines;
      newest = f.changes.newest;
      room = record {
        inserts = min f.order.spare (min (spare f.texts) f.changes.inserts);
        changes = changeable f.changes (keys_of f.texts.entries) f.coming.deletes.items
            f.order.lines;
        position = position_of f.changes;
      };
      coming = record { inserts = f.coming.inserts; deletes = f.coming.deletes.items };
      nodes = f.changes.nodes;
    } };

    ghost invariant = { λ f. AreKept f.order.lines f.texts.entries f.changes
        f.coming.deletes.items ×
        AreSights (dated_lines f.texts.entries f.changes.lists f.order.lines) f.sights };
}

impl FileLines {
    pub fn new(alloc: Global) -> FileLines
        ensures lines { result.lines ≡ [] }
        ensures newest { result.newest ≡ 0 }
        ensures nodes { result.nodes ≡ [] }
    {
        FileLines {
            order: Order::new(alloc),
            texts: IndexMap::new(alloc),
            changes: Changes::new(alloc),
            coming: Coming::none(alloc),
            sights: Sights::new(alloc),
        }
    }

    /// Makes room for `inserts` lines more and for a change of each line named, all at one position, in place of what was
    /// expected. A change that another follows takes room of its own, so there is room for one of each line.
    pub fn prepare(&mut self, inserts: u32, deletes: &LineNos) -> Result<(), Memory>
        ensures lines { self.new.lines ≡ self.old.lines }
        ensures newest { self.new.newest ≡ self.old.newest }
        ensures nodes { self.new.nodes ≡ self.old.nodes }
        ensures room { OnOk result (IsMade self.new.room (line_numbers_of self.new.lines) inserts
            deletes.now) }
    {
        self.changes.prepare(inserts, deletes.len())?;
        self.coming.inserts = inserts;
        self.coming.deletes.clear();
        self.coming.deletes.extend_from_slice(deletes.as_slice())?;
        self.make_room()
    }

    /// Makes room for one line more than is expected, and for the changes that are. Over many calls each takes constant time.
    pub fn expect_insert(&mut self) -> Result<(), Memory>
        ensures lines { self.new.lines ≡ self.old.lines }
        ensures newest { self.new.newest ≡ self.old.newest }
        ensures nodes { self.new.nodes ≡ self.old.nodes }
        ensures inserts { (count : ℕ) → count ≤ self.old.coming.inserts + 1 → count < 2 ^ 32 - 1 →
            count ≤ self.new.coming.inserts }
        ensures deletes { self.new.coming.deletes ≡ self.old.coming.deletes }
        ensures room { OnOk result (IsMade self.new.room (line_numbers_of self.new.lines)
            self.new.coming.inserts self.new.coming.deletes) }
    {
        if self.coming.inserts < u32::MAX {
            self.coming.inserts += 1;
        }
        self.make_room()
    }

    /// Makes room for a change of a line besides those that are expected, and for the lines that are. Over many calls each takes
    /// constant time.
    pub fn expect_delete(&mut self, line: LineNo) -> Result<(), Memory>
        ensures lines { self.new.lines ≡ self.old.lines }
        ensures newest { self.new.newest ≡ self.old.newest }
        ensures nodes { self.new.nodes ≡ self.old.nodes }
        ensures inserts { self.new.coming.inserts ≡ self.old.coming.inserts }
        ensures deletes { OnOk result (self.new.coming.deletes ≡
            self.old.coming.deletes ++ line ∷ []) }
        ensures room { OnOk result (IsMade self.new.room (line_numbers_of self.new.lines)
            self.new.coming.inserts self.new.coming.deletes) }
    {
        let deletes = self.coming.deletes.len() + 1;
        self.changes.prepare(self.coming.inserts, deletes)?;
        self.coming.deletes.push(line)?;
        self.make_room()
    }

    /// Nothing more is expected. It takes no memory.
    pub fn settle(&mut self)
        ensures lines { self.new.lines ≡ self.old.lines }
        ensures newest { self.new.newest ≡ self.old.newest }
        ensures nodes { self.new.nodes ≡ self.old.nodes }
        ensures inserts { self.new.coming.inserts ≡ 0 }
        ensures deletes { self.new.coming.deletes ≡ [] }
    {
        self.coming = Coming::none(*self.texts.allocator());
    }

    // Makes room for what is expected.
    fn make_room(&mut self) -> Result<(), Memory>
        ensures lines { self.new.lines ≡ self.old.lines }
        ensures newest { self.new.newest ≡ self.old.newest }
        ensures nodes { self.new.nodes ≡ self.old.nodes }
        ensures coming { self.new.coming ≡ self.old.coming }
        ensures room { OnOk result (IsMade self.new.room (line_numbers_of self.new.lines)
            self.new.coming.inserts self.new.coming.deletes) }
    {
        self.order.reserve(self.coming.inserts)?;
        self.texts.reserve(self.coming.inserts as usize)?;
        let deletes = self.coming.deletes.len();
        let_go_before_many(&mut self.sights, self.coming.inserts, deletes);
        self.changes.prepare(self.coming.inserts, deletes)
    }

    /// Puts a line directly after its anchor, or first where the anchor is the head, with its visibility from a position on. It
    /// takes time in the lines of a page and now and then, where one is split, in the number of pages, and no memory.
    pub fn insert(&mut self, anchor: LineNo, line: LineNo, text: Text, vis: Node, at: Position)
        requires anchored { is_anchor anchor (line_numbers_of self.old.lines) ≡ true }
        requires line { 0 < line }
        requires fresh { has_line line (line_numbers_of self.old.lines) ≡ false }
        requires later { self.old.newest ≤ at }
        requires room { 0 < self.old.room.inserts }
        requires position { is_room_at at self.old.room ≡ true }
        ensures lines { AreAlike self.new.lines
            (with_line anchor (new_line line text vis at) self.old.lines) }
        ensures numbers { line_numbers_of self.new.lines ≡
            after_anchor anchor line (line_numbers_of self.old.lines) }
        ensures newest { self.new.newest ≡ at }
        ensures nodes { AddsNode vis self.old.nodes self.new.nodes }
        ensures room { IsLeft self.old.room self.new.room at 1 }
        ensures own { has_line line self.new.room.changes ≡ true }
    {
        let beside = self.vis(anchor);
        self.sights.change(&LineChange::Insert {
            anchor,
            beside,
            line,
            text: &text,
            vis,
        });
        self.order.insert_after(anchor, line);
        match self.texts.insert(line, text) {
            Ok(_) => (),
            Err(_) => unreachable!(),
        }
        self.changes.push(vis, at);
    }

    /// Gives a line another visibility from a position on. It looks the line up once, and takes no memory.
    pub fn delete(&mut self, line: LineNo, vis: Node, at: Position)
        requires there { has_line line (line_numbers_of self.old.lines) ≡ true }
        requires later { self.old.newest ≤ at }
        requires room { has_line line self.old.room.changes ≡ true }
        requires position { is_room_at at self.old.room ≡ true }
        ensures lines { AreAlike self.new.lines (with_change line vis at self.old.lines) }
        ensures numbers { line_numbers_of self.new.lines ≡ line_numbers_of self.old.lines }
        ensures newest { self.new.newest ≡ at }
        ensures nodes { AddsNode vis self.old.nodes self.new.nodes }
        ensures room { IsLeft self.old.room self.new.room at 0 }
    {
        self.order.lines_are_once();
        let before = self.vis(line);
        self.sights
            .change(&LineChange::Delete { line, before, vis });
        match self.texts.get_index_of(&line) {
            Some(index) => self.changes.set(index, vis, at),
            None => unreachable!(),
        }
    }

    /// The lines that are visible on a choice at a position, in order. It looks each line up once, goes through its changes
    /// beyond the position, and evaluates one node for each run of lines with that node.
    pub fn lines_at(&self, table: &Table, choice: Choice, at: Position) -> Result<FileRows, Memory>
        ensures { IfOk result (λ rows. rows ≡ rows_at table.now choice at self.now.lines) }
    {
        let lines = self.order.walk()?;
        let sight = Sight { table, choice, at };
        visible_rows(&self.texts, &self.changes, &lines, &sight)
    }

    /// Keeps what is shown on a choice from the newest change on, if it isn't yet. It takes time in the lines where it isn't,
    /// and else in the nodes under which the kept lists are right; want of memory is passed over.
    pub fn keep(&mut self, table: &Table, choice: Choice)
        ensures { self.new ≡ self.old }
    {
        if !self.sights.wants(table, choice) {
            return;
        }
        match self.seen(table, choice) {
            Ok(kept) => self.sights.keep(kept),
            Err(_) => self.sights.stop_keeping(),
        }
    }

    /// Has the value of a node with each list that is kept, so that a line that gets this node doesn't make it wrong.
    pub fn note(&mut self, table: &Table, node: Node)
        ensures { self.new ≡ self.old }
    {
        self.sights.note(table, node);
    }

    // What is shown from the newest change on, with the values of nodes under which it is.
    fn seen(&self, table: &Table, choice: Choice) -> Result<Kept, Memory>
        ensures { IfOk result (IsSight self.now.lines) }
    {
        let values = self.changes.values(table, choice)?;
        let rows = self.lines_at(table, choice, self.changes.latest())?;
        let shown = Some(Shared::new(*self.texts.allocator(), rows)?);
        Ok(Kept {
            choice,
            values,
            shown,
        })
    }

    /// The lines that are visible on a choice at a position, in order, shared with what is kept where that is right.
    pub fn shown(&self, table: &Table, choice: Choice, at: Position) -> Result<SharedRows, Memory>
        ensures { IfOk result (λ rows. rows ≡ rows_at table.now choice at self.now.lines) }
    {
        if let Some(rows) = self.kept(table, choice, at) {
            return Ok(rows);
        }
        let rows = self.lines_at(table, choice, at)?;
        Shared::new(*self.texts.allocator(), rows)
    }

    // The kept list that is right on a choice at a position, if there is one. It evaluates the nodes of kept lists alone.
    fn kept(&self, table: &Table, choice: Choice, at: Position) -> Option<SharedRows>
        ensures { IfSome result (λ rows. rows ≡ rows_at table.now choice at self.now.lines) }
    {
        if at < self.changes.latest() {
            return None;
        }
        self.sights.find(table, choice)
    }

    /// Whether a line is among those that are visible on a choice at a position. It looks the line up once, goes through its
    /// changes beyond the position, evaluates at most one node, and takes no memory.
    pub fn is_visible(&self, line: LineNo, table: &Table, choice: Choice, at: Position) -> bool
        ensures { result ≡ list_any (λ r. nat_eq r.line line)
            (rows_at table.now choice at self.now.lines) }
    {
        match self.texts.get_index_of(&line) {
            Some(index) => table.value(self.changes.at(index, at), choice),
            None => false,
        }
    }

    /// All lines ever inserted, in order.
    pub fn all(&self) -> Result<FileRows, Memory>
        ensures { IfOk result (λ rows. rows ≡ all_rows self.now.lines) }
    {
        let lines = self.order.walk()?;
        // What `len` ensures bounds the index for the proof.
        let _count = lines.len();
        let mut rows = FileRows::new(*self.texts.allocator());
        let mut index = 0;
        while let Some(line) = lines.get(index) {
            rows.push(copied_row(&self.texts, line)?)?;
            index += 1;
        }
        Ok(rows)
    }

    /// Appends every node that the lines have at some position, or none where there is no memory.
    pub fn nodes(&self, into: &mut Nodes) -> Result<(), Memory>
        ensures all { AreAllNodes self.now }
        ensures ok { OnOk result (into.new ≡ into.old ++ self.now.nodes) }
        ensures err { OnErr result (into.new ≡ into.old) }
    {
        self.changes.nodes(into)
    }

    /// Puts the nodes of a list from a place on in the places of those that the lines have, in the order of `nodes`. It answers the
    /// place after the last, and takes no memory but for what is kept, where want of it is passed over.
    pub fn renumber(&mut self, from: &Nodes, first: u64) -> u64
        requires { first + length self.old.nodes ≤ length from.now }
        ensures next { result ≡ first + length self.old.nodes }
        ensures nodes { self.new.nodes ≡ take (length self.old.nodes) (drop first from.now) }
        ensures lines { AreRenumberedLines self.old self.new }
        ensures all { AreAllNodes self.old }
        ensures newest { self.new.newest ≡ self.old.newest }
        ensures room { self.new.room ≡ self.old.room }
        ensures coming { self.new.coming ≡ self.old.coming }
    {
        renumber_sights(&mut self.sights, &self.changes, from, first);
        self.changes.renumber(from, first)
    }

    /// The newest visibility of a line, None exactly where it was never inserted into this file. It takes no memory.
    pub fn vis(&self, line: LineNo) -> Option<Node>
        ensures newest { result ≡ newest_of line self.now.lines }
        ensures latest { (p : ℕ) → self.now.newest ≤ p → result ≡ vis_of line p self.now.lines }
    {
        match self.texts.get_index_of(&line) {
            Some(index) => self.changes.get(index),
            None => None,
        }
    }
}

// Lets what is kept go where many changes are expected, since each takes time in the lines of each list.
fn let_go_before_many(sights: &mut Sights, inserts: u32, deletes: usize)
    ensures { (ls : List DatedLine) → AreSights ls sights.old → AreSights ls sights.new }
{
    if inserts as usize > MOST_FORWARD || deletes > MOST_FORWARD {
        sights.let_go();
    }
}

// Has what is kept go with the nodes of a list from a place on, which are about to take the places of those of changes, or lets it go.
fn renumber_sights(sights: &mut Sights, changes: &Changes, from: &Nodes, first: u64)
    requires { first + length changes.now.nodes ≤ length from.now }
    ensures { (ls ls' : List DatedLine) →
        ((rs : List Replaced) →
        AreReplaced rs (map newest_vis changes.now.lists) (drop first from.now) →
        AreReplacedLines rs ls ls') →
        AreSights ls sights.old → AreSights ls' sights.new }
{
    if sights.is_empty() {
        sights.let_go();
        return;
    }
    match changes.replacements(from, first) {
        Some(by) => sights.renumber(&by),
        None => sights.let_go(),
    }
}

// What lines are asked for: those that are visible on a choice at a position, by the nodes of a table.
#[derive(Drop)]
struct Sight<'a> {
    table: &'a Table,
    choice: Choice,
    at: Position,
}

// What was looked at last: a line by its number and its index, by how much both went on from the line before it, modulo 2^64, and a
// node with its value on a choice.
#[derive(Clone, Copy)]
struct Last {
    number: usize,
    index: usize,
    number_step: usize,
    index_step: usize,
    node: Node,
    value: bool,
}

// What was looked at before the first line.
const NOTHING: Last = Last {
    number: 0,
    index: 0,
    number_step: 0,
    index_step: 0,
    node: FALSE,
    value: false,
};

// The lines that are asked for.
fn visible_rows(
    texts: &IndexMap<LineNo, Text>,
    changes: &Changes,
    lines: &LineNos,
    sight: &Sight<'_>,
) -> Result<FileRows, Memory>
    ensures { IfOk result (λ rows. rows ≡
        rows_at sight.now.table.now sight.now.choice sight.now.at
        (dated_lines texts.now.entries changes.now.lists lines.now)) }
{
    // What `len` ensures bounds the index for the proof.
    let _count = lines.len();
    let mut rows = FileRows::new(*texts.allocator());
    let mut last = NOTHING;
    let mut index = 0;
    while let Some(line) = lines.get(index) {
        add_visible(&mut rows, texts, changes, line, sight, &mut last)?;
        index += 1;
    }
    Ok(rows)
}

// Adds a line, if it is asked for. It looks the line up once, first where it is expected after the one that was looked at last.
fn add_visible(
    rows: &mut FileRows,
    texts: &IndexMap<LineNo, Text>,
    changes: &Changes,
    line: LineNo,
    sight: &Sight<'_>,
    last: &mut Last,
) -> Result<(), Memory>
    requires last { last.old.value ≡ value_in sight.now.table.now last.old.node sight.now.choice }
    ensures rows { OnOk result (rows.new ≡
        rows.old ++
        rows_at sight.now.table.now sight.now.choice sight.now.at
        (dated_lines texts.now.entries changes.now.lists (line ∷ []))) }
    ensures last { last.new.value ≡ value_in sight.now.table.now last.new.node sight.now.choice }
{
    match find(texts, line, expected(last, line)) {
        Some((index, text)) => {
            *last = look(sight, line, index, changes.at(index, sight.at), last);
            add_shown(rows, line, text, last.value)
        }
        None => Ok(()),
    }
}

// The index at which a line is looked for first. Lines that were inserted one after another are as far apart by index as they are by
// number. Where those of other files came between, they are mostly as far apart as the two before.
fn expected(last: &Last, line: LineNo) -> usize {
    let step = (line.number() as usize).wrapping_sub(last.number);
    let by = if step == last.number_step {
        last.index_step
    } else {
        step
    };
    last.index.wrapping_add(by)
}

// The index of a line with its text, which is first looked for at one index.
fn find(texts: &IndexMap<LineNo, Text>, line: LineNo, first: usize) -> Option<(usize, &Text)>
    ensures index { option_map (λ p. p.0) result ≡
        position (nat_eq line) (keys_of texts.now.entries) }
    ensures text { option_map (λ p. p.1.now) result ≡ get nat_eq texts.now line }
{
    // What `len` ensures is, for the proof, that no line stands twice.
    let _count = texts.len();
    match texts.get_index(first) {
        Some((other, text)) if *other == line => Some((first, text)),
        _ => match texts.get_full(&line) {
            Some((index, _, text)) => Some((index, text)),
            None => None,
        },
    }
}

// A line with a node and its value. The diagram is walked only where the node isn't the last one.
fn look(sight: &Sight<'_>, line: LineNo, index: usize, node: Node, last: &Last) -> Last
    requires last { last.now.value ≡ value_in sight.now.table.now last.now.node sight.now.choice }
    ensures node { result.node ≡ node }
    ensures value { result.value ≡ value_in sight.now.table.now node sight.now.choice }
{
    let value = if last.node == node {
        last.value
    } else {
        sight.table.value(node, sight.choice)
    };
    let number = line.number() as usize;
    Last {
        number,
        index,
        number_step: number.wrapping_sub(last.number),
        index_step: index.wrapping_sub(last.index),
        node,
        value,
    }
}

// Adds a line, if it is shown.
fn add_shown(rows: &mut FileRows, line: LineNo, text: &Text, shown: bool) -> Result<(), Memory>
    ensures { OnOk result (rows.new ≡ rows.old ++
        (if shown then record { line = line; text = text.now } ∷ [] else [])) }
{
    if shown {
        let text = text.copy()?;
        return rows.push(FileRow { line, text });
    }
    Ok(())
}

// The line with its text.
fn copied_row(texts: &IndexMap<LineNo, Text>, line: LineNo) -> Result<FileRow, Memory>
    ensures { IfOk result (λ row. row ≡ row_in texts.now.entries line) }
{
    let text = match texts.get(&line) {
        Some(text) => text.copy()?,
        None => Text::new(*texts.allocator()),
    };
    Ok(FileRow { line, text })
}
