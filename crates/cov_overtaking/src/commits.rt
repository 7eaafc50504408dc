// The commits of a history, with what tells soon that none of them overtakes.
ghost use Rattle.std.specs.Prelude.{◌≡◌, ◌<◌, ◌≤◌, ◌+◌, ◌++◌, [], ◌∷◌, ℕ, true, length, take, drop, vec_len, vec_capacity, OnOk, OnErr};
ghost use Rattle.std.specs.List.{AllByRecursion};
ghost use Rattle.cov_overtaking.specs.Marks.{all_mark_nodes, marks_having};
ghost use Rattle.cov_overtaking.specs.Overtakers.{noted, NoneTouches};

use crate::mark::CommitMark;
use cov_base::{Memory, NodeNo, Position};
use cov_dd::{Node, Nodes};
use std::alloc::Global;
use std::marker::Model;

/// The commits in order, and what is noted at the nodes that they touch. Contracts see them as the marks and the number of
/// commits for which there is room.
#[derive(Drop)]
pub struct Commits {
    marks: Vec<CommitMark>,
    notes: Notes,
}

/// A position for each node, not before the newest at which a commit touched it.
#[derive(Drop)]
pub(crate) struct Notes {
    // By the number of the node.
    listed: Vec<Position>,
    // That of the nodes that aren't listed.
    unlisted: Position,
}

impl Model for Commits {
    ghost use Rattle.std.specs.Prelude.{◌-◌, vec_len, vec_capacity};
    ghost use Rattle.std.specs.Coded.{codes};
    ghost use Rattle.cov_overtaking.specs.contracts.mark.CommitMark as row;
    ghost use Rattle.cov_overtaking.specs.Marks.{CommitsValue};
    ghost use Rattle.cov_overtaking.specs.Overtakers.{noted, AreNoted};

    ghost Value = { CommitsValue };

    ghost coded = { Prim.hlevel (codes, row.the_row.coded) };

    ghost view = { λ c. record {
      items = c.marks.items;
      spare = vec_capacity c.marks - vec_len c.marks;
    } };

    ghost invariant = { λ c. AreNoted (noted c.notes) c.marks.items };
}

impl Commits {
    pub fn new(alloc: Global) -> Commits
        ensures { result.items ≡ [] }
    {
        Commits {
            marks: Vec::new(alloc),
            notes: Notes {
                listed: Vec::new(alloc),
                unlisted: Position::new(0),
            },
        }
    }

    pub fn allocator(&self) -> Global {
        *self.marks.allocator()
    }

    pub fn as_slice(&self) -> &[CommitMark]
        ensures { result.now ≡ self.now.items }
    {
        self.marks.as_slice()
    }

    /// Makes room for one commit more, whose touched nodes have numbers up to this one.
    pub fn reserve(&mut self, most: NodeNo) -> Result<(), Memory>
        ensures same { self.new.items ≡ self.old.items }
        ensures room { OnOk result (0 < self.new.spare) }
    {
        list_up_to(&mut self.notes, most)?;
        self.marks.reserve(1)?;
        Ok(())
    }

    /// Adds a commit. Takes no memory.
    pub fn push(&mut self, mark: CommitMark)
        requires room { 0 < self.old.spare }
        ensures { self.new.items ≡ self.old.items ++ mark ∷ [] }
    {
        note_all(&mut self.notes, mark.touched.as_slice(), mark.position);
        match self.marks.push(mark) {
            Ok(()) => (),
            Err(_) => unreachable!(),
        }
    }

    /// Whether it is known at once that no commit after a base touches one of the nodes. It takes time in the nodes alone.
    pub fn none_touches(&self, base: Position, nodes: &[NodeNo]) -> bool
        ensures { result ≡ true → NoneTouches base nodes.now self.now.items }
    {
        are_old(&self.notes, base, nodes)
    }

    /// Appends every node of the table that the commits keep, in order. At an `Err` the list is as before.
    pub fn nodes(&self, into: &mut Nodes) -> Result<(), Memory>
        ensures ok { OnOk result (into.new ≡ into.old ++ all_mark_nodes self.now.items) }
        ensures err { OnErr result (into.new ≡ into.old) }
    {
        let before = into.len();
        match append_marks(self.marks.as_slice(), into) {
            Ok(()) => Ok(()),
            Err(error) => {
                into.cut(before);
                Err(error)
            }
        }
    }

    /// Puts the nodes of a list from a place on in the places of those that the commits keep. Takes no memory.
    pub fn renumber(&mut self, from: &Nodes, first: u64)
        requires { first + length (all_mark_nodes self.old.items) ≤ length from.now }
        ensures items { self.new.items ≡ marks_having self.old.items (drop first from.now) }
        ensures spare { self.new.spare ≡ self.old.spare }
    {
        renumber_marks(&mut self.marks, &from.as_slice()[first as usize..]);
    }
}

// Appends the nodes of marks. At an `Err` those in front are still there, and behind them may be some of these.
fn append_marks(marks: &[CommitMark], into: &mut Nodes) -> Result<(), Memory>
    ensures ok { OnOk result (into.new ≡ into.old ++ all_mark_nodes marks.now) }
    ensures front { take (length into.old) into.new ≡ into.old }
{
    let mut ahead = marks;
    while let [mark, rest @ ..] = ahead {
        mark.append_nodes(into)?;
        ahead = rest;
    }
    Ok(())
}

// Puts the nodes of a list in the places of those of marks, without memory.
fn renumber_marks(marks: &mut Vec<CommitMark>, from: &[Node])
    requires { length (all_mark_nodes marks.old.items) ≤ length from.now }
    ensures items { marks.new.items ≡ marks_having marks.old.items from.now }
    ensures capacity { vec_capacity marks.new ≡ vec_capacity marks.old }
    ensures len { vec_len marks.new ≡ vec_len marks.old }
{
    let mut ahead = from;
    let mut index = 0;
    while index < marks.len() {
        ahead = marks[index].renumber(ahead);
        index += 1;
    }
}

// What is noted at a node.
fn noted(notes: &Notes, node: NodeNo) -> Position
    ensures { result ≡ noted notes.now node }
{
    match notes.listed.get(node.number() as usize) {
        Some(position) => *position,
        None => notes.unlisted,
    }
}

// Whether nothing after a base is noted at nodes.
fn are_old(notes: &Notes, base: Position, nodes: &[NodeNo]) -> bool
    ensures { result ≡ true → AllByRecursion (λ x. noted notes.now x ≤ base) nodes.now }
{
    let mut ahead = nodes;
    while let [node, rest @ ..] = ahead {
        if noted(notes, *node) > base {
            return false;
        }
        ahead = rest;
    }
    true
}

// Lists the nodes up to one, with what is noted at them.
fn list_up_to(notes: &mut Notes, most: NodeNo) -> Result<(), Memory>
    ensures { (x : ℕ) → noted notes.new x ≡ noted notes.old x }
{
    while notes.listed.len() <= most.number() as usize {
        notes.listed.push(notes.unlisted)?;
    }
    Ok(())
}

// Notes a position at nodes.
fn note_all(notes: &mut Notes, nodes: &[NodeNo], position: Position)
    ensures later { (x : ℕ) → noted notes.old x ≤ noted notes.new x }
    ensures noted { AllByRecursion (λ x. position ≤ noted notes.new x) nodes.now }
{
    let mut ahead = nodes;
    while let [node, rest @ ..] = ahead {
        note(notes, *node, position);
        ahead = rest;
    }
}

// Notes a position at a node, unless a later one is noted there.
fn note(notes: &mut Notes, node: NodeNo, position: Position)
    ensures later { (x : ℕ) → noted notes.old x ≤ noted notes.new x }
    ensures noted { position ≤ noted notes.new node }
{
    if position <= noted(notes, node) {
        return;
    }
    let index = node.number() as usize;
    if index < notes.listed.len() {
        notes.listed[index] = position;
    } else {
        notes.unlisted = position;
    }
}
