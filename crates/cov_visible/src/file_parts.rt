// Files with their lines.
ghost use Rattle.std.specs.Prelude.{◌≡◌, ◌≤◌, ◌+◌, ◌++◌, [], ◌∷◌, length, map, take, drop, slice_get, OnOk, OnErr};
ghost use Rattle.std.specs.List.{AllByRecursion};
ghost use Rattle.std.specs.Option.{option_copied};
ghost use Rattle.cov_base.specs.declared.limits.TheConstants.{LIMITS};
ghost use Rattle.cov_edit.specs.Touched.{AreRising};
ghost use Rattle.cov_visible.specs.Carrying.{CanCarryOutAll, AreAllCarriedOut};
ghost use Rattle.cov_visible.specs.Parts.{part_node};
ghost use Rattle.cov_visible.specs.Renumbered.{line_nodes, ArePartsRenumbered};
ghost use Rattle.cov_visible.specs.Staging.{contents, new_contents, made_files, HasRoom};

use crate::FilePart;
use crate::file_staging::{add_room_for, expect_nothing_in, stage_file};
use crate::resolved_edit::{ResolvedEdit, carry_out};
use cov_base::{Choice, Memory, NodeNo, Position};
use cov_dd::{Nodes, Table};
use std::alloc::Global;
use std::collections::VecDeque;
use std::marker::Model;

/// A list of files with their lines.
#[derive(Drop)]
pub struct FileParts {
    parts: Vec<FilePart>,
}

impl Model for FileParts {
    ghost use Rattle.std.specs.Prelude.{List};
    ghost use Rattle.std.specs.Coded.{codes};
    ghost use Rattle.cov_visible.specs.contracts.file_part.FilePart as row;
    ghost use Rattle.cov_visible.specs.declared.file_part.FilePart.{FilePart};

    ghost Value = { List FilePart };

    ghost coded = { Prim.hlevel (codes, row.the_row.coded) };

    ghost view = { λ f. f.parts.items };
}

impl FileParts {
    pub fn new(alloc: Global) -> FileParts
        ensures { result ≡ [] }
    {
        FileParts {
            parts: Vec::new(alloc),
        }
    }

    pub fn push(&mut self, part: FilePart) -> Result<(), Memory>
        ensures ok { OnOk result (self.new ≡ self.old ++ part ∷ []) }
        ensures err { OnErr result (self.new ≡ self.old) }
    {
        self.parts.push(part)?;
        Ok(())
    }

    pub fn len(&self) -> usize
        ensures { result ≡ length self.now }
    {
        self.parts.len()
    }

    /// The file at an index, None exactly where the index isn't below the length.
    pub fn get(&self, index: usize) -> Option<&FilePart>
        ensures { option_copied result ≡ slice_get self.now index }
    {
        self.parts.get(index)
    }

    /// The files in order.
    pub fn as_slice(&self) -> &[FilePart]
        ensures { result.now ≡ self.now }
    {
        self.parts.as_slice()
    }

    /// Adds the files that a commit's edits make.
    pub fn stage(&mut self, edits: &[ResolvedEdit]) -> Result<(), Memory>
        ensures ok { OnOk result (map contents self.new
            ≡ map contents self.old ++ map new_contents (made_files edits.now)) }
        ensures front { take (length self.old) self.new ≡ self.old }
    {
        let mut ahead = edits;
        while let [edit, rest @ ..] = ahead {
            stage_file(&mut self.parts, edit)?;
            ahead = rest;
        }
        Ok(())
    }

    /// Makes room in each file for what edits do to it, by the nodes of a table.
    pub fn add_rooms(&mut self, table: &Table, edits: &[ResolvedEdit]) -> Result<(), Memory>
        requires rising { AreRising (map part_node self.old) }
        requires few { length edits.now ≤ LIMITS.edits }
        ensures same { map contents self.new ≡ map contents self.old }
        ensures room { OnOk result (AllByRecursion (HasRoom edits.now) self.new) }
    {
        let files = self.parts.as_mut_slice();
        let mut ahead = edits;
        while let [edit, rest @ ..] = ahead {
            add_room_for(files, table, edit)?;
            ahead = rest;
        }
        Ok(())
    }

    /// What was expected of the files with these nodes is no longer, nor of those from a place on.
    pub fn expect_nothing(&mut self, nodes: &[NodeNo], from: usize)
        requires rising { AreRising (map part_node self.old) }
        ensures { map contents self.new ≡ map contents self.old }
    {
        let files = self.parts.as_mut_slice();
        expect_nothing_at(files, nodes);
        expect_nothing_from(files, from);
    }

    /// Cuts off all but the first so many files.
    pub fn truncate(&mut self, count: usize)
        ensures { self.new ≡ take count self.old }
    {
        self.parts.truncate(count);
    }

    /// Carries out edits in order. It takes for each at most time in the lines of its file, and no memory.
    pub fn carry_out_all(&mut self, edits: VecDeque<ResolvedEdit>, at: Position)
        requires rising { AreRising (map part_node self.old) }
        requires can { CanCarryOutAll at edits.items self.old }
        ensures { AreAllCarriedOut at edits.items self.old self.new }
    {
        let files = self.parts.as_mut_slice();
        let mut edits = edits;
        while let Some(edit) = edits.pop_front() {
            carry_out(files, edit, at);
        }
    }

    /// Each file keeps what it shows on a choice from its newest change on, as `FileLines::keep` does.
    pub(crate) fn keep(&mut self, table: &Table, choice: Choice)
        ensures { self.new ≡ self.old }
    {
        keep_all(&mut self.parts, table, choice);
    }

    /// Appends every node that the files' lines keep, file by file. At an `Err` the list is as before.
    pub fn nodes(&self, into: &mut Nodes) -> Result<(), Memory>
        ensures ok { OnOk result (into.new ≡ into.old ++ line_nodes self.now) }
        ensures err { OnErr result (into.new ≡ into.old) }
    {
        let before = into.len();
        match append(self.parts.as_slice(), into) {
            Ok(()) => Ok(()),
            Err(error) => {
                into.cut(before);
                Err(error)
            }
        }
    }

    /// Puts the nodes of a list from a place on in the places of those that the files' lines keep, in the order of `nodes`. It
    /// answers the place after the last. A file that keeps lists of what it showed asks for memory for their values, and passes
    /// over want of it; nothing else takes any.
    pub fn renumber(&mut self, from: &Nodes, first: u64) -> u64
        requires { first + length (line_nodes self.old) ≤ length from.now }
        ensures next { result ≡ first + length (line_nodes self.old) }
        ensures nodes { line_nodes self.new ≡
            take (length (line_nodes self.old)) (drop first from.now) }
        ensures parts { ArePartsRenumbered self.old self.new }
    {
        renumber_all(&mut self.parts, from, first)
    }
}

// Appends the nodes that files' lines keep.
fn append(parts: &[FilePart], into: &mut Nodes) -> Result<(), Memory>
    ensures ok { OnOk result (into.new ≡ into.old ++ line_nodes parts.now) }
    ensures front { take (length into.old) into.new ≡ into.old }
{
    let mut ahead = parts;
    while let [part, rest @ ..] = ahead {
        part.lines.nodes(into)?;
        ahead = rest;
    }
    Ok(())
}

// Each file keeps what it shows on a choice.
fn keep_all(parts: &mut [FilePart], table: &Table, choice: Choice)
    ensures { parts.new ≡ parts.old }
{
    let mut index = 0;
    while index < parts.len() {
        parts[index].keep(table, choice);
        index += 1;
    }
}

// Gives files the nodes of a list from a place on, one file after another.
fn renumber_all(parts: &mut Vec<FilePart>, from: &Nodes, first: u64) -> u64
    requires { first + length (line_nodes parts.old.items) ≤ length from.now }
    ensures next { result ≡ first + length (line_nodes parts.old.items) }
    ensures nodes { line_nodes parts.new.items ≡
        take (length (line_nodes parts.old.items)) (drop first from.now) }
    ensures parts { ArePartsRenumbered parts.old.items parts.new.items }
{
    let mut next = first;
    let mut index = 0;
    while index < parts.len() {
        next = parts[index].renumber(from, next);
        index += 1;
    }
    next
}

// What was expected of the files with these nodes is no longer.
fn expect_nothing_at(files: &mut [FilePart], nodes: &[NodeNo])
    requires rising { AreRising (map part_node files.old) }
    ensures { map contents files.new ≡ map contents files.old }
{
    let mut ahead = nodes;
    while let [node, rest @ ..] = ahead {
        expect_nothing_in(files, *node);
        ahead = rest;
    }
}

// What was expected of the files from a place on is no longer.
fn expect_nothing_from(files: &mut [FilePart], from: usize)
    ensures { map contents files.new ≡ map contents files.old }
{
    let mut at = from;
    while at < files.len() {
        files[at].expect_nothing();
        at += 1;
    }
}
