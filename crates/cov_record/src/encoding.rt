// The bytes of commands.
ghost use Rattle.std.specs.Prelude.{◌≡◌, ◌<◌, ◌≤◌, ◌^◌, ◌+◌, ◌++◌, ◌∷◌, [], map, true, length, IfOk, OnOk};
ghost use Rattle.std.specs.Int.{w16, w32, to_be_bytes};
ghost use Rattle.std.specs.List.{list_all, AllByRecursion};
ghost use Rattle.cov_base.specs.declared.limits.TheConstants.{CHOICE_WIDTH, MOST_NAME_BYTES, MOST_TEXT_BYTES};
ghost use Rattle.cov_expr.specs.Formula.{reach};
ghost use Rattle.cov_expr.specs.Parts.{formula};
ghost use Rattle.cov_edit.specs.EditFits.{fits_edit};
ghost use Rattle.cov_edit.specs.Fits.{reach_of};
ghost use Rattle.cov_edit.specs.History.{edits_in};
ghost use Rattle.cov_edit.specs.Runs.{RunsRise};
ghost use Rattle.cov_edit.specs.Sides.{unsided, reach_of_sides};
ghost use Rattle.cov_record.specs.FitsRecord.{FitsNode, FitsLine, FitsReferences, FitsCounts, FitsNumbers, FitsWritten};
ghost use Rattle.cov_record.specs.KeptRuns.{count_before, own_count, kept_runs, true_run, AreBehind, AreWithin};
ghost use Rattle.cov_record.specs.Laws.{IsRecordOf};
ghost use Rattle.cov_record.specs.Payload.{bit, run_of, choice_spelling, expression_spelling, kind_byte, node_spelling, line_spelling, name_spelling, text_spelling, edit_spelling, all_edit_spelling, edits_spelling, run_spelling, runs_spelling, commit_byte, sided_spelling, payload};
ghost use Rattle.cov_record.specs.SideRuns.{side_run, side_runs, has_sides};

use crate::side_tests::has_sides;
use cov_base::{Choice, Kind, LineRef, Memory, NodeRef, OptionId, Text};
use cov_edit::{Command, Edit, Edits, Run};
use cov_expr::Part;
use std::alloc::Global;

/// The record of a command.
pub fn encode(alloc: Global, command: &Command) -> Result<Text, Memory>
    requires { length (edits_in command.now) < 2 ^ 32 }
    ensures { IfOk result (λ text. IsRecordOf text command.now) }
{
    command.bounds_are_kept();
    let mut text = Text::new(alloc);
    append_command(&mut text, command)?;
    Ok(text)
}

fn append_command(text: &mut Text, command: &Command) -> Result<(), Memory>
    requires { length (edits_in command.now) < 2 ^ 32 }
    ensures bytes { OnOk result (text.new ≡ text.old ++ payload command.now) }
    ensures reach { OnOk result (reach_of command.now ≤ CHOICE_WIDTH) }
    ensures numbers { OnOk result (FitsNumbers command.now) }
{
    match command {
        Command::Option { name } => {
            text.push(1)?;
            append_name(text, name.as_slice())
        }
        Command::Constraint { expr } => {
            text.push(2)?;
            append_part(text, expr.part())
        }
        Command::Prefer { expr } => {
            text.push(3)?;
            append_part(text, expr.part())
        }
        Command::Default { option, on } => {
            text.push(4)?;
            text.push(option.number())?;
            text.push(bit(*on))
        }
        Command::Commit {
            base,
            choice,
            ambition,
            edits,
        } => {
            let with_sides = has_sides(edits);
            text.push(commit_byte(with_sides))?;
            append_u32(text, base.number())?;
            append_choice(text, *choice)?;
            append_part(text, ambition.part())?;
            append_sided(text, edits, with_sides)
        }
        Command::Upgrade => text.push(7),
    }
}

// The byte of a commit, by whether the sides of its edits are spelt.
fn commit_byte(with_sides: bool) -> u8
    ensures { result ≡ commit_byte with_sides }
{
    match with_sides {
        true => 6,
        false => 5,
    }
}

fn bit(on: bool) -> u8
    ensures { result ≡ bit on }
{
    match on {
        true => 1,
        false => 0,
    }
}

fn append_u16(text: &mut Text, number: u16) -> Result<(), Memory>
    ensures { OnOk result (text.new ≡ text.old ++ to_be_bytes w16 number) }
{
    text.append(&number.to_be_bytes())
}

fn append_u32(text: &mut Text, number: u32) -> Result<(), Memory>
    ensures { OnOk result (text.new ≡ text.old ++ to_be_bytes w32 number) }
{
    text.append(&number.to_be_bytes())
}

fn append_name(text: &mut Text, name: &[u8]) -> Result<(), Memory>
    requires { length name.now ≤ MOST_NAME_BYTES }
    ensures { OnOk result (text.new ≡ text.old ++ name_spelling name.now) }
{
    text.push(name.len() as u8)?;
    text.append(name)
}

fn append_text(text: &mut Text, line: &[u8]) -> Result<(), Memory>
    requires { length line.now ≤ MOST_TEXT_BYTES }
    ensures { OnOk result (text.new ≡ text.old ++ text_spelling line.now) }
{
    append_u16(text, line.len() as u16)?;
    text.append(line)
}

fn append_choice(text: &mut Text, choice: Choice) -> Result<(), Memory>
    ensures bytes { OnOk result (text.new ≡ text.old ++ choice_spelling choice) }
    ensures few { length choice ≤ CHOICE_WIDTH }
{
    text.push(choice.count())?;
    append_bits(text, choice)
}

fn append_bits(text: &mut Text, choice: Choice) -> Result<(), Memory>
    ensures { OnOk result (text.new ≡ text.old ++ map bit choice) }
{
    for option in 0..choice.count() {
        text.push(bit(choice.get(OptionId::new(option))))?;
    }
    Ok(())
}

// Appends an expression. The depth of recursion is at most the number of its parts, which is at most `MOST_PARTS`.
fn append_part(text: &mut Text, part: &Part) -> Result<(), Memory>
    ensures bytes { OnOk result (text.new ≡ text.old ++ expression_spelling (formula part.now)) }
    ensures reach { OnOk result (reach (formula part.now) ≤ CHOICE_WIDTH) }
{
    match part {
        Part::False => text.push(0),
        Part::True => text.push(1),
        Part::Option(option) => {
            text.push(2)?;
            text.push(option.number())
        }
        Part::Not(inner) => {
            text.push(3)?;
            append_part(text, inner)
        }
        Part::And(left, right) => {
            text.push(4)?;
            append_part(text, left)?;
            append_part(text, right)
        }
        Part::Or(left, right) => {
            text.push(5)?;
            append_part(text, left)?;
            append_part(text, right)
        }
    }
}

fn append_kind(text: &mut Text, kind: Kind) -> Result<(), Memory>
    ensures { OnOk result (text.new ≡ text.old ++ kind_byte kind ∷ []) }
{
    match kind {
        Kind::File => text.push(0),
        Kind::Dir => text.push(1),
    }
}

fn append_node(text: &mut Text, node: NodeRef) -> Result<(), Memory>
    ensures bytes { OnOk result (text.new ≡ text.old ++ node_spelling node) }
    ensures fits { OnOk result (FitsNode node) }
{
    match node {
        NodeRef::Old(number) => {
            text.push(0)?;
            append_u32(text, number.number())
        }
        NodeRef::New(number) => {
            text.push(1)?;
            append_u32(text, number)
        }
    }
}

fn append_line(text: &mut Text, line: LineRef) -> Result<(), Memory>
    ensures bytes { OnOk result (text.new ≡ text.old ++ line_spelling line) }
    ensures fits { OnOk result (FitsLine line) }
{
    match line {
        LineRef::Old(number) => {
            text.push(0)?;
            append_u32(text, number.number())
        }
        LineRef::New(number) => {
            text.push(1)?;
            append_u32(text, number)
        }
    }
}

// Appends the edits of a commit: by runs of one side, if one of them has a side other than `True`.
fn append_sided(text: &mut Text, edits: &Edits, with_sides: bool) -> Result<(), Memory>
    requires few { length edits.now < 2 ^ 32 }
    requires sides { with_sides ≡ has_sides edits.now }
    ensures bytes { OnOk result (text.new ≡ text.old ++ sided_spelling with_sides edits.now) }
    ensures counts { FitsCounts with_sides edits.now }
    ensures reach { OnOk result (reach_of_sides edits.now ≤ CHOICE_WIDTH) }
    ensures references { OnOk result (AllByRecursion FitsReferences (unsided edits.now)) }
{
    match with_sides {
        true => append_by_runs(text, edits),
        false => append_edits(text, edits.as_slice()),
    }
}

// Appends the edits by runs of one side. Those before all kept runs have the side `True`.
fn append_by_runs(text: &mut Text, edits: &Edits) -> Result<(), Memory>
    requires { length edits.now < 2 ^ 32 }
    ensures bytes { OnOk result (text.new ≡ text.old ++ runs_spelling (side_runs edits.now)) }
    ensures fit { OnOk result (AllByRecursion FitsWritten (side_runs edits.now)) }
{
    let runs = edits.runs();
    let items = edits.as_slice();
    let (before, rest) = items.split_at(count_before(runs, items.len()));
    append_u32(text, run_count(before, runs))?;
    append_true_run(text, before)?;
    append_kept_runs(text, runs, rest)
}

// How many edits stand before the kept runs, of so many.
fn count_before(runs: &[Run], all: usize) -> usize
    ensures { result ≡ count_before runs.now all }
{
    match runs {
        [run, ..] => run.first,
        [] => all,
    }
}

// How many runs there are: those that are kept, and one if edits stand before these.
fn run_count(before: &[Edit], runs: &[Run]) -> u32
    requires { length (true_run before.now) + length runs.now < 2 ^ 32 }
    ensures { result ≡ length (true_run before.now) + length runs.now }
{
    match before {
        [_, ..] => 1 + runs.len() as u32,
        [] => runs.len() as u32,
    }
}

// Appends edits as a run of the side `True`, if there are any.
fn append_true_run(text: &mut Text, edits: &[Edit]) -> Result<(), Memory>
    requires few { length edits.now < 2 ^ 32 }
    requires fits { list_all fits_edit edits.now ≡ true }
    ensures bytes { OnOk result
        (text.new ≡ text.old ++ run_of run_spelling (true_run edits.now)) }
    ensures fit { OnOk result (AllByRecursion FitsWritten (true_run edits.now)) }
{
    if edits.is_empty() {
        return Ok(());
    }
    text.push(1)?;
    append_edits(text, edits)
}

// Appends the kept runs with their edits, which stand from the first of the first run on.
fn append_kept_runs(text: &mut Text, runs: &[Run], edits: &[Edit]) -> Result<(), Memory>
    requires few { length edits.now < 2 ^ 32 }
    requires fits { list_all fits_edit edits.now ≡ true }
    requires rise { RunsRise runs.now }
    requires within { AreWithin runs.now (length edits.now) }
    ensures bytes { OnOk result
        (text.new ≡ text.old ++ run_of run_spelling (kept_runs runs.now edits.now)) }
    ensures fit { OnOk result (AllByRecursion FitsWritten (kept_runs runs.now edits.now)) }
{
    let mut ahead = runs;
    let mut left = edits;
    'runs: while let [run, rest @ ..] = ahead {
        let (own, behind) = left.split_at(own_count(run, rest, left.len()));
        append_run(text, run.side.part(), own)?;
        ahead = rest;
        left = behind;
    }
    Ok(())
}

// How many edits a run has: up to the next run, or all that are left from its first on.
fn own_count(run: &Run, rest: &[Run], left: usize) -> usize
    requires { AreBehind run.now rest.now }
    ensures { result ≡ own_count run.now rest.now left }
{
    match rest {
        [next, ..] => next.first - run.first,
        [] => left,
    }
}

// Appends a side and its edits.
fn append_run(text: &mut Text, side: &Part, edits: &[Edit]) -> Result<(), Memory>
    requires few { length edits.now < 2 ^ 32 }
    requires fits { list_all fits_edit edits.now ≡ true }
    ensures bytes { OnOk result
        (text.new ≡ text.old ++ run_spelling (side_run (formula side.now) edits.now)) }
    ensures fit { OnOk result (FitsWritten (side_run (formula side.now) edits.now)) }
{
    append_part(text, side)?;
    append_edits(text, edits)
}

fn append_edits(text: &mut Text, edits: &[Edit]) -> Result<(), Memory>
    requires few { length edits.now < 2 ^ 32 }
    requires fits { list_all fits_edit edits.now ≡ true }
    ensures bytes { OnOk result (text.new ≡ text.old ++ edits_spelling edits.now) }
    ensures references { OnOk result (AllByRecursion FitsReferences edits.now) }
{
    append_u32(text, edits.len() as u32)?;
    append_all(text, edits)
}

fn append_all(text: &mut Text, edits: &[Edit]) -> Result<(), Memory>
    requires { list_all fits_edit edits.now ≡ true }
    ensures bytes { OnOk result (text.new ≡ text.old ++ all_edit_spelling edits.now) }
    ensures references { OnOk result (AllByRecursion FitsReferences edits.now) }
{
    let mut ahead = edits;
    'edits: while let [edit, rest @ ..] = ahead {
        append_edit(text, edit)?;
        ahead = rest;
    }
    Ok(())
}

fn append_edit(text: &mut Text, edit: &Edit) -> Result<(), Memory>
    requires { fits_edit edit.now ≡ true }
    ensures bytes { OnOk result (text.new ≡ text.old ++ edit_spelling edit.now) }
    ensures references { OnOk result (FitsReferences edit.now) }
{
    match edit {
        Edit::New { kind, parent, name } => {
            text.push(1)?;
            append_kind(text, *kind)?;
            append_node(text, *parent)?;
            append_name(text, name.as_slice())
        }
        Edit::Insert {
            file,
            after,
            text: line,
        } => {
            text.push(2)?;
            append_node(text, *file)?;
            append_line(text, *after)?;
            append_text(text, line.as_slice())
        }
        Edit::Delete { file, line } => {
            text.push(3)?;
            append_node(text, *file)?;
            append_line(text, *line)
        }
        Edit::Rename { node, name } => {
            text.push(4)?;
            append_node(text, *node)?;
            append_name(text, name.as_slice())
        }
        Edit::Move { node, parent } => {
            text.push(5)?;
            append_node(text, *node)?;
            append_node(text, *parent)
        }
        Edit::Remove { node } => {
            text.push(6)?;
            append_node(text, *node)
        }
    }
}
