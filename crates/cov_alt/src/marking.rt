// On which side each line of a file is.
ghost use Rattle.std.specs.Prelude.{◌≡◌, ◌&&◌, [], Some, IfOk, OnOk};
ghost use Rattle.std.specs.List.{fold};
ghost use Rattle.cov_dd.specs.Diagrams.{value_in};
ghost use Rattle.cov_alt.specs.Marking.{is_on, mark_if, with_mark, with_marked};

use crate::{AltLine, AltLines, Mark};
use cov_base::{Choice, FileRow, LineNo, Memory};
use cov_dd::{Node, Table};
use cov_engine::Engine;
use std::alloc::Global;

/// One side: its choice, and whether the file is in the variant of that choice.
#[derive(Clone, Copy)]
pub(crate) struct Side {
    pub(crate) choice: Choice,
    pub(crate) has_file: bool,
}

/// The rows that are on one of two sides, each with its mark.
pub(crate) fn mark_all(
    alloc: Global,
    engine: &Engine,
    rows: &[FileRow],
    on: &Side,
    off: &Side,
) -> Result<AltLines, Memory>
    ensures { IfOk result (λ lines. lines ≡
        fold (with_marked engine.now.history on.now off.now) [] rows.now) }
{
    let mut lines = AltLines::new(alloc);
    let mut ahead = rows;
    while let [row, rest @ ..] = ahead {
        add_marked(&mut lines, engine, row, on, off)?;
        ahead = rest;
    }
    Ok(lines)
}

// Adds a row with its mark, if it is on one of the sides.
fn add_marked(
    lines: &mut AltLines,
    engine: &Engine,
    row: &FileRow,
    on: &Side,
    off: &Side,
) -> Result<(), Memory>
    ensures { OnOk result (lines.new ≡ with_marked engine.now.history on.now off.now lines.old
        row.now) }
{
    match mark_of(engine, row.line, on, off) {
        Some(mark) => add(lines, row, mark),
        None => Ok(()),
    }
}

fn add(lines: &mut AltLines, row: &FileRow, mark: Mark) -> Result<(), Memory>
    ensures { OnOk result (lines.new ≡ with_mark lines.old row.now (Some mark)) }
{
    let text = row.text.copy()?;
    lines.push(AltLine {
        mark,
        line: row.line,
        text,
    })
}

// The mark of a line, None where it is on neither side.
fn mark_of(engine: &Engine, line: LineNo, on: &Side, off: &Side) -> Option<Mark>
    ensures { result ≡ mark_if (is_on engine.now.history on.now line)
        (is_on engine.now.history off.now line) }
{
    match engine.vis(line) {
        Some(node) => mark_if(
            is_visible(engine.table(), node, on),
            is_visible(engine.table(), node, off),
        ),
        None => None,
    }
}

// Whether what is visible by a node is on a side.
fn is_visible(table: &Table, node: Node, side: &Side) -> bool
    ensures { result ≡ (side.now.has_file && value_in table.now node side.now.choice) }
{
    side.has_file && table.value(node, side.choice)
}

// The mark of a line by whether it is on each side, None where it is on neither.
fn mark_if(on: bool, off: bool) -> Option<Mark>
    ensures { result ≡ mark_if on off }
{
    match (on, off) {
        (true, true) => Some(Mark::Both),
        (true, false) => Some(Mark::OnOnly),
        (false, true) => Some(Mark::OffOnly),
        (false, false) => None,
    }
}
