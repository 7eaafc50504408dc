//! A file of many lines that are changed at many positions.
ghost use Rattle.std.specs.Prelude.{◌≡◌, ℕ, ◌+◌, ◌-◌, ◌^◌, ◌<◌, ◌≤◌, ◌&&◌, nat_lt, nat_le, true, [], OnOk};
ghost use Rattle.cov_order.specs.Orders.{has_line};
ghost use Rattle.cov_file.specs.Dated.{line_numbers_of};

use cov_base::{Choice, FileRows, LineNo, LineNos, Memory, Position, Text};
use cov_dd::{FALSE, TRUE, Table};
use cov_file::FileLines;
use std::alloc::Global;
use std::process::Abort;
use std::test::Fail;

/// How many lines are put in at position 1, and how many of these are hidden, each at a position of its own.
const LINES: u32 = 65_536;

const HIDDEN: u32 = 40_000;

// Positions, and the first line that is shown there; all after it are, too.
const SHOWN: [(u32, u32); 2] = [(20_001, 20_001), (40_001, 40_001)];

// Puts a line in after the one before it.
fn add_after(alloc: Global, file: &mut FileLines, anchor: u32) -> Result<(), Memory>
    requires numbers { (n : ℕ) → has_line n (line_numbers_of file.old.lines) ≡
        (nat_lt 0 n && nat_le n anchor) }
    requires newest { file.old.newest ≤ 1 }
    requires few { anchor < 2 ^ 32 - 1 }
    ensures numbers { OnOk result ((n : ℕ) → has_line n (line_numbers_of file.new.lines) ≡
        (nat_lt 0 n && nat_le n (anchor + 1))) }
    ensures newest { file.new.newest ≤ 1 }
{
    file.prepare(1, &LineNos::new(alloc))?;
    let before = LineNo::new(anchor);
    let line = LineNo::new(anchor + 1);
    file.insert(before, line, Text::new(alloc), TRUE, Position::new(1));
    Ok(())
}

fn add_lines(alloc: Global, file: &mut FileLines) -> Result<(), Memory>
    requires lines { file.old.lines ≡ [] }
    requires newest { file.old.newest ≤ 1 }
    ensures numbers { OnOk result ((n : ℕ) → has_line n (line_numbers_of file.new.lines) ≡
        (nat_lt 0 n && nat_le n 65536)) }
    ensures newest { file.new.newest ≤ 1 }
{
    let mut count = 0;
    'lines: while count < LINES {
        add_after(alloc, file, count)?;
        count += 1;
    }
    Ok(())
}

// Hides a line from the position after its number on.
fn hide(alloc: Global, file: &mut FileLines, line: u32) -> Result<(), Memory>
    requires there { has_line line (line_numbers_of file.old.lines) ≡ true }
    requires newest { file.old.newest ≤ line + 1 }
    requires few { line < 2 ^ 32 - 1 }
    ensures numbers { line_numbers_of file.new.lines ≡ line_numbers_of file.old.lines }
    ensures newest { file.new.newest ≤ line + 1 }
{
    let mut deletes = LineNos::new(alloc);
    deletes.push(LineNo::new(line))?;
    file.prepare(0, &deletes)?;
    file.delete(LineNo::new(line), FALSE, Position::new(line + 1));
    Ok(())
}

fn hide_lines(alloc: Global, file: &mut FileLines) -> Result<(), Memory>
    requires numbers { (n : ℕ) → has_line n (line_numbers_of file.old.lines) ≡
        (nat_lt 0 n && nat_le n 65536) }
    requires newest { file.old.newest ≤ 1 }
{
    let mut count = 0;
    'lines: while count < HIDDEN {
        hide(alloc, file, count + 1)?;
        count += 1;
    }
    Ok(())
}

// Whether rows are the lines from one on, in order.
fn are_from(rows: &FileRows, first: u32) -> bool {
    let mut line = first;
    for row in rows.as_slice() {
        if line > LINES || row.line != LineNo::new(line) {
            return false;
        }
        line += 1;
    }
    line > LINES
}

fn shows_from(file: &FileLines, table: &Table, at: u32, first: u32) -> Result<bool, Memory> {
    let rows = file.lines_at(table, Choice::new(0, 0), Position::new(at))?;
    Ok(are_from(&rows, first))
}

fn check_shown(
    rt: &impl Abort,
    alloc: Global,
    table: &Table,
    file: &mut FileLines,
) -> Result<(), Fail>
    requires lines { file.old.lines ≡ [] }
    requires newest { file.old.newest ≤ 1 }
{
    add_lines(alloc, file)?;
    hide_lines(alloc, file)?;
    for (at, first) in &SHOWN {
        assert!(rt; shows_from(file, table, *at, *first)?);
    }
    Ok(())
}

#[test]
fn lines_by_many_positions(rt: HostRuntime) -> Result<(), Fail> {
    let table = Table::new(rt.alloc())?;
    let mut file = FileLines::new(rt.alloc());
    let checked = check_shown(&rt, rt.alloc(), &table, &mut file);
    drop(file);
    drop(table);
    checked
}
