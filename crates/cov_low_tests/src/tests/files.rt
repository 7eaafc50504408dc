//! The lines of a file in their order and by their visibilities.
ghost use Rattle.std.specs.Prelude.{◌≡◌, ◌≤◌, ◌∷◌, [], OnOk};
ghost use Rattle.cov_file.specs.Dated.{line_numbers_of};

use cov_base::{Choice, LineNo, LineNos, Memory, OptionId, Position, Text};
use cov_dd::{FALSE, Node, TRUE, Table};
use cov_file::FileLines;
use cov_order::Order;
use std::alloc::Global;
use std::process::Abort;
use std::test::Fail;

fn ordered(order: &mut Order) -> Result<LineNos, Memory>
    requires { order.old.lines ≡ [] }
{
    order.reserve(2)?;
    order.insert_after(LineNo::new(0), LineNo::new(1));
    order.insert_after(LineNo::new(0), LineNo::new(2));
    order.walk()
}

#[test]
fn lines_stand_after_their_anchors(rt: HostRuntime) -> Result<(), Fail> {
    let mut order = Order::new(rt.alloc());
    let lines = ordered(&mut order)?;
    assert!(rt; lines.len() == 2);
    assert!(rt; lines.get(0) == Some(LineNo::new(2)));
    assert!(rt; lines.get(1) == Some(LineNo::new(1)));
    Ok(())
}

const MANY: u32 = 1_000_000;

// The line 1, and then the others up to the millionth, each directly after it.
fn add_many(order: &mut Order) -> Result<LineNos, Memory>
    requires { order.old.lines ≡ [] }
{
    order.reserve(MANY)?;
    order.insert_after(LineNo::new(0), LineNo::new(1));
    'numbers: for number in 2..=MANY {
        order.insert_after(LineNo::new(1), LineNo::new(number));
    }
    order.walk()
}

fn is_newest_first(rt: &impl Abort, lines: &LineNos) {
    assert!(rt; lines.len() == MANY as usize);
    assert!(rt; lines.get(0) == Some(LineNo::new(1)));
    for index in 1..MANY {
        assert!(rt; lines.get(index as usize) == Some(LineNo::new(MANY + 1 - index)));
    }
}

#[test]
fn a_million_lines_in_time(rt: HostRuntime) -> Result<(), Fail> {
    let mut order = Order::new(rt.alloc());
    let lines = add_many(&mut order)?;
    is_newest_first(&rt, &lines);
    Ok(())
}

// Puts the line 1 in from position 3 on.
fn add_line(alloc: Global, file: &mut FileLines) -> Result<(), Memory>
    requires lines { file.old.lines ≡ [] }
    requires newest { file.old.newest ≤ 3 }
    ensures numbers { OnOk result (line_numbers_of file.new.lines ≡ 1 ∷ []) }
    ensures newest { OnOk result (file.new.newest ≡ 3) }
{
    let text = Text::from_slice(alloc, b"x")?;
    file.prepare(1, &LineNos::new(alloc))?;
    file.insert(LineNo::new(0), LineNo::new(1), text, TRUE, Position::new(3));
    Ok(())
}

// Gives the line 1 another visibility from position 6 on.
fn change(alloc: Global, file: &mut FileLines, vis: Node) -> Result<(), Memory>
    requires numbers { line_numbers_of file.old.lines ≡ 1 ∷ [] }
    requires newest { file.old.newest ≤ 6 }
{
    let mut deletes = LineNos::new(alloc);
    deletes.push(LineNo::new(1))?;
    file.prepare(0, &deletes)?;
    file.delete(LineNo::new(1), vis, Position::new(6));
    Ok(())
}

// Whether the option 0 is on, a position, and how many lines are shown there of a file whose line 1 is put in at 3 and hidden
// at 6 where the option is off.
const SHOWN: [(bool, u32, usize); 4] = [(false, 2, 0), (false, 5, 1), (false, 6, 0), (true, 6, 1)];

fn has_lines(
    rt: &impl Abort,
    file: &FileLines,
    table: &Table,
    on: bool,
    at: u32,
    wanted: usize,
) -> Result<(), Memory> {
    let choice = Choice::new(u128::from(on), 1);
    let rows = file.lines_at(table, choice, Position::new(at))?;
    let count = rows.len();
    drop(rows);
    assert!(rt; count == wanted);
    assert!(rt; file.is_visible(LineNo::new(1), table, choice, Position::new(at)) == (wanted == 1));
    assert!(rt; !file.is_visible(LineNo::new(2), table, choice, Position::new(at)));
    Ok(())
}

fn check_shown(
    rt: &impl Abort,
    alloc: Global,
    table: &mut Table,
    file: &mut FileLines,
) -> Result<(), Fail>
    requires lines { file.old.lines ≡ [] }
    requires newest { file.old.newest ≤ 3 }
{
    let vis = table.literal(OptionId::new(0))?;
    add_line(alloc, file)?;
    change(alloc, file, vis)?;
    for (on, at, wanted) in &SHOWN {
        has_lines(rt, file, table, *on, *at, *wanted)?;
    }
    Ok(())
}

#[test]
fn a_line_by_choice_and_position(rt: HostRuntime) -> Result<(), Fail> {
    let mut table = Table::new(rt.alloc())?;
    let mut file = FileLines::new(rt.alloc());
    let checked = check_shown(&rt, rt.alloc(), &mut table, &mut file);
    drop(file);
    drop(table);
    checked
}

fn check_hidden(rt: &impl Abort, alloc: Global, file: &mut FileLines) -> Result<(), Fail>
    requires lines { file.old.lines ≡ [] }
    requires newest { file.old.newest ≤ 3 }
{
    add_line(alloc, file)?;
    change(alloc, file, FALSE)?;
    let rows = file.all()?;
    let count = rows.len();
    drop(rows);
    assert!(rt; count == 1);
    assert!(rt; file.vis(LineNo::new(1)) == Some(FALSE));
    assert!(rt; file.vis(LineNo::new(2)).is_none());
    Ok(())
}

#[test]
fn a_hidden_line_is_listed(rt: HostRuntime) -> Result<(), Fail> {
    let mut file = FileLines::new(rt.alloc());
    let checked = check_hidden(&rt, rt.alloc(), &mut file);
    drop(file);
    checked
}
