//! Commits whose edits have sides: where these apply, which commits are refused for them, and which overtake them.
ghost use Rattle.std.specs.Prelude.{◌≡◌, true};
ghost use Rattle.cov_base.specs.Spelling.{is_line_text};
ghost use Rattle.cov_edit.specs.EditFits.{has_line_text};

use crate::tests::lines::{is_present_as, shown};
use crate::tests::overtaking::position_of;
use crate::tests::refusing::{option, refused};
use crate::tests::steps::{append, close, command};
use crate::tests::trees::{declare, making, old};
use cov_base::{
    Choice, FileRows, Kind, LineNo, LineRef, NodeNo, NodeRef, OptionId, Position, Text,
};
use cov_edit::{Command, Edit, Edits, Sided};
use cov_engine::{Engine, Refusal};
use cov_expr::{Expr, Part};
use cov_vis::{Child, ListingEntry};
use std::alloc::Global;
use std::process::Abort;
use std::test::Fail;

/// Where an edit is meant to apply within its ambition: everywhere, or where an option is on, or off.
#[derive(Clone, Copy)]
enum Side {
    All,
    On(OptionId),
    Off(OptionId),
}

fn d() -> OptionId {
    OptionId::new(0)
}

fn e() -> OptionId {
    OptionId::new(1)
}

fn part_of(alloc: Global, side: Side) -> Result<Part, Fail> {
    match side {
        Side::All => Ok(Part::True),
        Side::On(option) => Ok(Part::Option(option)),
        Side::Off(option) => {
            let part = Box::new(alloc, Part::Option(option))?;
            Ok(Part::Not(part))
        }
    }
}

// Adds an edit for a side.
fn add(alloc: Global, edits: &mut Edits, side: Side, edit: Edit) -> Result<(), Fail>
    requires { has_line_text edit ≡ true }
{
    let side = Expr::new(part_of(alloc, side)?)?;
    edits.push(Sided { side, edit })?;
    Ok(())
}

// Makes a file in the root, for all.
fn make(alloc: Global, edits: &mut Edits, name: &[u8]) -> Result<(), Fail> {
    let file = making(alloc, Kind::File, 0, name)?;
    add(alloc, edits, Side::All, file)
}

// Puts a line into a file, for a side.
fn insert(
    alloc: Global,
    edits: &mut Edits,
    side: Side,
    file: NodeRef,
    after: LineRef,
    text: &[u8],
) -> Result<(), Fail>
    requires { is_line_text text.now ≡ true }
{
    let text = Text::from_slice(alloc, text)?;
    add(alloc, edits, side, Edit::Insert { file, after, text })
}

// Takes a line out of the file 1, for a side.
fn delete(alloc: Global, edits: &mut Edits, side: Side, line: LineRef) -> Result<(), Fail> {
    let file = old(1);
    add(alloc, edits, side, Edit::Delete { file, line })
}

fn head() -> LineRef {
    LineRef::Old(LineNo::new(0))
}

// The file that a commit makes first.
fn made() -> NodeRef {
    NodeRef::New(0)
}

fn with_d() -> Option<Side> {
    Some(Side::On(d()))
}

fn without(option: OptionId) -> Option<Side> {
    Some(Side::Off(option))
}

// Appends a commit for all variants.
fn commit(engine: &mut Engine, base: u32, choice: Choice, edits: Edits) -> Result<(), Fail> {
    let command = command(base, choice, None, edits)?;
    append(engine, command)?;
    Ok(())
}

fn is_line(rows: &FileRows, index: usize, line: u32) -> bool {
    match rows.get(index) {
        Some(row) => row.line.number() == line,
        None => false,
    }
}

fn are_lines(rows: &FileRows, lines: &[u32]) -> bool {
    'rows: for index in 0..rows.len() {
        match lines.get(index) {
            Some(line) if is_line(rows, index, *line) => (),
            _ => return false,
        }
    }
    rows.len() == lines.len()
}

// Whether the file 1 has just these lines, in order, on a choice at a position.
fn has(engine: &Engine, choice: Choice, at: u32, lines: &[u32]) -> Result<bool, Fail> {
    let rows = engine.lines_at(NodeNo::new(1), choice, Position::new(at))?;
    Ok(are_lines(&rows, lines))
}

// The file m with a line for all, and one behind it for those with d.
fn two_lines(alloc: Global) -> Result<Edits, Fail> {
    let mut edits = Edits::new(alloc);
    make(alloc, &mut edits, b"m")?;
    insert(alloc, &mut edits, Side::All, made(), head(), b"one")?;
    insert(
        alloc,
        &mut edits,
        Side::On(d()),
        made(),
        LineRef::New(0),
        b"two",
    )?;
    Ok(edits)
}

fn check_one_side(rt: &impl Abort, alloc: Global, engine: &mut Engine) -> Result<(), Fail> {
    declare(alloc, engine, b"d")?;
    let edits = two_lines(alloc)?;
    commit(engine, 1, Choice::new(1, 1), edits)?;
    assert!(rt; has(engine, Choice::new(1, 1), 2, &[1, 2])?);
    assert!(rt; has(engine, Choice::new(0, 1), 2, &[1])?);
    assert!(rt; shown(engine, 1) == Some((true, true)));
    assert!(rt; shown(engine, 2) == Some((false, true)));
    let with_d = ListingEntry {
        option: d(),
        off: Child::F,
        on: Child::T,
    };
    assert!(rt; is_present_as(engine, 2, Child::At(0), Some(&with_d)));
    Ok(())
}

#[test]
fn a_line_is_there_where_its_side_is_true(rt: HostRuntime) -> Result<(), Fail> {
    let mut engine = Engine::new(rt.alloc())?;
    let checked = check_one_side(&rt, rt.alloc(), &mut engine);
    close(engine);
    checked
}

// The file m with a line for those with d, one for those with e, and one for all.
fn three_lines(alloc: Global) -> Result<Edits, Fail> {
    let mut edits = Edits::new(alloc);
    make(alloc, &mut edits, b"m")?;
    insert(alloc, &mut edits, Side::On(d()), made(), head(), b"A")?;
    insert(
        alloc,
        &mut edits,
        Side::On(e()),
        made(),
        LineRef::New(0),
        b"B",
    )?;
    insert(alloc, &mut edits, Side::All, made(), LineRef::New(1), b"C")?;
    Ok(edits)
}

// The third line is taken out for those with d, and a line that is put in for all is taken out again for those with e.
fn lines_taken_out(alloc: Global) -> Result<Edits, Fail> {
    let mut edits = Edits::new(alloc);
    delete(
        alloc,
        &mut edits,
        Side::On(d()),
        LineRef::Old(LineNo::new(3)),
    )?;
    insert(alloc, &mut edits, Side::All, old(1), head(), b"D")?;
    delete(alloc, &mut edits, Side::On(e()), LineRef::New(0))?;
    Ok(edits)
}

fn check_three_lines(rt: &impl Abort, engine: &Engine) -> Result<(), Fail> {
    assert!(rt; has(engine, Choice::new(0, 2), 3, &[3])?);
    assert!(rt; has(engine, Choice::new(1, 2), 3, &[1, 3])?);
    assert!(rt; has(engine, Choice::new(2, 2), 3, &[2, 3])?);
    assert!(rt; has(engine, Choice::new(3, 2), 3, &[1, 2, 3])?);
    Ok(())
}

fn check_taken_out(rt: &impl Abort, engine: &Engine) -> Result<(), Fail> {
    assert!(rt; has(engine, Choice::new(0, 2), 4, &[4, 3])?);
    assert!(rt; has(engine, Choice::new(1, 2), 4, &[4, 1])?);
    assert!(rt; has(engine, Choice::new(2, 2), 4, &[2, 3])?);
    assert!(rt; has(engine, Choice::new(3, 2), 4, &[1, 2])?);
    Ok(())
}

fn declare_both(alloc: Global, engine: &mut Engine) -> Result<(), Fail> {
    declare(alloc, engine, b"d")?;
    declare(alloc, engine, b"e")
}

fn check_two_sides(rt: &impl Abort, alloc: Global, engine: &mut Engine) -> Result<(), Fail> {
    declare_both(alloc, engine)?;
    let edits = three_lines(alloc)?;
    commit(engine, 2, Choice::new(3, 2), edits)?;
    let edits = lines_taken_out(alloc)?;
    commit(engine, 3, Choice::new(3, 2), edits)?;
    check_three_lines(rt, engine)?;
    check_taken_out(rt, engine)?;
    engine.sweep()?;
    check_three_lines(rt, engine)?;
    check_taken_out(rt, engine)
}

#[test]
fn each_edit_applies_on_its_side(rt: HostRuntime) -> Result<(), Fail> {
    let mut engine = Engine::new(rt.alloc())?;
    let checked = check_two_sides(&rt, rt.alloc(), &mut engine);
    close(engine);
    checked
}

// A line at the head of the file 1 for each of three sides.
fn lines_for(alloc: Global, first: Side, second: Side, third: Side) -> Result<Edits, Fail> {
    let mut edits = Edits::new(alloc);
    insert(alloc, &mut edits, first, old(1), head(), b"X")?;
    insert(alloc, &mut edits, second, old(1), head(), b"Y")?;
    insert(alloc, &mut edits, third, old(1), head(), b"Z")?;
    Ok(edits)
}

// A deletion of a line that isn't there, for a side.
fn bad_edit(alloc: Global, side: Side) -> Result<Edits, Fail> {
    let mut edits = Edits::new(alloc);
    delete(alloc, &mut edits, side, LineRef::Old(LineNo::new(9)))?;
    Ok(edits)
}

// Why a commit on the variant with d alone is refused.
fn refusal_of(
    engine: &mut Engine,
    base: u32,
    within: Option<OptionId>,
    edits: Edits,
) -> Result<Refusal, Fail> {
    let command = command(base, Choice::new(1, 2), within, edits)?;
    refused(engine, command)
}

fn check_outside(rt: &impl Abort, alloc: Global, engine: &mut Engine) -> Result<(), Fail> {
    let edits = lines_for(alloc, Side::On(d()), Side::Off(e()), Side::On(e()))?;
    let refusal = refusal_of(engine, 3, None, edits)?;
    assert!(rt; matches!(refusal, Refusal::OutsideSide { edit: 2 }));
    let edits = lines_for(alloc, Side::All, Side::Off(d()), Side::On(e()))?;
    let refusal = refusal_of(engine, 3, None, edits)?;
    assert!(rt; matches!(refusal, Refusal::OutsideSide { edit: 1 }));
    let edits = lines_for(alloc, Side::On(e()), Side::On(e()), Side::All)?;
    let refusal = refusal_of(engine, 3, Some(e()), edits)?;
    assert!(rt; matches!(refusal, Refusal::OutsideAmbition));
    let edits = bad_edit(alloc, Side::On(e()))?;
    let refusal = refusal_of(engine, 3, None, edits)?;
    assert!(rt; matches!(refusal, Refusal::OutsideSide { edit: 0 }));
    let edits = bad_edit(alloc, Side::Off(e()))?;
    let refusal = refusal_of(engine, 3, None, edits)?;
    assert!(rt; matches!(refusal, Refusal::BadRecord { edit: 0 }));
    Ok(())
}

// A side that names an option which the base doesn't have, and one that is false on a choice which a constraint forbids.
fn check_before(rt: &impl Abort, alloc: Global, engine: &mut Engine) -> Result<(), Fail> {
    let third = OptionId::new(2);
    let edits = lines_for(alloc, Side::All, Side::On(e()), Side::Off(third))?;
    let refusal = refusal_of(engine, 3, None, edits)?;
    assert!(rt; matches!(refusal, Refusal::BadOption));
    let expr = option(1)?;
    append(engine, Command::Constraint { expr })?;
    let edits = lines_for(alloc, Side::All, Side::On(e()), Side::All)?;
    let refusal = refusal_of(engine, 4, None, edits)?;
    assert!(rt; matches!(refusal, Refusal::Invalid { rule: 1 }));
    Ok(())
}

fn check_refused(rt: &impl Abort, alloc: Global, engine: &mut Engine) -> Result<(), Fail> {
    declare_both(alloc, engine)?;
    let edits = three_lines(alloc)?;
    commit(engine, 2, Choice::new(3, 2), edits)?;
    check_outside(rt, alloc, engine)?;
    check_before(rt, alloc, engine)
}

#[test]
fn the_first_edit_outside_its_side_is_named(rt: HostRuntime) -> Result<(), Fail> {
    let mut engine = Engine::new(rt.alloc())?;
    let checked = check_refused(&rt, rt.alloc(), &mut engine);
    close(engine);
    checked
}

// The files m and n.
fn two_files(alloc: Global) -> Result<Edits, Fail> {
    let mut edits = Edits::new(alloc);
    make(alloc, &mut edits, b"m")?;
    make(alloc, &mut edits, b"n")?;
    Ok(edits)
}

// Adds a line at the head of a file, if it is given a side.
fn touch(alloc: Global, edits: &mut Edits, side: Option<Side>, file: u32) -> Result<(), Fail> {
    match side {
        Some(side) => insert(alloc, edits, side, old(file), head(), b"X"),
        None => Ok(()),
    }
}

// Edits of the files m and n, each for a side.
fn touching(alloc: Global, m: Option<Side>, n: Option<Side>) -> Result<Edits, Fail> {
    let mut edits = Edits::new(alloc);
    touch(alloc, &mut edits, m, 1)?;
    touch(alloc, &mut edits, n, 2)?;
    Ok(edits)
}

// What overtakes edits of the files that were made on a choice where only the files were there.
fn overtaker(
    alloc: Global,
    engine: &mut Engine,
    choice: Choice,
    m: Option<Side>,
    n: Option<Side>,
) -> Result<Option<u32>, Fail> {
    let edits = touching(alloc, m, n)?;
    let command = command(3, choice, None, edits)?;
    match engine.append(command) {
        Ok(_) => Ok(None),
        Err(refusal) => Ok(Some(position_of(refusal)?)),
    }
}

// Two files, of which one is changed for those with d, and the other for those with e.
fn change_both(alloc: Global, engine: &mut Engine) -> Result<(), Fail> {
    declare_both(alloc, engine)?;
    let edits = two_files(alloc)?;
    commit(engine, 2, Choice::new(3, 2), edits)?;
    let edits = touching(alloc, Some(Side::On(d())), Some(Side::On(e())))?;
    commit(engine, 3, Choice::new(3, 2), edits)
}

// An edit of m for those with d meets that of m, one of n for those with d that of n, and one of n for all does too.
fn check_overtaken(rt: &impl Abort, alloc: Global, engine: &mut Engine) -> Result<(), Fail> {
    let found = overtaker(alloc, engine, Choice::new(1, 2), with_d(), None)?;
    assert_eq!(rt; found, Some(4));
    let found = overtaker(alloc, engine, Choice::new(1, 2), None, with_d())?;
    assert_eq!(rt; found, Some(4));
    let found = overtaker(
        alloc,
        engine,
        Choice::new(0, 2),
        without(d()),
        Some(Side::All),
    )?;
    assert_eq!(rt; found, Some(4));
    Ok(())
}

// Edits of m without d and of n without e meet neither of those, and are met by others.
fn check_apart(rt: &impl Abort, alloc: Global, engine: &mut Engine) -> Result<(), Fail> {
    let found = overtaker(alloc, engine, Choice::new(0, 2), without(d()), without(e()))?;
    assert_eq!(rt; found, None);
    let found = overtaker(alloc, engine, Choice::new(0, 2), without(d()), None)?;
    assert_eq!(rt; found, Some(5));
    let found = overtaker(alloc, engine, Choice::new(1, 2), None, with_d())?;
    assert_eq!(rt; found, Some(4));
    Ok(())
}

// Not both d and e.
fn not_both(alloc: Global) -> Result<Expr, Fail> {
    let d = Box::new(alloc, Part::Option(d()))?;
    let e = Box::new(alloc, Part::Option(e()))?;
    let both = Box::new(alloc, Part::And(d, e))?;
    Ok(Expr::new(Part::Not(both))?)
}

// Where no valid choice has both, an edit for those with d doesn't meet one for those with e.
fn check_forbidden(rt: &impl Abort, alloc: Global, engine: &mut Engine) -> Result<(), Fail> {
    let expr = not_both(alloc)?;
    append(engine, Command::Constraint { expr })?;
    let found = overtaker(alloc, engine, Choice::new(1, 2), None, with_d())?;
    assert_eq!(rt; found, Some(5));
    Ok(())
}

fn check_sides(
    rt: &impl Abort,
    alloc: Global,
    engine: &mut Engine,
    swept: bool,
) -> Result<(), Fail> {
    change_both(alloc, engine)?;
    if swept {
        engine.sweep()?;
    }
    check_overtaken(rt, alloc, engine)?;
    check_apart(rt, alloc, engine)?;
    check_forbidden(rt, alloc, engine)
}

#[test]
fn edits_of_one_file_meet_where_both_sides_are_true(rt: HostRuntime) -> Result<(), Fail> {
    let mut engine = Engine::new(rt.alloc())?;
    let checked = check_sides(&rt, rt.alloc(), &mut engine, false);
    close(engine);
    checked
}

#[test]
fn sides_are_kept_through_a_sweep(rt: HostRuntime) -> Result<(), Fail> {
    let mut engine = Engine::new(rt.alloc())?;
    let checked = check_sides(&rt, rt.alloc(), &mut engine, true);
    close(engine);
    checked
}
