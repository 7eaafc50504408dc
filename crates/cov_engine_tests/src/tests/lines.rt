//! A file with lines for all variants, lines for some, and lines that are taken out.
ghost use Rattle.std.specs.Prelude.{◌≡◌, ◌++◌, [], ◌∷◌, true, codes, IfOk, OnOk};
ghost use Rattle.cov_base.specs.Spelling.{is_line_text};
ghost use Rattle.cov_engine_tests.specs.Lines.{file_m, line_in, file_with, line_after, without, with_X, without_X};
ghost use Rattle.cov_engine_tests.specs.Trees.{commit_in, everywhere};

use crate::tests::steps::{close, commit, declare_d};
use crate::tests::trees::{also, making, one};
use cov_base::{
    Choice, FileRows, Kind, LineNo, LineRef, Memory, MemoryOr, NodeNo, NodeRef, OptionId, Position,
    Text,
};
use cov_dd::{FALSE, TRUE};
use cov_edit::{Edit, Edits};
use cov_engine::{Engine, NoSuchLine};
use cov_view::{View, ViewLines};
use cov_vis::{Child, ListingEntry};
use std::alloc::Global;
use std::process::Abort;
use std::test::Fail;

/// A line after another, in a file.
pub(crate) fn insertion(
    alloc: Global,
    file: NodeRef,
    after: u32,
    text: &[u8],
) -> Result<Edit, Memory>
    ensures { IfOk result (λ edit. edit ≡ line_in file after text.now) }
{
    let text = Text::from_slice(alloc, text)?;
    Ok(Edit::Insert {
        file,
        after: LineRef::Old(LineNo::new(after)),
        text,
    })
}

// The file m.
fn new_file(alloc: Global) -> Result<Edits, Fail>
    ensures { IfOk result (λ edits. edits ≡ everywhere (file_m ∷ [])) }
{
    let edit = making(alloc, Kind::File, 0, b"m")?;
    one(alloc, edit)
}

// The file m with the line A.
fn file_with_line(alloc: Global) -> Result<Edits, Fail>
    ensures { IfOk result (λ edits. edits ≡ file_with (codes "A")) }
{
    let line = insertion(alloc, NodeRef::New(0), 0, b"A")?;
    also(new_file(alloc)?, line)
}

/// Puts a line into the file 1, from the variant of a choice.
pub(crate) fn insert(
    alloc: Global,
    engine: &mut Engine,
    base: u32,
    choice: Choice,
    within: Option<OptionId>,
    after: u32,
    text: &[u8],
) -> Result<(), Fail>
    requires text { is_line_text text.now ≡ true }
    ensures { OnOk result (engine.new.history ≡
        engine.old.history ++ commit_in base choice within (line_after after text.now) ∷ []) }
{
    let edit = insertion(alloc, NodeRef::Old(NodeNo::new(1)), after, text)?;
    let edits = one(alloc, edit)?;
    commit(engine, base, choice, within, edits)
}

// Takes a line out of the file 1, from the variant of the choice with d.
fn delete(
    alloc: Global,
    engine: &mut Engine,
    base: u32,
    within: Option<OptionId>,
    line: u32,
) -> Result<(), Fail>
    ensures { OnOk result (engine.new.history ≡
        engine.old.history ++ commit_in base (true ∷ []) within (without line) ∷ []) }
{
    let edit = Edit::Delete {
        file: NodeRef::Old(NodeNo::new(1)),
        line: LineRef::Old(LineNo::new(line)),
    };
    let edits = one(alloc, edit)?;
    commit(engine, base, Choice::new(1, 1), within, edits)
}

/// Lines for all variants before and after one for those with d.
pub(crate) fn insert_lines(alloc: Global, engine: &mut Engine) -> Result<(), Fail>
    requires { engine.old.history ≡ [] }
    ensures { OnOk result (engine.new.history ≡ with_X) }
{
    declare_d(alloc, engine)?;
    let edits = file_with_line(alloc)?;
    commit(engine, 1, Choice::new(1, 1), None, edits)?;
    insert(
        alloc,
        engine,
        2,
        Choice::new(1, 1),
        Some(OptionId::new(0)),
        1,
        b"B",
    )?;
    insert(alloc, engine, 3, Choice::new(1, 1), None, 2, b"C")?;
    insert(alloc, engine, 4, Choice::new(0, 1), None, 1, b"X")
}

/// One line taken out of all variants, and one out of those with d.
pub(crate) fn delete_lines(alloc: Global, engine: &mut Engine) -> Result<(), Fail>
    requires { engine.old.history ≡ with_X }
    ensures { OnOk result (engine.new.history ≡ without_X) }
{
    delete(alloc, engine, 5, None, 2)?;
    delete(alloc, engine, 6, Some(OptionId::new(0)), 4)
}

/// Whether a line is visible without d and with it.
pub(crate) fn shown(engine: &Engine, line: u32) -> Option<(bool, bool)> {
    match engine.vis(LineNo::new(line)) {
        Some(node) => Some((
            engine.table().value(node, Choice::new(0, 1)),
            engine.table().value(node, Choice::new(1, 1)),
        )),
        None => None,
    }
}

fn check_inserted(rt: &impl Abort, alloc: Global, engine: &mut Engine) -> Result<(), Fail>
    requires { engine.old.history ≡ [] }
{
    insert_lines(alloc, engine)?;
    assert!(rt; engine.vis(LineNo::new(1)) == Some(TRUE));
    assert!(rt; engine.vis(LineNo::new(3)) == Some(TRUE));
    assert!(rt; engine.vis(LineNo::new(4)) == Some(TRUE));
    assert!(rt; engine.vis(LineNo::new(5)).is_none());
    assert!(rt; engine.vis(LineNo::new(0)).is_none());
    assert!(rt; shown(engine, 2) == Some((false, true)));
    Ok(())
}

#[test]
fn inserted_lines_are_visible_where_they_were_meant(rt: HostRuntime) -> Result<(), Fail> {
    let mut engine = Engine::new(rt.alloc())?;
    let checked = check_inserted(&rt, rt.alloc(), &mut engine);
    close(engine);
    checked
}

fn check_deleted(rt: &impl Abort, alloc: Global, engine: &mut Engine) -> Result<(), Fail>
    requires { engine.old.history ≡ [] }
{
    insert_lines(alloc, engine)?;
    delete_lines(alloc, engine)?;
    assert!(rt; engine.vis(LineNo::new(1)) == Some(TRUE));
    assert!(rt; engine.vis(LineNo::new(2)) == Some(FALSE));
    assert!(rt; shown(engine, 4) == Some((true, false)));
    Ok(())
}

#[test]
fn deleted_lines_are_hidden_where_it_was_meant(rt: HostRuntime) -> Result<(), Fail> {
    let mut engine = Engine::new(rt.alloc())?;
    let checked = check_deleted(&rt, rt.alloc(), &mut engine);
    close(engine);
    checked
}

/// Whether the presence of a line is a root with no entry, or with one of option 0.
pub(crate) fn is_present_as(
    engine: &Engine,
    line: u32,
    root: Child,
    entry: Option<&ListingEntry>,
) -> bool {
    match engine.presence(LineNo::new(line)) {
        Ok(listing) => listing.root() == root && listing.entries().as_slice().get(0) == entry,
        Err(_) => false,
    }
}

// Whether there is no line with a number.
fn is_refused(engine: &Engine, line: u32) -> bool {
    match engine.presence(LineNo::new(line)) {
        Ok(_) => false,
        Err(fault) => fault == MemoryOr::Refused(NoSuchLine),
    }
}

fn check_presence(rt: &impl Abort, alloc: Global, engine: &mut Engine) -> Result<(), Fail>
    requires { engine.old.history ≡ [] }
{
    insert_lines(alloc, engine)?;
    let with_d = ListingEntry {
        option: OptionId::new(0),
        off: Child::F,
        on: Child::T,
    };
    assert!(rt; is_present_as(engine, 2, Child::At(0), Some(&with_d)));
    delete_lines(alloc, engine)?;
    assert!(rt; is_present_as(engine, 1, Child::T, None));
    assert!(rt; is_present_as(engine, 2, Child::F, None));
    assert!(rt; is_refused(engine, 0));
    assert!(rt; is_refused(engine, 5));
    Ok(())
}

#[test]
fn a_line_is_present_where_its_replays_have_it(rt: HostRuntime) -> Result<(), Fail> {
    let mut engine = Engine::new(rt.alloc())?;
    let checked = check_presence(&rt, rt.alloc(), &mut engine);
    close(engine);
    checked
}

// Whether rows have a line with its text at an index.
fn is_at(rows: &FileRows, index: usize, line: u32, text: &[u8]) -> bool {
    match rows.get(index) {
        Some(row) => row.line.number() == line && row.text.as_slice() == text,
        None => false,
    }
}

fn check_listed(rt: &impl Abort, alloc: Global, engine: &mut Engine) -> Result<(), Fail>
    requires { engine.old.history ≡ [] }
{
    insert_lines(alloc, engine)?;
    delete_lines(alloc, engine)?;
    let rows = engine.file_lines(NodeNo::new(1))?;
    assert_eq!(rt; rows.len(), 4);
    assert!(rt; is_at(&rows, 0, 1, b"A"));
    assert!(rt; is_at(&rows, 1, 4, b"X"));
    assert!(rt; is_at(&rows, 2, 2, b"B"));
    assert!(rt; is_at(&rows, 3, 3, b"C"));
    drop(rows);
    Ok(())
}

#[test]
fn a_file_lists_what_is_deleted_and_what_no_choice_shows(rt: HostRuntime) -> Result<(), Fail> {
    let mut engine = Engine::new(rt.alloc())?;
    let checked = check_listed(&rt, rt.alloc(), &mut engine);
    close(engine);
    checked
}

// Whether lines have a line with its text at an index.
fn is_line(lines: &ViewLines, index: usize, line: u32, text: &[u8]) -> bool {
    match lines.get(index) {
        Some(shown) => {
            shown.line == LineRef::Old(LineNo::new(line)) && shown.text.as_slice() == text
        }
        None => false,
    }
}

fn check_lines(rt: &impl Abort, view: &View) -> Result<(), Fail> {
    let lines = match view.lines(NodeRef::Old(NodeNo::new(1))) {
        Ok(lines) => lines,
        Err(_) => return Err(Fail::from("no file")),
    };
    assert_eq!(rt; lines.len(), 3);
    assert!(rt; is_line(&lines, 0, 1, b"A"));
    assert!(rt; is_line(&lines, 1, 4, b"X"));
    assert!(rt; is_line(&lines, 2, 3, b"C"));
    drop(lines);
    Ok(())
}

fn check_seen(rt: &impl Abort, alloc: Global, engine: &mut Engine) -> Result<(), Fail>
    requires { engine.old.history ≡ [] }
{
    insert_lines(alloc, engine)?;
    let view = Engine::view(engine.visible(), Choice::new(0, 1), Position::new(5))?;
    let checked = check_lines(rt, &view);
    drop(view);
    checked
}

#[test]
fn a_variant_is_shown(rt: HostRuntime) -> Result<(), Fail> {
    let mut engine = Engine::new(rt.alloc())?;
    let checked = check_seen(&rt, rt.alloc(), &mut engine);
    close(engine);
    checked
}
