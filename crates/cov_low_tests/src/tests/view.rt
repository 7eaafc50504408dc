//! A variant with edits on top.
ghost use Rattle.std.specs.Prelude.{OnOk};
ghost use Rattle.cov_view.specs.Soundness.{AreOld};

use cov_base::{
    FileRow, FileRows, Kind, LineNo, LineRef, Name, NodeNo, NodeRef, Path, Shared, Text,
};
use cov_edit::Edit;
use cov_view::{DirRows, Fault, View, ViewLines};
use std::alloc::Global;
use std::process::Abort;
use std::test::Fail;

// The file `m` in the root.
fn the_file() -> NodeRef {
    NodeRef::Old(NodeNo::new(1))
}

// Adds that file as node 1.
fn add_file(alloc: Global, view: &mut View) -> Result<(), Fail> {
    let name = Name::read(alloc, b"m")?;
    if view.kind(NodeRef::Old(NodeNo::new(1))).is_some() {
        return Err(Fail::from("a file before the first"));
    }
    view.add_row(NodeNo::new(1), Kind::File, NodeNo::new(0), &name)?;
    Ok(())
}

// Adds a line to that file.
fn add_line(alloc: Global, view: &mut View, line: u32, text: &[u8]) -> Result<(), Fail> {
    let text = Text::from_slice(alloc, text)?;
    match view.kind(NodeRef::Old(NodeNo::new(1))) {
        Some(Kind::File) => Ok(view.add_line(NodeNo::new(1), LineNo::new(line), &text)?),
        Some(Kind::Dir) | None => Err(Fail::from("no file")),
    }
}

fn apply(view: &mut View, edit: &Edit) -> Result<(), Fail> {
    if view.nodes_made() > 9 || view.lines_made() > 9 {
        return Err(Fail::from("an edit too many"));
    }
    Ok(view.apply(edit)?)
}

// Makes a node in the root.
fn make(alloc: Global, view: &mut View, kind: Kind, name: &[u8]) -> Result<(), Fail> {
    let edit = Edit::New {
        kind,
        parent: NodeRef::Old(NodeNo::new(0)),
        name: Name::read(alloc, name)?,
    };
    apply(view, &edit)
}

// Gives the file `m` another name.
fn rename(alloc: Global, view: &mut View, name: &[u8]) -> Result<(), Fail> {
    let edit = Edit::Rename {
        node: the_file(),
        name: Name::read(alloc, name)?,
    };
    apply(view, &edit)
}

// Inserts into the file `m`.
fn insert(alloc: Global, view: &mut View, after: LineRef, text: &[u8]) -> Result<(), Fail> {
    let edit = Edit::Insert {
        file: the_file(),
        after,
        text: Text::from_slice(alloc, text)?,
    };
    apply(view, &edit)
}

// Deletes from the file `m`.
fn delete(view: &mut View, line: LineRef) -> Result<(), Fail> {
    let edit = Edit::Delete {
        file: the_file(),
        line,
    };
    apply(view, &edit)
}

fn change(alloc: Global, view: &mut View) -> Result<(), Fail> {
    add_file(alloc, view)?;
    add_line(alloc, view, 1, b"one")?;
    add_line(alloc, view, 2, b"two")?;
    insert(alloc, view, LineRef::Old(LineNo::new(1)), b"between")?;
    insert(alloc, view, LineRef::New(0), b"behind it")?;
    make(alloc, view, Kind::File, b"n")?;
    delete(view, LineRef::Old(LineNo::new(1)))
}

// Puts the file `m` as `k` into a directory, and takes the file `n` out.
fn rearrange(alloc: Global, view: &mut View) -> Result<(), Fail> {
    make(alloc, view, Kind::Dir, b"d")?;
    let into = Edit::Move {
        node: the_file(),
        parent: NodeRef::New(1),
    };
    apply(view, &into)?;
    rename(alloc, view, b"k")?;
    let gone = Edit::Remove {
        node: NodeRef::New(0),
    };
    apply(view, &gone)
}

fn add_text(all: &mut Text, lines: &ViewLines, index: usize) -> Result<(), Fail> {
    if let Some(line) = lines.get(index) {
        all.append(line.text.as_slice())?;
        all.append(b"|")?;
    }
    Ok(())
}

// The texts of lines, each with a stroke behind it.
fn joined(alloc: Global, lines: &ViewLines) -> Result<Text, Fail> {
    let mut all = Text::new(alloc);
    for index in 0..lines.len() {
        add_text(&mut all, lines, index)?;
    }
    Ok(all)
}

fn text_of(alloc: Global, view: &View, file: NodeRef) -> Result<Text, Fail> {
    let lines = view.lines(file)?;
    let text = joined(alloc, &lines);
    drop(lines);
    text
}

fn leads_to(
    rt: &impl Abort,
    alloc: Global,
    view: &View,
    path: &[u8],
    node: Option<NodeRef>,
) -> Result<(), Fail> {
    let path = Path::read(alloc, path)?;
    let found = view.resolve(&path);
    drop(path);
    assert!(rt; found == node);
    Ok(())
}

fn has_text(
    rt: &impl Abort,
    alloc: Global,
    view: &View,
    file: NodeRef,
    wanted: &[u8],
) -> Result<(), Fail> {
    let text = text_of(alloc, view, file)?;
    assert!(rt; text.as_slice() == wanted);
    Ok(())
}

fn check(rt: &impl Abort, alloc: Global, view: &mut View) -> Result<(), Fail> {
    change(alloc, view)?;
    leads_to(rt, alloc, view, b"/m", Some(the_file()))?;
    leads_to(rt, alloc, view, b"/n", Some(NodeRef::New(0)))?;
    has_text(rt, alloc, view, the_file(), b"between|behind it|two|")?;
    has_text(rt, alloc, view, NodeRef::New(0), b"")
}

#[test]
fn edits_are_seen(rt: HostRuntime) -> Result<(), Fail> {
    let mut view = View::new(rt.alloc())?;
    let seen = check(&rt, rt.alloc(), &mut view);
    drop(view);
    seen
}

fn add_shared(alloc: Global, rows: &mut FileRows, line: u32, text: &[u8]) -> Result<(), Fail> {
    let line = LineNo::new(line);
    let text = Text::from_slice(alloc, text)?;
    Ok(rows.push(FileRow { line, text })?)
}

// Shares three lines with that file.
fn share_three(alloc: Global, view: &mut View) -> Result<(), Fail> {
    let mut rows = FileRows::new(alloc);
    add_shared(alloc, &mut rows, 1, b"one")?;
    add_shared(alloc, &mut rows, 2, b"two")?;
    add_shared(alloc, &mut rows, 3, b"three")?;
    let rows = Shared::new(alloc, rows)?;
    match view.kind(NodeRef::Old(NodeNo::new(1))) {
        Some(Kind::File) => Ok(view.share_lines_at(0, NodeNo::new(1), rows)?),
        Some(Kind::Dir) | None => Err(Fail::from("no file")),
    }
}

fn check_turns(rt: &impl Abort, alloc: Global, view: &mut View) -> Result<(), Fail> {
    add_file(alloc, view)?;
    share_three(alloc, view)?;
    has_text(rt, alloc, view, the_file(), b"one|two|three|")?;
    delete(view, LineRef::Old(LineNo::new(2)))?;
    insert(alloc, view, LineRef::Old(LineNo::new(1)), b"a")?;
    has_text(rt, alloc, view, the_file(), b"one|a|three|")?;
    delete(view, LineRef::New(0))?;
    insert(alloc, view, LineRef::Old(LineNo::new(3)), b"b")?;
    insert(alloc, view, LineRef::New(1), b"c")?;
    has_text(rt, alloc, view, the_file(), b"one|three|b|c|")?;
    insert(alloc, view, LineRef::Old(LineNo::new(0)), b"d")?;
    delete(view, LineRef::Old(LineNo::new(1)))?;
    has_text(rt, alloc, view, the_file(), b"d|three|b|c|")
}

#[test]
fn shared_lines_are_edited_in_turns(rt: HostRuntime) -> Result<(), Fail> {
    let mut view = View::new(rt.alloc())?;
    let seen = check_turns(&rt, rt.alloc(), &mut view);
    drop(view);
    seen
}

fn check_names(rt: &impl Abort, alloc: Global, view: &mut View) -> Result<(), Fail> {
    change(alloc, view)?;
    rearrange(alloc, view)?;
    leads_to(rt, alloc, view, b"/d/k", Some(the_file()))?;
    leads_to(rt, alloc, view, b"/m", None)?;
    leads_to(rt, alloc, view, b"/d/m", None)?;
    leads_to(rt, alloc, view, b"/n", None)?;
    has_text(rt, alloc, view, the_file(), b"between|behind it|two|")
}

#[test]
fn names_change(rt: HostRuntime) -> Result<(), Fail> {
    let mut view = View::new(rt.alloc())?;
    let seen = check_names(&rt, rt.alloc(), &mut view);
    drop(view);
    seen
}

// Adds what is listed in the root: the kind as `d` or `f`, the name and a stroke.
fn add_listed(all: &mut Text, rows: &DirRows, index: usize) -> Result<(), Fail> {
    if let Some(row) = rows.get(index) {
        all.append(match row.kind {
            Kind::Dir => b"d ",
            Kind::File => b"f ",
        })?;
        all.append(row.name.as_slice())?;
        all.append(b"|")?;
    }
    Ok(())
}

fn listed(alloc: Global, view: &View) -> Result<Text, Fail> {
    let rows = view.list(NodeRef::Old(NodeNo::new(0)))?;
    let mut all = Text::new(alloc);
    for index in 0..rows.len() {
        add_listed(&mut all, &rows, index)?;
    }
    Ok(all)
}

fn check_list(rt: &impl Abort, alloc: Global, view: &mut View) -> Result<(), Fail> {
    make(alloc, view, Kind::File, b"b")?;
    make(alloc, view, Kind::Dir, b"a")?;
    make(alloc, view, Kind::File, b"ab")?;
    make(alloc, view, Kind::File, b"B")?;
    make(alloc, view, Kind::File, "\u{e9}".as_bytes())?;
    let text = listed(alloc, view)?;
    assert!(rt; text.as_slice() == "f B|d a|f ab|f b|f \u{e9}|".as_bytes());
    Ok(())
}

#[test]
fn a_directory_is_listed(rt: HostRuntime) -> Result<(), Fail> {
    let mut view = View::new(rt.alloc())?;
    let seen = check_list(&rt, rt.alloc(), &mut view);
    drop(view);
    seen
}

// Adds a directory that a history has.
fn add_dir(alloc: Global, view: &mut View, node: u32, parent: u32, name: &[u8]) -> Result<(), Fail>
    requires { AreOld view.old.rows }
    ensures { OnOk result (AreOld view.new.rows) }
{
    let name = Name::read(alloc, name)?;
    if view.kind(NodeRef::Old(NodeNo::new(node))).is_some() {
        return Err(Fail::from("a node twice"));
    }
    view.add_row(NodeNo::new(node), Kind::Dir, NodeNo::new(parent), &name)?;
    Ok(())
}

fn has_fault(rt: &impl Abort, view: &View, fault: Option<Fault>) -> Result<(), Fail>
    requires { AreOld view.now.rows }
{
    let found = view.first_fault()?;
    assert!(rt; found == fault);
    Ok(())
}

fn check_faults(rt: &impl Abort, alloc: Global, view: &mut View) -> Result<(), Fail>
    requires { AreOld view.old.rows }
{
    has_fault(rt, view, None)?;
    add_dir(alloc, view, 4, 3, b"b")?;
    add_dir(alloc, view, 3, 4, b"b")?;
    let node = NodeNo::new(3);
    has_fault(rt, view, Some(Fault::Loop { node }))?;
    add_dir(alloc, view, 8, 9, b"x")?;
    let node = NodeNo::new(8);
    has_fault(rt, view, Some(Fault::Orphan { node }))?;
    add_dir(alloc, view, 5, 0, b"a")?;
    add_dir(alloc, view, 2, 0, b"a")?;
    let low = NodeNo::new(2);
    let high = NodeNo::new(5);
    has_fault(rt, view, Some(Fault::Clash { low, high }))
}

#[test]
fn faults_in_their_order(rt: HostRuntime) -> Result<(), Fail> {
    let mut view = View::new(rt.alloc())?;
    let seen = check_faults(&rt, rt.alloc(), &mut view);
    drop(view);
    seen
}
