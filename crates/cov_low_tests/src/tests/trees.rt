//! A variant as a tree of paths, and its digest.
use super::texts::one_row;
use cov_base::{Kind, Name, NodeNo, NodeRef, Text};
use cov_view::{TreeRow, TreeRows, View, digest, dirs_in, files_in};
use std::alloc::Global;
use std::process::Abort;
use std::test::Fail;

// Nodes by their numbers: the kind, the number of the directory and the name.
const NODES: [(u32, Kind, u32, &str); 8] = [
    (1, Kind::File, 4, "b"),
    (2, Kind::File, 0, "a.b"),
    (3, Kind::Dir, 4, "empty"),
    (4, Kind::Dir, 0, "a"),
    (5, Kind::File, 6, "z\u{e4}hler"),
    (6, Kind::Dir, 0, "\u{fc}ber"),
    (7, Kind::File, 0, ".profile"),
    (8, Kind::File, 0, "a-b"),
];

// Lines: the number, the file and the text.
const LINES: [(u32, u32, &str); 5] = [
    (1, 1, "one"),
    (2, 7, ""),
    (3, 1, "two"),
    (4, 5, "Gr\u{fc}\u{df}e"),
    (5, 2, "dot"),
];

// The rows of their tree: the kind as `d` or `f`, the path, a stroke, the bytes and a stroke.
const ROWS: &str =
    "f.profile|\n|da||fa-b||fa.b|dot\n|fa/b|one\ntwo\n|da/empty||d\u{fc}ber||f\u{fc}ber/z\u{e4}hler|Gr\u{fc}\u{df}e\n|";

// Their digest and that of no row, as Python's hashlib gives them of the bytes that are stated for a tree.
const DIGEST: [u8; 32] = [
    0xc1, 0xc3, 0xe3, 0xae, 0x91, 0x5d, 0x0b, 0x7c, 0x2a, 0x76, 0x52, 0xf8, 0x3c, 0xcd, 0xad, 0xaf,
    0xdd, 0xff, 0xb3, 0x03, 0xb2, 0xc4, 0x19, 0xb5, 0xe9, 0xf8, 0x6e, 0x28, 0x21, 0x96, 0xb7, 0x9a,
];

const EMPTY_DIGEST: [u8; 32] = [
    0xe3, 0xb0, 0xc4, 0x42, 0x98, 0xfc, 0x1c, 0x14, 0x9a, 0xfb, 0xf4, 0xc8, 0x99, 0x6f, 0xb9, 0x24,
    0x27, 0xae, 0x41, 0xe4, 0x64, 0x9b, 0x93, 0x4c, 0xa4, 0x95, 0x99, 0x1b, 0x78, 0x52, 0xb8, 0x55,
];

fn add_node(
    alloc: Global,
    view: &mut View,
    node: u32,
    kind: Kind,
    parent: u32,
    name: &str,
) -> Result<(), Fail> {
    let name = Name::read(alloc, name.as_bytes())?;
    if view.kind(NodeRef::Old(NodeNo::new(node))).is_some() {
        return Err(Fail::from("a node twice"));
    }
    Ok(view.add_row(NodeNo::new(node), kind, NodeNo::new(parent), &name)?)
}

fn add_line(alloc: Global, view: &mut View, line: u32, file: u32, text: &str) -> Result<(), Fail> {
    let rows = one_row(alloc, line, text.as_bytes())?;
    match view.kind(NodeRef::Old(NodeNo::new(file))) {
        Some(Kind::File) => Ok(view.add_lines(NodeNo::new(file), &rows)?),
        Some(Kind::Dir) | None => Err(Fail::from("no file")),
    }
}

fn fill(alloc: Global, view: &mut View) -> Result<(), Fail> {
    for (node, kind, parent, name) in NODES {
        add_node(alloc, view, node, kind, parent, name)?;
    }
    for (line, file, text) in LINES {
        add_line(alloc, view, line, file, text)?;
    }
    Ok(())
}

fn add_row(all: &mut Text, row: &TreeRow) -> Result<(), Fail> {
    all.append(match row.kind {
        Kind::Dir => b"d",
        Kind::File => b"f",
    })?;
    all.append(row.path.as_slice())?;
    all.append(b"|")?;
    all.append(row.bytes.as_slice())?;
    Ok(all.append(b"|")?)
}

fn check_rows(rt: &impl Abort, alloc: Global, rows: &TreeRows) -> Result<(), Fail> {
    let mut all = Text::new(alloc);
    for row in rows.as_slice() {
        add_row(&mut all, row)?;
    }
    assert!(rt; all.as_slice() == ROWS.as_bytes());
    assert!(rt; dirs_in(rows) == 3);
    assert!(rt; files_in(rows) == 5);
    assert!(rt; digest(rows) == DIGEST);
    Ok(())
}

fn check_tree(rt: &impl Abort, alloc: Global, view: &mut View) -> Result<(), Fail> {
    fill(alloc, view)?;
    let rows = view.tree()?;
    let seen = check_rows(rt, alloc, &rows);
    drop(rows);
    seen
}

#[test]
fn a_tree_in_byte_order(rt: HostRuntime) -> Result<(), Fail> {
    let mut view = View::new(rt.alloc())?;
    let seen = check_tree(&rt, rt.alloc(), &mut view);
    drop(view);
    seen
}

#[test]
fn an_empty_tree(rt: HostRuntime) -> Result<(), Fail> {
    let rows = TreeRows::new(rt.alloc());
    assert!(rt; digest(&rows) == EMPTY_DIGEST);
    Ok(())
}
