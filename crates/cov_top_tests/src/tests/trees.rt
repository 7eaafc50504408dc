// Runs that write trees, with the rows that are written.
ghost use Rattle.std.specs.Prelude.{◌≤◌};

use crate::tests::running::{
    Case, DONE, SERVED, SERVED_BY_BYTES, SOME_REFUSED, Setting, Step, expect_over, list_of,
    replies_of, script_of,
};
use cov_base::Text;
use cov_out::{MemoryTrees, OutRow, OutRows};
use std::alloc::Global;
use std::process::Abort;
use std::test::Fail;

/// A row of trees: its path, and the bytes of a file.
pub(crate) type Row<'a> = (&'a [u8], Option<&'a [u8]>);

fn check_row(rt: &impl Abort, row: &OutRow, wanted: Row) {
    assert_eq!(rt; row.path.as_slice(), wanted.0);
    assert_eq!(rt; row.bytes.as_ref().map(Text::as_slice), wanted.1);
}

fn check_rows(rt: &impl Abort, rows: &OutRows, wanted: &[Row]) {
    for (row, wanted) in rows.as_slice().iter().zip(wanted) {
        check_row(rt, row, *wanted);
    }
    assert_eq!(rt; rows.len(), wanted.len());
}

// Runs the program over trees of which these calls fail, and compares what is written, the status and the rows.
pub(crate) fn expect_rows(
    rt: &impl Abort,
    alloc: Global,
    setting: Setting,
    fail: &[u64],
    case: Case,
    rows: &[Row],
) -> Result<(), Fail>
    requires { 1 ≤ setting.1 }
{
    let mut trees = MemoryTrees::new(alloc, list_of(alloc, fail)?);
    let expected = expect_over(rt, alloc, setting, case, &mut trees);
    check_rows(rt, trees.rows(), rows);
    drop(trees);
    expected
}

// Each digest is the SHA-256, by another program, of the bytes that are told with it; an empty tree has that of no bytes.

// A file for every variant. What is hashed is 66, 0000000000000001, 6d, 0000000000000008 and the bytes of the two lines.
const PLAIN: [Step; 11] = [
    (b"open s - for true", b"ok open 0 -"),
    (b"mkfile s /m", b"ok"),
    (b"insert s /m 0 one", b"ok +0"),
    (b"commit s", b"ok commit 1"),
    (b"open s - for true", b"ok open 1 -"),
    (b"insert s /m 1 two", b"ok +0"),
    (b"show s /m", b"ok 2\n1 one\n+0 two"),
    (b"commit s", b"ok commit 2"),
    (b"cat - /m", b"ok 2\n1 one\n2 two"),
    (b"where 1", b"ok 0 T"),
    (
        b"checkout t -",
        b"ok checkout t 0 1 fcaaf111a029839929979878379637db41b8c7896f279141476fd3b35c6532ed",
    ),
];

const PLAIN_ROWS: [Row; 2] = [(b"t", None), (b"t/m", Some(b"one\ntwo\n"))];

// An empty tree, and its name once more.
const TWICE: [Step; 2] = [
    (
        b"checkout t -",
        b"ok checkout t 0 0 e3b0c44298fc1c149afbf4c8996fb92427ae41e4649b934ca495991b7852b855",
    ),
    (b"checkout t -", b"refused tree-taken"),
];

const TWICE_ROWS: [Row; 1] = [(b"t", None)];

// A name is free until a checkout is accepted. What refuses a checkout comes in order: what the choice names, the name of the
// tree, what the rules say. What is hashed of the file is 66, 0000000000000001, 6d, 0000000000000004 and the bytes of its line.
const TAKEN: [Step; 32] = [
    (b"option a", b"ok option 0"),
    (b"option b", b"ok option 1"),
    (b"open s a=on,b=off for a", b"ok open 2 a=on,b=off"),
    (b"mkfile s /m", b"ok"),
    (b"insert s /m 0 one", b"ok +0"),
    (b"commit s", b"ok commit 3"),
    (b"checkout t a=on", b"refused incomplete b"),
    (
        b"checkout t a=on,b=off",
        b"ok checkout t 0 1 43186672ec1e8b2039e8fe184eed3db1d7156cc619f20d3e16391c91d95dec00",
    ),
    (b"checkout t a=on,b=off", b"refused tree-taken"),
    (b"checkout t a=on", b"refused tree-taken"),
    (b"checkout t a=on,b=off,a=on", b"refused repeated a"),
    (b"checkout t a=on,c=on,a=on", b"refused unknown-option c"),
    (b"checkout u a=on,b=off,a=on", b"refused repeated a"),
    (b"checkout u a=on,c=on,a=on", b"refused unknown-option c"),
    (b"constraint !b", b"ok constraint 1"),
    (b"checkout t b=on", b"refused tree-taken"),
    (b"checkout u b=on", b"refused invalid 1"),
    (b"checkout u -", b"refused incomplete a"),
    (b"default a off", b"ok default 1"),
    (
        b"checkout u -",
        b"ok checkout u 0 0 e3b0c44298fc1c149afbf4c8996fb92427ae41e4649b934ca495991b7852b855",
    ),
    (b"checkout u b=on", b"refused tree-taken"),
    (
        b"checkout T a=on",
        b"ok checkout T 0 1 43186672ec1e8b2039e8fe184eed3db1d7156cc619f20d3e16391c91d95dec00",
    ),
    (b"checkout . a=on", b"refused syntax 9"),
    (b"checkout .. a=on", b"refused syntax 9"),
    (b"checkout t/u a=on", b"refused syntax 9"),
    (b"checkout", b"refused syntax 8"),
    (b"checkout v", b"refused syntax 10"),
    (b"checkout v a=yes", b"refused syntax 11"),
    (b"checkout v a=on /m", b"refused syntax 15"),
    (b"commit t", b"refused no-session"),
    (b"open t a=on for true", b"ok open 5 a=on,b=off"),
    (b"drop t", b"ok"),
];

const TAKEN_ROWS: [Row; 5] = [
    (b"t", None),
    (b"t/m", Some(b"one\n")),
    (b"u", None),
    (b"T", None),
    (b"T/m", Some(b"one\n")),
];

// Names with unusual bytes, empty files, lines without text. Rows stand in the order of the bytes of their paths, in which a dot
// comes before a slash. Hashed are the rows in this order: 64 or 66, the length of the path below the tree in eight bytes, the
// path, and for a file the length of its bytes in eight bytes and these.
const UNUSUAL: [Step; 26] = [
    (
        b"checkout ..a -",
        b"ok checkout ..a 0 0 e3b0c44298fc1c149afbf4c8996fb92427ae41e4649b934ca495991b7852b855",
    ),
    (
        b"checkout \xc3\xa9 -",
        b"ok checkout \xc3\xa9 0 0 e3b0c44298fc1c149afbf4c8996fb92427ae41e4649b934ca495991b7852b855",
    ),
    (b"open s - for true", b"ok open 0 -"),
    (b"mkdir s /a", b"ok"),
    (b"mkfile s /a/b", b"ok"),
    (b"mkfile s /a.b", b"ok"),
    (b"mkfile s /a0", b"ok"),
    (b"mkfile s /a-", b"ok"),
    (b"mkdir s /-", b"ok"),
    (b"mkfile s /-/-", b"ok"),
    (b"mkfile s /.a", b"ok"),
    (b"mkdir s /..a", b"ok"),
    (b"mkfile s /...", b"ok"),
    (b"mkfile s /A", b"ok"),
    (b"mkdir s /\xc3\xa9", b"ok"),
    (b"mkfile s /\xc3\xa9/\xe6\x97\xa5\xe6\x9c\xac", b"ok"),
    (b"mkfile s /~", b"ok"),
    (b"mkfile s /\"\\", b"ok"),
    (b"insert s /a/b 0 behind a.b", b"ok +0"),
    (b"insert s /a.b 0 ", b"ok +1"),
    (b"insert s /- 0 x", b"refused not-file"),
    (b"insert s /.a 0  two  spaces ", b"ok +2"),
    (b"insert s /.a +2 \r", b"ok +3"),
    (
        b"list s /",
        b"ok 12\nf \"\\\nd -\nf ...\nd ..a\nf .a\nf A\nd a\nf a-\nf a.b\nf a0\nf ~\nd \xc3\xa9",
    ),
    (b"commit s", b"ok commit 1"),
    (
        b"checkout - -",
        b"ok checkout - 4 11 8cf7bc4dd613d0c32c74e5c72f88fa5c98a79e93839af58966c27c04168f29e7",
    ),
];

const UNUSUAL_ROWS: [Row; 18] = [
    (b"..a", None),
    (b"\xc3\xa9", None),
    (b"-", None),
    (b"-/\"\\", Some(b"")),
    (b"-/-", None),
    (b"-/-/-", Some(b"")),
    (b"-/...", Some(b"")),
    (b"-/..a", None),
    (b"-/.a", Some(b" two  spaces \n\r\n")),
    (b"-/A", Some(b"")),
    (b"-/a", None),
    (b"-/a-", Some(b"")),
    (b"-/a.b", Some(b"\n")),
    (b"-/a/b", Some(b"behind a.b\n")),
    (b"-/a0", Some(b"")),
    (b"-/~", Some(b"")),
    (b"-/\xc3\xa9", None),
    (b"-/\xc3\xa9/\xe6\x97\xa5\xe6\x9c\xac", Some(b"")),
];

// Two commits overlap in the variant that neither of their sessions shows, and a session that is open adds nothing to a tree.
// Hashed are the rows below each tree, as above.
const EDITED: [Step; 31] = [
    (b"option a", b"ok option 0"),
    (b"option b", b"ok option 1"),
    (b"checkout none -", b"refused incomplete a"),
    (
        b"checkout none a=off,b=off",
        b"ok checkout none 0 0 e3b0c44298fc1c149afbf4c8996fb92427ae41e4649b934ca495991b7852b855",
    ),
    (b"open s a=off,b=off for true", b"ok open 2 a=off,b=off"),
    (b"mkdir s /d", b"ok"),
    (b"mkfile s /d/m", b"ok"),
    (b"insert s /d/m 0 one", b"ok +0"),
    (b"insert s /d/m +0 two", b"ok +1"),
    (b"mkfile s /gone", b"ok"),
    (b"commit s", b"ok commit 3"),
    (b"open s a=on,b=off for a", b"ok open 3 a=on,b=off"),
    (b"rename s /d e", b"ok"),
    (b"replace s /e/m 1 uno", b"ok +0"),
    (b"move s /gone /e", b"ok"),
    (b"commit s", b"ok commit 4"),
    (b"open s a=off,b=on for b", b"ok open 4 a=off,b=on"),
    (b"insert s /d/m 1 of b", b"ok +0"),
    (b"remove s /gone", b"ok"),
    (b"mkdir s /f", b"ok"),
    (b"mkdir s /f/g", b"ok"),
    (b"insert s /d/m 0 of s", b"ok +1"),
    (b"commit s", b"ok commit 5"),
    (b"open s a=on,b=on for true", b"ok open 5 a=on,b=on"),
    (b"insert s /e/m 3 not yet", b"ok +0"),
    (b"mkfile s /notyet", b"ok"),
    (
        b"checkout off a=off,b=off",
        b"ok checkout off 1 2 4bfc215b2172c6665abdc689c1eb61f46d4dbf04a6500decfdf915ea381415ba",
    ),
    (
        b"checkout a a=on,b=off",
        b"ok checkout a 1 2 4d26c0e486a41efa6d17ddb47dd94868f273d29de46b58f364e708affaabb881",
    ),
    (
        b"checkout b a=off,b=on",
        b"ok checkout b 3 1 e32dff6e6d464b1fcbb9f6bc0b971e4fd69427218df746f979632c57d94bd5fa",
    ),
    (
        b"checkout both a=on,b=on",
        b"ok checkout both 3 1 3986d8399f8303d4f7ddd771a59072183b167833bc3484751b9ed1f06f6b124d",
    ),
    (b"drop s", b"ok"),
];

const EDITED_ROWS: [Row; 19] = [
    (b"none", None),
    (b"off", None),
    (b"off/d", None),
    (b"off/d/m", Some(b"one\ntwo\n")),
    (b"off/gone", Some(b"")),
    (b"a", None),
    (b"a/e", None),
    (b"a/e/gone", Some(b"")),
    (b"a/e/m", Some(b"uno\ntwo\n")),
    (b"b", None),
    (b"b/d", None),
    (b"b/d/m", Some(b"of s\none\nof b\ntwo\n")),
    (b"b/f", None),
    (b"b/f/g", None),
    (b"both", None),
    (b"both/e", None),
    (b"both/e/m", Some(b"of s\nof b\nuno\ntwo\n")),
    (b"both/f", None),
    (b"both/f/g", None),
];

// A line of bytes that are no text. What is hashed is 66, 0000000000000001, 6d, 0000000000000006 and the bytes of the line.
const BYTES: [Step; 5] = [
    (b"open s - for true", b"ok open 0 -"),
    (b"mkfile s /m", b"ok"),
    (b"insert s /m 0 \xff\xfe\0 \r", b"ok +0"),
    (b"commit s", b"ok commit 1"),
    (
        b"checkout t -",
        b"ok checkout t 0 1 0a80a3c505e8b4e18bc2b529fae53a433e3b6852aaab3241bb7c03568c8dcea0",
    ),
];

const BYTES_ROWS: [Row; 2] = [(b"t", None), (b"t/m", Some(b"\xff\xfe\0 \r\n"))];

// Trees of the past, by the rules of then. A name that one of them used is taken for those of now, and the other way round; it is told
// before a position that isn't there.
const THEN: [Step; 37] = [
    (b"option d", b"ok option 0"),
    (b"open s d=on for true", b"ok open 1 d=on"),
    (b"mkfile s /m", b"ok"),
    (b"insert s /m 0 A", b"ok +0"),
    (b"commit s", b"ok commit 2"),
    (b"open s d=on for d", b"ok open 2 d=on"),
    (b"insert s /m 1 B", b"ok +0"),
    (b"commit s", b"ok commit 3"),
    (b"open s d=on for true", b"ok open 3 d=on"),
    (b"insert s /m 2 C", b"ok +0"),
    (b"mkdir s /dir", b"ok"),
    (b"commit s", b"ok commit 4"),
    (b"constraint d", b"ok constraint 1"),
    (
        b"pastout t 3 d=off",
        b"ok checkout t 0 1 2fde98247cc46a322ceb910731b602b91c21603f61e4ea53676cc76e0e1fb2de",
    ),
    (b"pastout t 9 -", b"refused tree-taken"),
    (b"pastout u 9 -", b"refused no-such-position"),
    (b"pastout u 0 d=on", b"refused late-option d"),
    (b"pastout u 3 -", b"refused incomplete d"),
    (b"pastout u 5 d=off", b"refused invalid 1"),
    (b"pastout u 3 e=on,d=on,d=on", b"refused unknown-option e"),
    (b"pastout u 3 d=on,d=on", b"refused repeated d"),
    (b"checkout t -", b"refused tree-taken"),
    (b"checkout t e=on", b"refused unknown-option e"),
    (
        b"checkout now d=on",
        b"ok checkout now 1 1 b676cfcb2908ea997846890d01b3f6a3acb20191c6610a4185bb68c7e6ae9bd6",
    ),
    (b"pastout now 3 d=on", b"refused tree-taken"),
    (
        b"pastout u 4 d=off",
        b"ok checkout u 1 1 3de5df17758d731db01496594c22a92bc2a0d0e4464ce788c85a0ee725a8f84c",
    ),
    (
        b"pastout v 0 -",
        b"ok checkout v 0 0 e3b0c44298fc1c149afbf4c8996fb92427ae41e4649b934ca495991b7852b855",
    ),
    (
        b"pastout w 5 d=on",
        b"ok checkout w 1 1 b676cfcb2908ea997846890d01b3f6a3acb20191c6610a4185bb68c7e6ae9bd6",
    ),
    (b"checkout u d=off", b"refused tree-taken"),
    (b"pastout", b"refused syntax 7"),
    (b"pastout t", b"refused syntax 9"),
    (b"pastout t 3", b"refused syntax 11"),
    (b"pastout t/ 3 -", b"refused syntax 8"),
    (b"pastout x -", b"refused syntax 10"),
    (b"pastout x 03 -", b"refused syntax 10"),
    (b"pastout x 3 /m", b"refused syntax 12"),
    (b"pastout x 3 - x", b"refused syntax 13"),
];

const THEN_ROWS: [Row; 12] = [
    (b"t", None),
    (b"t/m", Some(b"A\n")),
    (b"now", None),
    (b"now/dir", None),
    (b"now/m", Some(b"A\nB\nC\n")),
    (b"u", None),
    (b"u/dir", None),
    (b"u/m", Some(b"A\nC\n")),
    (b"v", None),
    (b"w", None),
    (b"w/dir", None),
    (b"w/m", Some(b"A\nB\nC\n")),
];

// Steps, the status of a run on them, and the rows that it writes.
const CASES: [(&[Step], u8, &[Row]); 7] = [
    (&PLAIN, DONE, &PLAIN_ROWS),
    (&TWICE, SOME_REFUSED, &TWICE_ROWS),
    (&TAKEN, SOME_REFUSED, &TAKEN_ROWS),
    (&UNUSUAL, SOME_REFUSED, &UNUSUAL_ROWS),
    (&EDITED, SOME_REFUSED, &EDITED_ROWS),
    (&BYTES, DONE, &BYTES_ROWS),
    (&THEN, SOME_REFUSED, &THEN_ROWS),
];

// Runs the program on these steps.
fn check_steps(
    rt: &impl Abort,
    alloc: Global,
    setting: Setting,
    case: (&[Step], u8, &[Row]),
) -> Result<(), Fail>
    requires { 1 ≤ setting.1 }
{
    let (steps, status, rows) = case;
    let script = script_of(alloc, &[steps])?;
    let written = replies_of(alloc, &[steps])?;
    let case = (script.as_slice(), written.as_slice(), status);
    expect_rows(rt, alloc, setting, &[], case, rows)
}

#[test]
fn trees_are_written(rt: HostRuntime) -> Result<(), Fail> {
    for case in &CASES {
        check_steps(&rt, rt.alloc(), SERVED, *case)?;
    }
    Ok(())
}

// A read gives one byte.
#[test]
fn trees_are_written_byte_by_byte(rt: HostRuntime) -> Result<(), Fail> {
    let case: (&[Step], u8, &[Row]) = (&PLAIN, DONE, &PLAIN_ROWS);
    check_steps(&rt, rt.alloc(), SERVED_BY_BYTES, case)
}
