// Each device of a run that fails once, at each of its calls.
use crate::tests::running::{
    READ_FAULT, SERVED_BY_BYTES, SOME_REFUSED, Step, TREES_FAULT, WRITE_FAULT, replies_of,
    script_of,
};
use crate::tests::trees::{Row, expect_rows};
use std::alloc::Global;
use std::process::Abort;
use std::test::Fail;

// What is hashed of the first tree is 64, 0000000000000001, 64; 66, 0000000000000003, 642f6d, 0000000000000004 and the bytes of the
// line; 64, 0000000000000001, 65; 66, 0000000000000001, 6e, 0000000000000000.
const STEPS: [Step; 14] = [
    (b"option a", b"ok option 0"),
    (b"open s a=on for a", b"ok open 1 a=on"),
    (b"mkdir s /d", b"ok"),
    (b"mkfile s /d/m", b"ok"),
    (b"insert s /d/m 0 one", b"ok +0"),
    (b"mkdir s /e", b"ok"),
    (b"mkfile s /n", b"ok"),
    (b"commit s", b"ok commit 2"),
    (
        b"checkout t a=on",
        b"ok checkout t 2 2 a6f4193beb908fa4fd160f25cc13e63dbb30ae278fc27341c7c75ae5b635e64d",
    ),
    (b"checkout t a=on", b"refused tree-taken"),
    (
        b"checkout u a=off",
        b"ok checkout u 0 0 e3b0c44298fc1c149afbf4c8996fb92427ae41e4649b934ca495991b7852b855",
    ),
    (b"checkout v -", b"refused incomplete a"),
    (b"alt a=on a /d/m", b"ok 1\n+ 1 one"),
    (b"where 1", b"ok 1 0\n0 a F T"),
];

// How many rows are written before each of these replies.
const ROWS_BEFORE: [usize; 14] = [0, 0, 0, 0, 0, 0, 0, 0, 5, 5, 6, 6, 6, 6];

const ROWS: [Row; 6] = [
    (b"t", None),
    (b"t/d", None),
    (b"t/d/m", Some(b"one\n")),
    (b"t/e", None),
    (b"t/n", Some(b"")),
    (b"u", None),
];

/// The calls of the source that fail, those of the sink, and those of the trees.
type Failing<'a> = (&'a [u64], &'a [u64], &'a [u64]);

// Runs the program over these devices; some first replies and rows are written then.
fn check_front(
    rt: &impl Abort,
    alloc: Global,
    failing: Failing,
    front: (usize, usize),
    status: u8,
) -> Result<(), Fail> {
    let (reads, puts, calls) = failing;
    let (replies, rows) = front;
    let script = script_of(alloc, &[&STEPS])?;
    let written = replies_of(alloc, &[STEPS.get(..replies).unwrap_or(&STEPS)])?;
    let case = (script.as_slice(), written.as_slice(), status);
    let rows = ROWS.get(..rows).unwrap_or(&ROWS);
    expect_rows(rt, alloc, (&["run"], 1, reads, puts), calls, case, rows)
}

// Each read takes one byte; a line is served once its last byte was read.
#[test]
fn a_read_fails(rt: HostRuntime) -> Result<(), Fail> {
    let alloc = rt.alloc();
    let mut call = 0u64;
    let mut rows = 0;
    for (replies, (step, rows_before)) in STEPS.iter().zip(&ROWS_BEFORE).enumerate() {
        for _ in 0..=step.0.len() {
            call = call.saturating_add(1);
            check_front(&rt, alloc, (&[call], &[], &[]), (replies, rows), READ_FAULT)?;
        }
        rows = *rows_before;
    }
    call = call.saturating_add(1);
    let whole = (STEPS.len(), ROWS.len());
    check_front(&rt, alloc, (&[call], &[], &[]), whole, READ_FAULT)?;
    call = call.saturating_add(1);
    check_front(&rt, alloc, (&[call], &[], &[]), whole, SOME_REFUSED)
}

// The rows of a checkout stand where its reply can't be written.
#[test]
fn a_put_fails(rt: HostRuntime) -> Result<(), Fail> {
    let alloc = rt.alloc();
    let mut call = 0u64;
    for (replies, rows) in ROWS_BEFORE.iter().enumerate() {
        call = call.saturating_add(1);
        check_front(
            &rt,
            alloc,
            (&[], &[call], &[]),
            (replies, *rows),
            WRITE_FAULT,
        )?;
    }
    Ok(())
}

// The rows before the one that fails stand, and the reply of their checkout isn't written.
#[test]
fn a_call_of_the_trees_fails(rt: HostRuntime) -> Result<(), Fail> {
    let alloc = rt.alloc();
    let mut call = 0u64;
    for rows in 0..ROWS.len() {
        call = call.saturating_add(1);
        let replies = ROWS_BEFORE.iter().filter(|before| **before <= rows).count();
        check_front(
            &rt,
            alloc,
            (&[], &[], &[call]),
            (replies, rows),
            TREES_FAULT,
        )?;
    }
    let first: (&[u8], &[u8], u8) = (b"checkout t -\n", b"", TREES_FAULT);
    expect_rows(&rt, alloc, SERVED_BY_BYTES, &[1], first, &[])
}
