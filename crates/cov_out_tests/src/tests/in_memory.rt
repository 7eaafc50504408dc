//! Rows of trees in memory, with a call that fails amid them.
use cov_base::{Numbers, Text};
use cov_out::{MemoryTrees, OutRow, Trees};
use std::process::Abort;
use std::test::Fail;

fn write_four(rt: &impl Abort, trees: &mut MemoryTrees) {
    assert!(rt; trees.make_dir(b"t").is_ok());
    assert!(rt; trees.put_file(b"t/main", b"one\n").is_err());
    assert!(rt; trees.put_file(b"t/empty", b"").is_ok());
    assert!(rt; trees.put_file(b"t/main", b"one\ntwo\n").is_ok());
    assert_eq!(rt; trees.starved(), 0);
}

fn bytes_of(row: &OutRow) -> Option<&[u8]> {
    row.bytes.as_ref().map(Text::as_slice)
}

fn check_row(rt: &impl Abort, row: Option<&OutRow>, path: &[u8], bytes: Option<&[u8]>) {
    match row {
        Some(row) => {
            assert_eq!(rt; row.path.as_slice(), path);
            assert_eq!(rt; bytes_of(row), bytes);
        }
        None => panic!(rt; "a row is missing"),
    }
}

fn check_three(rt: &impl Abort, trees: &MemoryTrees) {
    let rows = trees.rows();
    assert_eq!(rt; rows.len(), 3);
    check_row(rt, rows.get(0), b"t", None);
    check_row(rt, rows.get(1), b"t/empty", Some(b""));
    check_row(rt, rows.get(2), b"t/main", Some(b"one\ntwo\n"));
}

#[test]
fn a_call_fails_amid_rows(rt: HostRuntime) -> Result<(), Fail> {
    let mut fail = Numbers::new(rt.alloc());
    fail.push(2)?;
    let mut trees = MemoryTrees::new(rt.alloc(), fail);
    write_four(&rt, &mut trees);
    check_three(&rt, &trees);
    drop(trees);
    Ok(())
}
