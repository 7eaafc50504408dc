// Words of no form, and devices that fail.
use crate::tests::running::{Case, READ_FAULT, USAGE, WRITE_FAULT, expect};
use std::test::Fail;

#[test]
fn other_words_are_told_the_words(rt: HostRuntime) -> Result<(), Fail> {
    let others: [&[&str]; 7] = [
        &[],
        &["run", "x"],
        &["demo", "07"],
        &["demo", "-1"],
        &["--help"],
        &["--version"],
        &["Run"],
    ];
    for words in others {
        let case: Case = (
            b"option a\n",
            b"usage: covstore run | check | demo N | import PATH | replica LINE\n",
            USAGE,
        );
        expect(&rt, rt.alloc(), (words, 1, &[1], &[]), case)?;
    }
    expect(
        &rt,
        rt.alloc(),
        (&[], 1, &[], &[1]),
        (b"", b"", WRITE_FAULT),
    )
}

#[test]
fn the_first_failing_call_ends_the_run(rt: HostRuntime) -> Result<(), Fail> {
    let alloc = rt.alloc();
    let script: &[u8] = b"option a\noption b\n";
    let first: &[u8] = b"ok option 0\n";
    expect(
        &rt,
        alloc,
        (&["run"], 64, &[], &[2]),
        (script, first, WRITE_FAULT),
    )?;
    expect(
        &rt,
        alloc,
        (&["run"], 64, &[1], &[]),
        (script, b"", READ_FAULT),
    )?;
    expect(
        &rt,
        alloc,
        (&["run"], 9, &[2], &[]),
        (script, first, READ_FAULT),
    )
}
