// Commits whose edits have sides: how they are stored, and what is told of bytes that are no such commit.
use crate::tests::rows::check_words;
use crate::tests::running::{Case, NONE_FAILS, Stored, UNASKED, end_from};
use crate::tests::stores::{EMPTY, OPTION};
use std::test::Fail;

/// A file that is meant for the variants with an option.
const COMMITTED: Case = Case {
    words: &["run"],
    script: b"option a\nopen s a=on for true\nside s a\nmkfile s /x\ncommit s\n",
    replies: b"ok option 0\nok open 1 a=on\nok\nok\nok commit 2\n",
    rows: &[],
};

/// Asks for it in the variants with the option and without it.
const ASKED: Case = Case {
    words: &["run"],
    script: b"cat a=on /x\ncat a=off /x\n",
    replies: b"ok 0\nrefused no-such-path\n",
    rows: &[],
};

/// The store of both commands, as another program makes it.
const SIDED: Stored = Stored {
    whole: &OPTION,
    count: 52,
    behind: b"\x01\0\0\0\x1b\x06\0\0\0\x01\x01\x01\x01\0\0\0\x01\x02\0\0\0\0\x01\x01\0\0\0\0\0\0\x01x\xbd\x959]\x83c\x81'Rx\xd8%+\xd7\x96rl\xf7\x8c\xbd\xc5\xcf\xecta\xb3y\xa8\x8ck\x88\xe7\0",
};

/// Runs one after another, their statuses, and the disks before and after them.
const RUNS: [(Case, u8, Stored, Stored); 2] = [
    (COMMITTED, 0, EMPTY, SIDED),
    (ASKED, 1, SIDED, SIDED),
];

#[test]
fn sides_are_stored(rt: HostRuntime) -> Result<(), Fail> {
    for (case, code, before, after) in &RUNS {
        let end = end_from(rt.alloc(), case, NONE_FAILS, before, after)?;
        assert_eq!(rt; end, (case.end(*code), true));
    }
    Ok(())
}

/// A commit of three sides, of which two are the same on each choice but are spelt otherwise.
const ALIKE: Stored = Stored {
    whole: &OPTION,
    count: 52,
    behind: b"\x01\0\0\0;\x06\0\0\0\x01\x01\x01\x01\0\0\0\x03\x04\x02\0\x02\0\0\0\0\x01\x01\0\0\0\0\0\0\x01x\x02\0\0\0\0\x01\x01\0\0\0\0\0\0\x01y\x01\0\0\0\x01\x01\0\0\0\0\0\0\x01z\xbb\x99*\xa4\x0b0O\xdd\x85\xed\xa9\x0b[T\x0bh\xd0?\xbb\x9d\xf0\xcb\xb3\x03>\x81k:h,\x989\0",
};

#[test]
fn sides_that_are_spelt_otherwise_stand_apart(rt: HostRuntime) -> Result<(), Fail> {
    let case = Case {
        words: &["check"],
        script: b"",
        replies: b"ok 2 records\n",
        rows: &[],
    };
    let end = end_from(rt.alloc(), &case, UNASKED, &ALIKE, &ALIKE)?;
    assert_eq!(rt; end, (case.end(0), true));
    Ok(())
}

/// A side of 257 parts, which is one more than it may have.
const PARTS: [u8; 320] = [
    1, 0, 0, 1, 26, 6, 0, 0, 0, 1, 1, 1, 1, 0, 0, 0, 1, 3, 3, 3, 3, 3, 3, 3, 3, 3, 3, 3, 3, 3, 3,
    3, 3, 3, 3, 3, 3, 3, 3, 3, 3, 3, 3, 3, 3, 3, 3, 3, 3, 3, 3, 3, 3, 3, 3, 3, 3, 3, 3, 3, 3, 3, 3,
    3, 3, 3, 3, 3, 3, 3, 3, 3, 3, 3, 3, 3, 3, 3, 3, 3, 3, 3, 3, 3, 3, 3, 3, 3, 3, 3, 3, 3, 3, 3, 3,
    3, 3, 3, 3, 3, 3, 3, 3, 3, 3, 3, 3, 3, 3, 3, 3, 3, 3, 3, 3, 3, 3, 3, 3, 3, 3, 3, 3, 3, 3, 3, 3,
    3, 3, 3, 3, 3, 3, 3, 3, 3, 3, 3, 3, 3, 3, 3, 3, 3, 3, 3, 3, 3, 3, 3, 3, 3, 3, 3, 3, 3, 3, 3, 3,
    3, 3, 3, 3, 3, 3, 3, 3, 3, 3, 3, 3, 3, 3, 3, 3, 3, 3, 3, 3, 3, 3, 3, 3, 3, 3, 3, 3, 3, 3, 3, 3,
    3, 3, 3, 3, 3, 3, 3, 3, 3, 3, 3, 3, 3, 3, 3, 3, 3, 3, 3, 3, 3, 3, 3, 3, 3, 3, 3, 3, 3, 3, 3, 3,
    3, 3, 3, 3, 3, 3, 3, 3, 3, 3, 3, 3, 3, 3, 3, 3, 3, 3, 3, 3, 3, 3, 3, 3, 3, 3, 3, 3, 3, 3, 3, 3,
    3, 3, 3, 3, 3, 3, 3, 3, 3, 3, 3, 3, 3, 3, 3, 3, 3, 3, 1, 0, 0, 0, 1, 1, 0, 0, 0, 0, 0, 0, 1,
    120, 87, 11, 121, 15, 135, 230, 123, 228, 119, 214, 242, 153, 227, 180, 12, 247, 45, 120, 0,
    159, 202, 242, 223, 145, 55, 230, 114, 168, 106, 156, 90, 125, 0,
];

/// What stands behind the record of an option, and what is told of it.
const DISKS: [(&[u8], &[u8]); 15] = [
    // The third edit is the first whose side is false on the choice.
    (
        b"\x01\0\0\04\x06\0\0\0\x01\x01\x01\x01\0\0\0\x02\x02\0\0\0\0\x02\x01\0\0\0\0\0\0\x01x\x01\0\0\0\0\0\0\x01y\x03\x02\0\0\0\0\x01\x01\0\0\0\0\0\0\x01z\xc4\x91Sx\x9ao\"I\xcd\xaeBRP\x17\xbf,\xb3`\x90\xbb\x83@\xe0\xb8\x88\x8e\xa5\xc9\xed^D,\0",
        b"damaged 2 refused outside-side 2\n",
    ),
    // What comes before it, and what after it.
    (
        b"\x01\0\0\0\x1e\x06\0\0\0\x01\x01\x01\x03\x02\0\0\0\0\x01\x03\x02\0\0\0\0\x01\x01\0\0\0\0\0\0\x01x\xc0L\xd0\xab\x1ef~\xe7\xee`\x11\x92\x99y\x986\xcfK\xca\x88\xa8}N\xc2\x96\x83 @\xb3u\xb7\xf9\0",
        b"damaged 2 refused outside-ambition\n",
    ),
    (
        b"\x01\0\0\0\x1b\x06\0\0\0\x01\x01\x01\x01\0\0\0\x01\x02\x01\0\0\0\x01\x01\0\0\0\0\0\0\x01x\xdf\xb2\xbd;\xa3\xf6\x09w\x9f\x15aw\x08-W\xf34\xb0\x06\xca\x8f\xb6\xb5R\xef\xfc\xa9\x05b\x19\"\xc2\0",
        b"damaged 2 refused bad-option\n",
    ),
    // An option that is declared, but after the base.
    (
        b"\x01\0\0\0\x03\x01\x01b\x0e\xb44\xfd\xd5\xdf\x87\x03\xf6\xe4\xfeE\xc9n\x14/W\xf6PG,Y\x9a\xc7JX\xf9J\x80#\xe7\xf9\x01\0\0\0\x1b\x06\0\0\0\x01\x01\x01\x01\0\0\0\x01\x02\x01\0\0\0\x01\x01\0\0\0\0\0\0\x01xi\xf70\xd4xj\xa0\xc7\x1e\x13\x07$y5\x09\xb6\xefe\xf3\xf2\x12]\xf7\x9f\xc9\xed\x8d\x9caG\xe1\x1e\0",
        b"damaged 3 refused bad-option\n",
    ),
    (
        b"\x01\0\0\0(\x06\0\0\0\x01\x01\x01\x01\0\0\0\x02\x02\0\0\0\0\x01\x06\0\0\0\0\x09\x03\x02\0\0\0\0\x01\x01\0\0\0\0\0\0\x01x0\x9a\xcde\xba\xf4\x0fp\x9e\xb1\xa9\xfaY\xfe$\xe3\xd0h\x17\x1e\xfb_C\xe0lH\x15\x90\0\x0e\xf6\x06\0",
        b"damaged 2 refused outside-side 1\n",
    ),
    (
        b"\x01\0\0\0/\x06\0\0\0\x01\x01\x01\x01\0\0\0\x02\x02\0\0\0\0\x01\x01\0\0\0\0\0\0\x01x\x01\0\0\0\x02\x01\0\0\0\0\0\0\x01y\x06\0\0\0\0\x09-\xfdPs\xd5\xe3\xdab\x972\xe5\xaa[/p\xe1\xebr\x065\xc3\xb0\xa6\xf2\x9a\xf5\x9bR\x86<\x83\x12\0",
        b"damaged 2 refused bad-record 2\n",
    ),
    // No run, and runs without edits.
    (
        b"\x01\0\0\0\x0c\x06\0\0\0\x01\x01\x01\x01\0\0\0\0\x19\x92q\x10\xd5\xf0\xe6\x11/Y\xc7s~\xcb\x81S\x17=\x1a]\xf2\x17\xe3\x9f\xe5j\xc3up\xd0\xb7%\0",
        b"damaged 2 record\n",
    ),
    (
        b"\x01\0\0\0\x12\x06\0\0\0\x01\x01\x01\x01\0\0\0\x01\x02\0\0\0\0\09\x18\x9c\x1eNO\xde7\xe8\xac\xcd(&\xf07\xe1N\xec\x91\xfdp\xb5s\xb4D\xcf\xb0Y\xfaC\x9c$\0",
        b"damaged 2 record\n",
    ),
    (
        b"\x01\0\0\0 \x06\0\0\0\x01\x01\x01\x01\0\0\0\x02\x02\0\0\0\0\x01\x01\0\0\0\0\0\0\x01x\x01\0\0\0\0n\x0d\x80\xa7L?\xa0\xd8\xa6\x8fo\xe4\x95\x165\xdeY\xfa1i\xb8\xb6\xa1\xf7S\x05\xd8\xfc\xa4\x16e\xce\0",
        b"damaged 2 record\n",
    ),
    // Two neighbours of one side, and no side at all.
    (
        b"\x01\0\0\0*\x06\0\0\0\x01\x01\x01\x01\0\0\0\x02\x02\0\0\0\0\x01\x01\0\0\0\0\0\0\x01x\x02\0\0\0\0\x01\x01\0\0\0\0\0\0\x01ye\x06\xceo\xe4\xe7\xb2\x10\xbb\xe70\xcbNI\x12m]m)*\x85\n\x8a\xd3E\x0b\xce\xde\\\xf2\x04U\0",
        b"damaged 2 record\n",
    ),
    (
        b"\x01\0\0\0\x1a\x06\0\0\0\x01\x01\x01\x01\0\0\0\x01\x01\0\0\0\x01\x01\0\0\0\0\0\0\x01x\x02:\xcf\x0e|AhM\xd2k%HeV\x08!\xdc-\x1b\xdd\xca\x18\xd4\xec+\xeb\xab\x83\xf2\x0d.\xe6\0",
        b"damaged 2 record\n",
    ),
    // More runs and more edits than there are, and a byte more than these.
    (
        b"\x01\0\0\0\x1b\x06\0\0\0\x01\x01\x01\x01\xff\xff\xff\xff\x02\0\0\0\0\x01\x01\0\0\0\0\0\0\x01x\xb5\xb9\x0e\xc5@g\x07I\xb7IYP\xee\xa0\xb0y\x0f\xbe;\x9ed_\xfb\xf0u\x83\x05o\x90\x91\xc31\0",
        b"damaged 2 record\n",
    ),
    (
        b"\x01\0\0\0\x1b\x06\0\0\0\x01\x01\x01\x01\0\0\0\x01\x02\0\xff\xff\xff\xff\x01\0\0\0\0\0\0\x01x\xb5}Z\x87\x9e\xda\xc1\xb8\x04`\x1d\x0f\x9a\x8b\x8e\xbf)\xbf/\xed\x16g\x145\xc6\xdc\xcf\x85\xe4\xab\xbe\xa3\0",
        b"damaged 2 record\n",
    ),
    (
        b"\x01\0\0\0\x1c\x06\0\0\0\x01\x01\x01\x01\0\0\0\x01\x02\0\0\0\0\x01\x01\0\0\0\0\0\0\x01x\0\xd5\x11i\x9es\xea\xfar4\xe6\x91`\xa1\xab\xc681V\x9bG\xe2\x1b\xfe\x89\xf1\xe2\xd1[L\x12p\x0f\0",
        b"damaged 2 record\n",
    ),
    (&PARTS, b"damaged 2 record\n"),
];

#[test]
fn what_is_no_commit_of_sides_is_told_and_kept(rt: HostRuntime) -> Result<(), Fail> {
    for (behind, told) in &DISKS {
        let disk = Stored {
            whole: &OPTION,
            count: 52,
            behind,
        };
        check_words(&rt, rt.alloc(), &["run"], &disk, told)?;
        check_words(&rt, rt.alloc(), &["check"], &disk, told)?;
    }
    Ok(())
}
