// The plain script: two commits, and what is asked of them.
use crate::tests::running::{Case, NONE_FAILS, Row, Stored, UNASKED, end_from};
use crate::tests::stores::{BOTH, EMPTY, FIRST, NEW};
use std::test::Fail;

pub(crate) const ROWS: [Row; 2] = [(b"t", None), (b"t/m", Some(b"one\ntwo\n"))];

/// The digest is the SHA-256, by another program, of 66, 0000000000000001, 6d, 0000000000000008 and the bytes of the two lines.
pub(crate) const PLAIN: Case = Case {
    words: &["run"],
    script: b"open s - for true\nmkfile s /m\ninsert s /m 0 one\ncommit s\nopen s - for true\ninsert s /m 1 two\nshow s /m\ncommit s\ncat - /m\nwhere 1\ncheckout t -\n",
    replies: b"ok open 0 -\nok\nok +0\nok commit 1\nok open 1 -\nok +0\nok 2\n1 one\n+0 two\nok commit 2\nok 2\n1 one\n2 two\nok 0 T\nok checkout t 0 1 fcaaf111a029839929979878379637db41b8c7896f279141476fd3b35c6532ed\n",
    rows: &ROWS,
};

// The same in two runs.
const BEGINNING: Case = Case {
    words: &["run"],
    script: b"open s - for true\nmkfile s /m\ninsert s /m 0 one\ncommit s\n",
    replies: b"ok open 0 -\nok\nok +0\nok commit 1\n",
    rows: &[],
};

const REST: Case = Case {
    words: &["run"],
    script: b"open s - for true\ninsert s /m 1 two\nshow s /m\ncommit s\ncat - /m\nwhere 1\ncheckout t -\n",
    replies: b"ok open 1 -\nok +0\nok 2\n1 one\n+0 two\nok commit 2\nok 2\n1 one\n2 two\nok 0 T\nok checkout t 0 1 fcaaf111a029839929979878379637db41b8c7896f279141476fd3b35c6532ed\n",
    rows: &ROWS,
};

/// Asks for the file of the plain script's commits.
pub(crate) const ASKED: Case = Case {
    words: &["run"],
    script: b"cat - /m",
    replies: b"ok 2\n1 one\n2 two\n",
    rows: &[],
};

// No line.
const SILENT: Case = Case {
    words: &["run"],
    script: b"",
    replies: b"",
    rows: &[],
};

/// Runs one after another from each of these disks, and what is then on them.
const RUNS: [(Case, Stored, Stored); 6] = [
    (SILENT, EMPTY, NEW),
    (SILENT, NEW, NEW),
    (PLAIN, EMPTY, BOTH),
    (BEGINNING, EMPTY, FIRST),
    (REST, FIRST, BOTH),
    (ASKED, BOTH, BOTH),
];

#[test]
fn what_is_committed_stays(rt: HostRuntime) -> Result<(), Fail> {
    for (case, before, after) in &RUNS {
        let end = end_from(rt.alloc(), case, NONE_FAILS, before, after)?;
        assert_eq!(rt; end, (case.end(0), true));
    }
    Ok(())
}

/// What `check` tells of a disk, and what is then on it.
const CHECKS: [(&[u8], Stored, Stored); 4] = [
    (b"ok 0 records\n", EMPTY, NEW),
    (b"ok 0 records\n", NEW, NEW),
    (b"ok 1 records\n", FIRST, FIRST),
    (b"ok 2 records\n", BOTH, BOTH),
];

#[test]
fn a_check_counts_records(rt: HostRuntime) -> Result<(), Fail> {
    for (replies, before, after) in &CHECKS {
        let case = Case {
            words: &["check"],
            script: b"",
            replies,
            rows: &[],
        };
        let end = end_from(rt.alloc(), &case, UNASKED, before, after)?;
        assert_eq!(rt; end, (case.end(0), true));
    }
    Ok(())
}
