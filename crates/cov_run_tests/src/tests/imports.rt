// Imports: what one adds, what a later run tells of it, and the refusals, which add nothing.
use crate::tests::running::{Case, NONE_FAILS, bytes_of, disk_of, end_over};
use crate::tests::stores::EMPTY;
use cov_base::Memory;
use cov_disk::MemoryDisk;
use std::alloc::Global;
use std::process::Abort;
use std::test::Fail;

const OPTION: Case = Case {
    words: &["run"],
    script: b"option d\n",
    replies: b"ok option 0\n",
    rows: &[],
};

const TAKEN: Case = Case {
    words: &["import", "/m"],
    script: b"A\n#if d\nB\n#else\n##b\n#endif\nC\n",
    replies: b"ok commit 2\nok commit 3\nok commit 4\n",
    rows: &[],
};

const TOLD: Case = Case {
    words: &["run"],
    script: b"cat d=on /m\ncat d=off /m\n",
    replies: b"ok 3\n1 A\n4 B\n2 C\nok 3\n1 A\n3 #b\n2 C\n",
    rows: &[],
};

const OPEN: Case = Case {
    words: &["import", "/n"],
    script: b"A\n#if d\nB\n#else\n##b\n",
    replies: b"refused syntax 6\n",
    rows: &[],
};

const UNKNOWN: Case = Case {
    words: &["import", "/n"],
    script: b"#if d & e\n#endif\n",
    replies: b"refused unknown-option e\n",
    rows: &[],
};

const AGAIN: Case = Case {
    words: &["import", "/m"],
    script: b"A",
    replies: b"refused name-taken\n",
    rows: &[],
};

const NOWHERE: Case = Case {
    words: &["import", "/x/n"],
    script: b"",
    replies: b"refused no-such-path\n",
    rows: &[],
};

const COUNTED: Case = Case {
    words: &["check"],
    script: b"",
    replies: b"ok 4 records\n",
    rows: &[],
};

/// Runs one after another on one disk, and their statuses.
const IN_TURN: [(Case, u8); 8] = [
    (OPTION, 0),
    (TAKEN, 0),
    (TOLD, 0),
    (OPEN, 1),
    (UNKNOWN, 1),
    (AGAIN, 1),
    (NOWHERE, 1),
    (COUNTED, 0),
];

fn check_in_turn(rt: &impl Abort, alloc: Global, disk: &mut MemoryDisk) -> Result<(), Memory> {
    for (case, code) in &IN_TURN {
        assert_eq!(rt; end_over(alloc, case, NONE_FAILS, disk)?, case.end(*code));
    }
    Ok(())
}

#[test]
fn a_text_is_imported(rt: HostRuntime) -> Result<(), Fail> {
    let mut disk = disk_of(rt.alloc(), bytes_of(rt.alloc(), &EMPTY)?, 0)?;
    let checked = check_in_turn(&rt, rt.alloc(), &mut disk);
    drop(disk);
    checked?;
    Ok(())
}
