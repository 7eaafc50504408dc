// Upgrades: how one is stored, what a store that has one takes, and what is told of bytes that are no upgrade or a second one.
use crate::tests::rows::check_words;
use crate::tests::running::{Case, NONE_FAILS, Stored, bytes_of, disk_of, end_from, end_over};
use crate::tests::stores::{EMPTY, OPTION};
use cov_base::Memory;
use cov_disk::MemoryDisk;
use std::alloc::Global;
use std::process::Abort;
use std::test::Fail;

/// The store of an upgrade alone, as another program makes it.
const UPGRADE: [u8; 51] = [
    67, 79, 86, 83, 84, 79, 82, 69, 0, 0, 0, 1, 1, 0, 0, 0, 1, 7, 54, 202, 52, 66, 25, 215, 57,
    217, 113, 221, 190, 64, 70, 6, 93, 204, 149, 197, 148, 161, 96, 175, 164, 184, 226, 35, 198,
    180, 250, 182, 252, 99, 0,
];

const UPGRADED: Stored = Stored {
    whole: &UPGRADE,
    count: 51,
    behind: b"",
};

/// The same with `option a` behind the upgrade.
const DECLARED: Stored = Stored {
    whole: &UPGRADE,
    count: 50,
    behind: b"\x01\0\0\0\x03\x01\x01a#\x9ag\xf1\xc6%7\xca\xbfJ-e\x02\xad\xee@\x99\xa5\xec\x09\x8c\x89\xb9\xaf\x96\xd1\x80\xfe\xc8\xf2\xfd\x82\0",
};

const FIRST: Case = Case {
    words: &["run"],
    script: b"upgrade\n",
    replies: b"ok upgrade 2\n",
    rows: &[],
};

const SECOND: Case = Case {
    words: &["run"],
    script: b"upgrade\noption a\n",
    replies: b"refused upgraded\nok option 0\n",
    rows: &[],
};

const COUNTED: Case = Case {
    words: &["check"],
    script: b"",
    replies: b"ok 2 records\n",
    rows: &[],
};

/// Runs one after another, their statuses, and the disks before and after them.
const RUNS: [(Case, u8, Stored, Stored); 3] = [
    (FIRST, 0, EMPTY, UPGRADED),
    (SECOND, 1, UPGRADED, DECLARED),
    (COUNTED, 0, DECLARED, DECLARED),
];

#[test]
fn an_upgrade_is_stored(rt: HostRuntime) -> Result<(), Fail> {
    for (case, code, before, after) in &RUNS {
        let end = end_from(rt.alloc(), case, NONE_FAILS, before, after)?;
        assert_eq!(rt; end, (case.end(*code), true));
    }
    Ok(())
}

/// One option more than a store without an upgrade takes.
const OPTIONS: Case = Case {
    words: &["run"],
    script: b"option o0\noption o1\noption o2\noption o3\noption o4\noption o5\noption o6\noption o7\noption o8\noption o9\noption o10\noption o11\noption o12\noption o13\noption o14\noption o15\noption o16\noption o17\noption o18\noption o19\noption o20\noption o21\noption o22\noption o23\noption o24\noption o25\noption o26\noption o27\noption o28\noption o29\noption o30\noption o31\noption o32\noption o33\noption o34\noption o35\noption o36\noption o37\noption o38\noption o39\noption o40\noption o41\noption o42\noption o43\noption o44\noption o45\noption o46\noption o47\noption o48\noption o49\noption o50\noption o51\noption o52\noption o53\noption o54\noption o55\noption o56\noption o57\noption o58\noption o59\noption o60\noption o61\noption o62\noption o63\noption o64\n",
    replies: b"ok option 0\nok option 1\nok option 2\nok option 3\nok option 4\nok option 5\nok option 6\nok option 7\nok option 8\nok option 9\nok option 10\nok option 11\nok option 12\nok option 13\nok option 14\nok option 15\nok option 16\nok option 17\nok option 18\nok option 19\nok option 20\nok option 21\nok option 22\nok option 23\nok option 24\nok option 25\nok option 26\nok option 27\nok option 28\nok option 29\nok option 30\nok option 31\nok option 32\nok option 33\nok option 34\nok option 35\nok option 36\nok option 37\nok option 38\nok option 39\nok option 40\nok option 41\nok option 42\nok option 43\nok option 44\nok option 45\nok option 46\nok option 47\nok option 48\nok option 49\nok option 50\nok option 51\nok option 52\nok option 53\nok option 54\nok option 55\nok option 56\nok option 57\nok option 58\nok option 59\nok option 60\nok option 61\nok option 62\nok option 63\nok option 64\n",
    rows: &[],
};

/// What a later run takes on it.
const LATER: Case = Case {
    words: &["run"],
    script: b"option o64\noption o65\nconstraint o64\nupgrade\n",
    replies: b"refused exists\nok option 65\nok constraint 1\nrefused upgraded\n",
    rows: &[],
};

const ALL_COUNTED: Case = Case {
    words: &["check"],
    script: b"",
    replies: b"ok 68 records\n",
    rows: &[],
};

/// Runs one after another on one disk, and their statuses.
const IN_TURN: [(Case, u8); 3] = [(OPTIONS, 0), (LATER, 1), (ALL_COUNTED, 0)];

fn check_in_turn(rt: &impl Abort, alloc: Global, disk: &mut MemoryDisk) -> Result<(), Memory> {
    for (case, code) in &IN_TURN {
        assert_eq!(rt; end_over(alloc, case, NONE_FAILS, disk)?, case.end(*code));
    }
    Ok(())
}

#[test]
fn a_store_with_an_upgrade_takes_more(rt: HostRuntime) -> Result<(), Fail> {
    let mut disk = disk_of(rt.alloc(), bytes_of(rt.alloc(), &UPGRADED)?, 0)?;
    let checked = check_in_turn(&rt, rt.alloc(), &mut disk);
    drop(disk);
    checked?;
    Ok(())
}

/// So many bytes of the store of an option, what stands behind them, and what is told.
const DISKS: [(usize, &[u8], &[u8]); 6] = [
    // Two upgrades, alone, behind an option, and with one between them.
    (
        12,
        b"\x01\0\0\0\x01\x076\xca4B\x19\xd79\xd9q\xdd\xbe@F\x06]\xcc\x95\xc5\x94\xa1`\xaf\xa4\xb8\xe2#\xc6\xb4\xfa\xb6\xfcc\x01\0\0\0\x01\x07;-\xf9\x09)\xe5\xc3\x8e6\x92\x1b\x9c\xf92MX\xb9>f\xd3\xad\xd6\xa8{X\x1cAW6\xe0\x06\x9d\0",
        b"damaged 2 refused upgraded\n",
    ),
    (
        52,
        b"\x01\0\0\0\x01\x07\xec\xbd\xa5\x0cv\xfe\xf8\x12/\xc2\x0d\xf2\xe6\xd8\xbc{+\x86\xceD\x8b\xd2\x09\xf5\x0fK\x0e\x830;\xa3\xdb\x01\0\0\0\x01\x07~\xcd@t+\xe4\".\xec\xa8e\xda\xc7/\x1f\x8f\x88\x8f\x88\x18\xab\xb8\x83J\xea?IB\xd4W3\x84\0",
        b"damaged 3 refused upgraded\n",
    ),
    (
        12,
        b"\x01\0\0\0\x01\x076\xca4B\x19\xd79\xd9q\xdd\xbe@F\x06]\xcc\x95\xc5\x94\xa1`\xaf\xa4\xb8\xe2#\xc6\xb4\xfa\xb6\xfcc\x01\0\0\0\x03\x01\x01a#\x9ag\xf1\xc6%7\xca\xbfJ-e\x02\xad\xee@\x99\xa5\xec\x09\x8c\x89\xb9\xaf\x96\xd1\x80\xfe\xc8\xf2\xfd\x82\x01\0\0\0\x01\x073~u\x9c\x131O\xcc\x06\xd1O\xb8>\x1a\xc4\x01\x80\x94\x98\xa1\xe5\xad\x1d\xf6F\xd5V\x9d\x9a\xc3\x93N\0",
        b"damaged 3 refused upgraded\n",
    ),
    // One with a byte behind it.
    (
        12,
        b"\x01\0\0\0\x02\x07\0\x12\x8f\x11\xda,K\xb4m\x02rNF\x05\xf1w\xac\xb24)\x94i\xa0\xed\x08\xebb\x8e:\xe0\xe0\xe8\x98\0",
        b"damaged 1 record\n",
    ),
    (
        12,
        b"\x01\0\0\0\x02\x07\x07\xd6t\xa2\xd0Q$\xbf?\xf43\xad\x92\x1d\xa9$\xec$\xd4r\x83;\x0b\xef\x11A\x1fa\x82r\xf7K)\0",
        b"damaged 1 record\n",
    ),
    // A byte that begins no record.
    (
        12,
        b"\x01\0\0\0\x01\x08k\x14}m\xe4\xe6;\xbe1\xec\xdd\x88\xf0d\xb8c\xdb\xe8m\xe0b\xa8&/\xca6\xefy\x93\x85\x1a\x05\0",
        b"damaged 1 record\n",
    ),
];

#[test]
fn what_is_no_upgrade_is_told_and_kept(rt: HostRuntime) -> Result<(), Fail> {
    for (count, behind, told) in &DISKS {
        let disk = Stored {
            whole: &OPTION,
            count: *count,
            behind,
        };
        check_words(&rt, rt.alloc(), &["run"], &disk, told)?;
        check_words(&rt, rt.alloc(), &["check"], &disk, told)?;
    }
    Ok(())
}
