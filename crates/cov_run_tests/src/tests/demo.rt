// The script that a number stands for, and the store that it leaves.
use crate::tests::running::{Case, Fails, NONE_FAILS, UNASKED, status};
use cov_base::{Memory, Numbers, Text};
use cov_disk::MemoryDisk;
use cov_io::MemorySink;
use cov_out::MemoryTrees;
use std::alloc::Global;
use std::process::Abort;
use std::test::Fail;

/// The source fails at its first call.
const UNREAD: Fails = Fails {
    source: 1,
    sink: 0,
    disk: 0,
    trees: 0,
};

/// What the checkouts are replied, of the script of 7.
pub(crate) const TOLD: &[u8] =
    b"ok checkout t0 8 64 ab2060f1a14ddc43f88a437280129362d146fe9675232433e31bbccbc45cf3f8\n\
ok checkout t1 8 64 0c8cf35a5f78932545a6064f74111e5822d7817646461347346b8119fc392a66\n\
ok checkout t2 8 64 1071af4190549b92e1c8f241c6a32a1a5cf1d60d93fc0faa85f47d1309c12b96\n\
ok checkout t3 8 64 ad52445590cc1bfbf090a287518ad5f46349d30c88442fff5c1026855a2c7332\n\
ok checkout t4 8 64 0cf8dbdc95ff48238e520c039440c38f79cdea22c44070a59eb62bff32b97fcc\n\
ok checkout t5 8 64 2712bf1f6f0d4ac3548393d4172d53906127a5203e2452cd75aaef42424da80c\n\
ok checkout t6 8 64 d8514da67e71ebfafbaeb697b6b0c076986bc17f65e739d448c6c4d0691ac4e1\n\
ok checkout t7 8 64 446d51b4398107246c8d8d5bfcff65d4d1e06da3bdd9b1e36413388c059c8df5\n";

/// The line behind them.
const LAST: &[u8] = b"ok demo 7\n";

/// The checkouts, as a script.
const CHECKOUTS: &[u8] =
    b"checkout t0 -\ncheckout t1 o13=on\ncheckout t2 o20=on\ncheckout t3 o27=on\n\
checkout t4 o34=on\ncheckout t5 o41=on\ncheckout t6 o48=on\ncheckout t7 o55=on\n";

const DEMO: Case = Case {
    words: &["demo", "7"],
    script: b"option a\n",
    replies: TOLD,
    rows: &[],
};

const AGAIN: Case = Case {
    words: &["run"],
    script: CHECKOUTS,
    replies: TOLD,
    rows: &[],
};

const COUNTED: Case = Case {
    words: &["check"],
    script: b"option a\n",
    replies: b"ok 532 records\n",
    rows: &[],
};

// Runs the program over a disk, for its status, the number of rows, and whether these are the bytes that it writes: the replies of the
// case, and others behind them.
fn ends(
    alloc: Global,
    case: &Case,
    behind: &[u8],
    fails: Fails,
    disk: &mut MemoryDisk,
) -> Result<(u8, usize, bool), Memory> {
    let mut sink = MemorySink::new(alloc, Numbers::new(alloc));
    let mut trees = MemoryTrees::new(alloc, Numbers::new(alloc));
    let code = status(alloc, case, fails, &mut sink, disk, &mut trees);
    let same = sink.written().strip_prefix(case.replies) == Some(behind);
    let rows = trees.rows().len();
    drop(sink);
    drop(trees);
    Ok((code?, rows, same))
}

/// Serves the script of 7 over a disk.
pub(crate) fn make_store(alloc: Global, disk: &mut MemoryDisk) -> Result<(), Memory> {
    ends(alloc, &DEMO, LAST, UNREAD, disk)?;
    Ok(())
}

// The store that the script leaves is whole, and its checkouts give the same trees again.
fn all_end(rt: &impl Abort, alloc: Global, disk: &mut MemoryDisk) -> Result<(), Memory> {
    let told = ends(alloc, &DEMO, LAST, UNREAD, disk)?;
    assert_eq!(rt; told, (0, 584, true));
    let counted = ends(alloc, &COUNTED, b"", UNASKED, disk)?;
    assert_eq!(rt; counted, (0, 0, true));
    let again = ends(alloc, &AGAIN, b"", NONE_FAILS, disk)?;
    assert_eq!(rt; again, (0, 584, true));
    Ok(())
}

#[test]
fn the_checkouts_are_told(rt: HostRuntime) -> Result<(), Fail> {
    let alloc = rt.alloc();
    let mut disk = MemoryDisk::new(alloc, Text::new(alloc), Numbers::new(alloc), None);
    let ended = all_end(&rt, alloc, &mut disk);
    drop(disk);
    ended?;
    Ok(())
}
