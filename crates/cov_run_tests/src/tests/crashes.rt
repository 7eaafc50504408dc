// A run of the plain script that stops at each call of its disk, and what a crash then leaves.
use crate::tests::plain::{ASKED, PLAIN};
use crate::tests::running::{End, NONE_FAILS, end_over, status};
use cov_base::{Memory, Numbers, Text};
use cov_disk::{MemoryDisk, Pick};
use cov_io::MemorySink;
use cov_out::MemoryTrees;
use std::alloc::Global;
use std::ops::Range;
use std::process::Abort;
use std::test::Fail;

/// How many bytes of replies there are up to the end of each `ok commit`.
const ACKNOWLEDGED: [usize; 2] = [33, 81];

/// What is told of the file after no commit, after one, and after both.
const TOLD: [(u8, &[u8]); 3] = [
    (1, b"refused no-such-path\n"),
    (0, b"ok 1\n1 one\n"),
    (0, b"ok 2\n1 one\n2 two\n"),
];

fn disk(alloc: Global, bytes: Text, calls: Option<u64>) -> MemoryDisk {
    MemoryDisk::new(alloc, bytes, Numbers::new(alloc), calls)
}

// After how many commits this is told, with this status.
fn commits_told(code: u8, written: &[u8]) -> Option<usize> {
    TOLD.iter()
        .position(|told| told.0 == code && told.1 == written)
}

fn asked(
    alloc: Global,
    disk: &mut MemoryDisk,
    trees: &mut MemoryTrees,
) -> Result<Option<usize>, Memory> {
    let mut sink = MemorySink::new(alloc, Numbers::new(alloc));
    let code = status(alloc, &ASKED, NONE_FAILS, &mut sink, disk, trees);
    let commits = commits_told(code?, sink.written());
    drop(sink);
    Ok(commits)
}

/// How many commits of the plain script an image holds.
pub(crate) fn commits_in(alloc: Global, image: Text) -> Result<Option<usize>, Memory> {
    let mut trees = MemoryTrees::new(alloc, Numbers::new(alloc));
    let mut disk = disk(alloc, image, None);
    let commits = asked(alloc, &mut disk, &mut trees);
    drop(disk);
    drop(trees);
    commits
}

// How many commits were acknowledged.
fn acknowledged(end: End) -> usize {
    match end.written {
        Some(written) => ACKNOWLEDGED
            .iter()
            .filter(|whole| **whole <= written)
            .count(),
        None => 3,
    }
}

// Runs the plain script over a disk that serves so many calls.
fn image_left(alloc: Global, calls: u64, pick: Pick) -> Result<(End, Text), Memory> {
    let mut disk = disk(alloc, Text::new(alloc), Some(calls));
    let end = end_over(alloc, &PLAIN, NONE_FAILS, &mut disk);
    let image = disk.crash(alloc, pick);
    Ok((end?, image?))
}

/// How a run ends, how many commits it acknowledges, and how many are left.
#[derive(Clone, Copy)]
struct Outcome {
    code: u8,
    acknowledged: usize,
    commits: Option<usize>,
}

fn left(alloc: Global, calls: u64, pick: Pick) -> Result<Outcome, Memory> {
    let (end, image) = image_left(alloc, calls, pick)?;
    Ok(Outcome {
        code: end.code,
        acknowledged: acknowledged(end),
        commits: commits_in(alloc, image)?,
    })
}

impl Outcome {
    // Each commit that was acknowledged is left; all are where the run ends well, and else the disk failed.
    fn is_good(&self) -> bool {
        match self.commits {
            Some(commits) => {
                self.acknowledged <= commits && (self.code == 6 || (self.code == 0 && commits == 2))
            }
            None => false,
        }
    }
}

// How many calls the whole run makes of its disk.
fn all_calls(alloc: Global) -> Result<u64, Memory> {
    for calls in 0..100 {
        if left(alloc, calls, Pick::Old)?.code == 0 {
            return Ok(calls);
        }
    }
    Ok(0)
}

fn check_picks(rt: &impl Abort, alloc: Global, calls: u64) -> Result<(), Memory> {
    assert!(rt; left(alloc, calls, Pick::Old)?.is_good());
    assert!(rt; left(alloc, calls, Pick::New)?.is_good());
    Ok(())
}

#[test]
fn a_crash_keeps_what_was_acknowledged(rt: HostRuntime) -> Result<(), Fail> {
    let all = all_calls(rt.alloc())?;
    assert!(rt; 8 < all);
    for calls in 0..=all {
        check_picks(&rt, rt.alloc(), calls)?;
    }
    Ok(())
}

// What the seeds tear, each at each call of the disk.
fn check_torn(rt: &impl Abort, alloc: Global, seeds: Range<u64>) -> Result<(), Memory> {
    let all = all_calls(alloc)?;
    for seed in seeds {
        for calls in 0..=all {
            assert!(rt; left(alloc, calls, Pick::Torn { seed })?.is_good());
        }
    }
    Ok(())
}

// A hundred seeds, in four tests that end soon.

#[test]
fn torn_writes_keep_it_for_the_first_seeds(rt: HostRuntime) -> Result<(), Fail> {
    check_torn(&rt, rt.alloc(), 0..25)?;
    Ok(())
}

#[test]
fn torn_writes_keep_it_for_the_next_seeds(rt: HostRuntime) -> Result<(), Fail> {
    check_torn(&rt, rt.alloc(), 25..50)?;
    Ok(())
}

#[test]
fn torn_writes_keep_it_for_more_seeds(rt: HostRuntime) -> Result<(), Fail> {
    check_torn(&rt, rt.alloc(), 50..75)?;
    Ok(())
}

#[test]
fn torn_writes_keep_it_for_the_last_seeds(rt: HostRuntime) -> Result<(), Fail> {
    check_torn(&rt, rt.alloc(), 75..100)?;
    Ok(())
}
