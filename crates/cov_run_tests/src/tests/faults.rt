// Devices that fail at each of their calls.
use crate::tests::crashes::commits_in;
use crate::tests::plain::PLAIN;
use crate::tests::running::{
    Device, End, Fails, NONE_FAILS, Stored, bytes_of, disk_of, end_over, failing,
};
use crate::tests::stores::{BOTH, FIRST, NEW};
use cov_base::{Memory, Text};
use std::alloc::Global;
use std::process::Abort;
use std::test::Fail;

/// Which call fails, the status, how many bytes of replies and how many rows are written, what is on the disk, and how many commits are
/// told of it then. A read gives 64 bytes of the 142 of the script.
type Fault = (Device, u64, u8, usize, usize, &'static Stored, usize);

const FAULTS: [Fault; 17] = [
    (Device::Sink, 1, 5, 0, 0, &NEW, 0),
    (Device::Sink, 2, 5, 12, 0, &NEW, 0),
    (Device::Sink, 3, 5, 15, 0, &NEW, 0),
    (Device::Sink, 4, 5, 21, 0, &FIRST, 1),
    (Device::Sink, 5, 5, 33, 0, &FIRST, 1),
    (Device::Sink, 6, 5, 45, 0, &FIRST, 1),
    (Device::Sink, 7, 5, 51, 0, &FIRST, 1),
    (Device::Sink, 8, 5, 69, 0, &BOTH, 2),
    (Device::Sink, 9, 5, 81, 0, &BOTH, 2),
    (Device::Sink, 10, 5, 98, 0, &BOTH, 2),
    (Device::Sink, 11, 5, 105, 2, &BOTH, 2),
    (Device::Source, 1, 4, 0, 0, &NEW, 0),
    (Device::Source, 2, 4, 33, 0, &FIRST, 1),
    (Device::Source, 3, 4, 98, 0, &BOTH, 2),
    (Device::Source, 4, 4, 188, 2, &BOTH, 2),
    (Device::Trees, 1, 7, 105, 0, &BOTH, 2),
    (Device::Trees, 2, 7, 105, 1, &BOTH, 2),
];

// The end with this status and so many bytes and rows.
fn end_with(code: u8, written: usize, rows: usize) -> End {
    End {
        code,
        written: Some(written),
        rows: Some(rows),
    }
}

// Runs the plain script over an empty disk, for how it ends and what is on the disk then.
fn image_after(alloc: Global, fails: Fails) -> Result<(End, Text), Memory> {
    let mut disk = disk_of(alloc, Text::new(alloc), fails.disk)?;
    let end = end_over(alloc, &PLAIN, fails, &mut disk);
    let image = Text::from_slice(alloc, disk.bytes());
    drop(disk);
    Ok((end?, image?))
}

// How such a run ends, whether these bytes are on the disk then, and how many commits are told of it.
fn left_after(
    alloc: Global,
    fails: Fails,
    after: &Stored,
) -> Result<(End, bool, Option<usize>), Memory> {
    let after = bytes_of(alloc, after)?;
    let (end, image) = image_after(alloc, fails)?;
    let same = image.as_slice() == after.as_slice();
    Ok((end, same, commits_in(alloc, image)?))
}

fn check_fault(rt: &impl Abort, alloc: Global, fault: &Fault) -> Result<(), Memory> {
    let (device, call, code, written, rows, after, commits) = *fault;
    let left = left_after(alloc, failing(device, call), after)?;
    let wanted = (end_with(code, written, rows), true, Some(commits));
    assert_eq!(rt; left, wanted);
    Ok(())
}

#[test]
fn the_first_failing_call_ends_the_run(rt: HostRuntime) -> Result<(), Fail> {
    for fault in &FAULTS {
        check_fault(&rt, rt.alloc(), fault)?;
    }
    Ok(())
}

// How a run ends where this call of the disk fails, and how many commits are told of the disk then.
fn stopped(alloc: Global, call: u64) -> Result<(End, Option<usize>), Memory> {
    let (end, image) = image_after(alloc, failing(Device::Disk, call))?;
    Ok((end, commits_in(alloc, image)?))
}

// How many calls of the disk are made before a reply.
fn calls_before(alloc: Global) -> Result<u64, Memory> {
    for call in 1..100 {
        if stopped(alloc, call)?.0.written != Some(0) {
            return Ok(call);
        }
    }
    Ok(0)
}

/// The four calls of each commit, before whose reply they are made, and none behind them: the status, how many bytes and rows are
/// written, and how many commits are told then. The last call is a sync; what it is to make last was written.
const STOPS: [(u8, usize, usize, usize); 9] = [
    (6, 21, 0, 0),
    (6, 21, 0, 0),
    (6, 21, 0, 0),
    (6, 21, 0, 1),
    (6, 69, 0, 1),
    (6, 69, 0, 1),
    (6, 69, 0, 1),
    (6, 69, 0, 2),
    (0, 188, 2, 2),
];

fn check_stop(
    rt: &impl Abort,
    alloc: Global,
    call: u64,
    wanted: (End, Option<usize>),
) -> Result<(), Memory> {
    assert_eq!(rt; stopped(alloc, call)?, wanted);
    Ok(())
}

fn check_stops(rt: &impl Abort, alloc: Global) -> Result<(), Memory> {
    let mut call = calls_before(alloc)?;
    for opening in 1..call {
        check_stop(rt, alloc, opening, (end_with(6, 0, 0), Some(0)))?;
    }
    for (code, written, rows, commits) in &STOPS {
        let wanted = (end_with(*code, *written, *rows), Some(*commits));
        check_stop(rt, alloc, call, wanted)?;
        call = call.saturating_add(1);
    }
    Ok(())
}

#[test]
fn no_reply_comes_before_its_record(rt: HostRuntime) -> Result<(), Fail> {
    check_stops(&rt, rt.alloc())?;
    Ok(())
}
