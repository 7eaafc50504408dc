//! Commands that are applied to a store in memory, and a disk that stops at each of its calls.
ghost use Rattle.cov_store.specs.Stands.{gate_of};
ghost use Rattle.std.specs.Prelude.{◌<◌, length};

use crate::tests::images::ONE;
use crate::tests::opening::{Answer, close, opened};
use cov_base::{Memory, Numbers, OptionName, Text};
use cov_disk::{MemoryDisk, Pick};
use cov_edit::Command;
use cov_engine::{Receipt, Refusal};
use cov_store::{ApplyFault, Store};
use std::alloc::Global;
use std::process::Abort;
use std::test::Fail;

fn close_fault(_: ApplyFault) {}

/// The disk with one record, of which the calls after so many fail.
fn disk(alloc: Global, fuse: Option<u64>) -> Result<MemoryDisk, Memory> {
    let bytes = Text::from_slice(alloc, ONE.as_slice())?;
    Ok(MemoryDisk::new(alloc, bytes, Numbers::new(alloc), fuse))
}

/// Whether an option was declared.
fn declare(alloc: Global, store: Store, disk: &mut MemoryDisk, name: &[u8]) -> bool
    requires gate { gate_of store.history < length disk.old.kept.content }
{
    let Ok(name) = OptionName::read(alloc, name) else {
        close(store);
        return false;
    };
    is_done(store.apply(disk, Command::Option { name }))
}

fn is_done(done: Result<(Store, Receipt), ApplyFault>) -> bool {
    match done {
        Ok((store, _receipt)) => {
            close(store);
            true
        }
        Err(fault) => {
            close_fault(fault);
            false
        }
    }
}

/// Opens a disk as a store and declares an option.
fn grow(alloc: Global, disk: &mut MemoryDisk, name: &[u8]) -> bool {
    match Store::open(alloc, disk) {
        Ok(store) => declare(alloc, store, disk, name),
        Err(_fault) => false,
    }
}

/// Whether b was declared before the disk stopped, and what the image then comes to.
fn left(alloc: Global, calls: u64, pick: Pick) -> Result<(bool, Answer), Memory> {
    let mut disk = disk(alloc, Some(calls))?;
    let done = grow(alloc, &mut disk, b"b".as_slice());
    let image = disk.crash(alloc, pick)?;
    Ok((done, opened(alloc, image)))
}

fn check_left(rt: &impl Abort, alloc: Global, calls: u64, pick: Pick) -> Result<(), Memory> {
    let (done, answer) = left(alloc, calls, pick)?;
    assert!(rt; answer == Answer::Opened(2) || (!done && answer == Answer::Opened(1)));
    Ok(())
}

fn check_stops(rt: &impl Abort, alloc: Global) -> Result<(), Memory> {
    for calls in 0..20 {
        check_left(rt, alloc, calls, Pick::Old)?;
        check_left(rt, alloc, calls, Pick::New)?;
        for seed in 0..20 {
            check_left(rt, alloc, calls, Pick::Torn { seed })?;
        }
    }
    assert_eq!(rt; left(alloc, 20, Pick::Old)?, (true, Answer::Opened(2)));
    Ok(())
}

#[test]
fn a_command_is_stored_or_not(rt: HostRuntime) -> Result<(), Fail> {
    check_stops(&rt, rt.alloc())?;
    Ok(())
}

/// Takes a store apart, puts it together, and says how many commands it has.
fn count(store: Store) -> u32 {
    let (engine, journal) = store.into_parts();
    let store = Store::from_parts(engine, journal);
    let count = store.engine().position().number();
    close(store);
    count
}

/// How many commands the store has that a refusal hands back, where an option exists.
fn count_existing(done: Result<(Store, Receipt), ApplyFault>) -> Option<u32> {
    match done {
        Err(ApplyFault::Refused(store, Refusal::Exists)) => Some(count(store)),
        Err(_fault) => None,
        Ok((_store, _receipt)) => None,
    }
}

fn declare_again(alloc: Global, disk: &mut MemoryDisk) -> Option<u32> {
    let Ok(name) = OptionName::read(alloc, b"a".as_slice()) else {
        return None;
    };
    match Store::open(alloc, disk) {
        Ok(store) => count_existing(store.apply(disk, Command::Option { name })),
        Err(_fault) => None,
    }
}

fn check_refused(rt: &impl Abort, alloc: Global, disk: &mut MemoryDisk) {
    assert_eq!(rt; declare_again(alloc, disk), Some(1));
    assert_eq!(rt; disk.bytes(), ONE.as_slice());
}

#[test]
fn a_refusal_leaves_the_disk(rt: HostRuntime) -> Result<(), Fail> {
    let mut disk = disk(rt.alloc(), None)?;
    check_refused(&rt, rt.alloc(), &mut disk);
    drop(disk);
    Ok(())
}
