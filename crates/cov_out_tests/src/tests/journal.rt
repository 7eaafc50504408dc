//! A journal over a disk in memory: an append that stops at each of its calls, and what is read of an image.
ghost use Rattle.std.specs.Prelude.{◌<◌, ◌^◌, length};

use cov_base::{Memory, Numbers, Text};
use cov_disk::{MemoryDisk, Pick};
use cov_journal::{Damage, Journal, Next, OpenFault, ReadRecordFault, Reader};
use std::alloc::Global;
use std::process::Abort;
use std::test::Fail;

const FIRST: [u8; 3] = [1, 1, 97];

const SECOND: [u8; 3] = *b"two";

/// The header, the first record and a closed gate; the digest was computed elsewhere.
const ONE: [u8; 53] = [
    67, 79, 86, 83, 84, 79, 82, 69, 0, 0, 0, 1, 1, 0, 0, 0, 3, 1, 1, 97, 147, 247, 53, 91, 227,
    241, 213, 211, 196, 216, 235, 143, 164, 23, 174, 210, 3, 103, 5, 49, 151, 206, 175, 224, 125,
    41, 13, 220, 179, 241, 251, 221, 0,
];

fn disk(alloc: Global, bytes: Text, fuse: Option<u64>) -> MemoryDisk {
    MemoryDisk::new(alloc, bytes, Numbers::new(alloc), fuse)
}

fn put(mut journal: Journal, disk: &mut MemoryDisk, payload: [u8; 3]) -> bool
    requires near { journal.at < 2 ^ 60 }
    requires gate { journal.at < length disk.old.kept.content }
{
    journal.reserve(3).is_ok() && journal.append(disk, payload.as_slice()).is_ok()
}

/// Opens a disk of one record at most, and appends one.
fn append(alloc: Global, disk: &mut MemoryDisk, payload: [u8; 3]) -> bool {
    let Ok(reader) = Reader::open(alloc, disk) else {
        return false;
    };
    match reader.next(disk) {
        Ok(Next::End(journal)) => put(journal, disk, payload),
        Ok(Next::Record(reader, _first)) => match reader.next(disk) {
            Ok(Next::End(journal)) => put(journal, disk, payload),
            Ok(Next::Record(_reader, _second)) => false,
            Err(_fault) => false,
        },
        Err(_fault) => false,
    }
}

/// How many records a disk holds, of the two; None where it can't be read, or has others.
fn held(alloc: Global, disk: &mut MemoryDisk) -> Option<u8> {
    let Ok(reader) = Reader::open(alloc, disk) else {
        return None;
    };
    match reader.next(disk) {
        Ok(Next::End(_journal)) => Some(0),
        Ok(Next::Record(reader, first)) => {
            if first.as_slice() != FIRST.as_slice() {
                return None;
            }
            match reader.next(disk) {
                Ok(Next::End(_journal)) => Some(1),
                Ok(Next::Record(_reader, second)) => is_second(second).then_some(2),
                Err(_fault) => None,
            }
        }
        Err(_fault) => None,
    }
}

fn is_second(payload: Text) -> bool {
    payload.as_slice() == SECOND.as_slice()
}

fn held_by(alloc: Global, image: Text) -> Option<u8> {
    let mut disk = disk(alloc, image, None);
    let held = held(alloc, &mut disk);
    drop(disk);
    held
}

/// An append that may stop: the bytes before it, how many calls come before its own, and what it appends.
#[derive(Drop)]
struct Stop {
    bytes: &'static [u8],
    calls: u64,
    payload: [u8; 3],
}

/// How many records an image holds after the append's first calls.
fn left(alloc: Global, stop: &Stop, calls: u64, pick: Pick) -> Result<Option<u8>, Memory> {
    let bytes = Text::from_slice(alloc, stop.bytes)?;
    let mut disk = disk(alloc, bytes, Some(stop.calls.saturating_add(calls)));
    let done = append(alloc, &mut disk, stop.payload);
    let image = disk.crash(alloc, pick)?;
    if done != (calls == 4) {
        return Ok(None);
    }
    Ok(held_by(alloc, image))
}

/// Stops an append after each of its calls: it is there or not, the old end whole before the gate is written, the new one after.
fn check_stops(
    rt: &impl Abort,
    alloc: Global,
    stop: &Stop,
    before: u8,
    after: u8,
) -> Result<(), Memory> {
    for calls in 0..5 {
        let old = left(alloc, stop, calls, Pick::Old)?;
        let new = left(alloc, stop, calls, Pick::New)?;
        assert_eq!(rt; old, Some(if calls < 4 { before } else { after }));
        assert_eq!(rt; new, Some(if calls < 3 { before } else { after }));
        for seed in 0..20 {
            let torn = left(alloc, stop, calls, Pick::Torn { seed })?;
            assert!(rt; (torn == Some(before) && calls < 4) || (torn == Some(after) && calls > 1));
        }
    }
    Ok(())
}

#[test]
fn an_append_is_there_or_not(rt: HostRuntime) -> Result<(), Fail> {
    let first = Stop {
        bytes: &[],
        calls: 6,
        payload: FIRST,
    };
    let second = Stop {
        bytes: &ONE,
        calls: 8,
        payload: SECOND,
    };
    check_stops(&rt, rt.alloc(), &first, 0, 1)?;
    check_stops(&rt, rt.alloc(), &second, 1, 2)?;
    Ok(())
}

fn check_one_record(rt: &impl Abort, alloc: Global, disk: &mut MemoryDisk) {
    assert!(rt; append(alloc, disk, FIRST));
    assert_eq!(rt; disk.bytes(), ONE.as_slice());
}

#[test]
fn a_record_has_its_bytes(rt: HostRuntime) -> Result<(), Fail> {
    let mut disk = disk(rt.alloc(), Text::new(rt.alloc()), None);
    check_one_record(&rt, rt.alloc(), &mut disk);
    drop(disk);
    Ok(())
}

/// What stands at an image's first gate.
#[derive(Clone, Copy, Debug, PartialEq)]
enum Found {
    Record,
    End,
    Damaged(u32, Damage),
    NotAStore,
    Other,
}

fn first_of(alloc: Global, disk: &mut MemoryDisk) -> Found {
    let reader = match Reader::open(alloc, disk) {
        Ok(reader) => reader,
        Err(OpenFault::NotAStore) => return Found::NotAStore,
        Err(_fault) => return Found::Other,
    };
    match reader.next(disk) {
        Ok(Next::End(_journal)) => Found::End,
        Ok(Next::Record(_reader, _payload)) => Found::Record,
        Err(ReadRecordFault::Damaged { number, cause }) => Found::Damaged(number, cause),
        Err(_fault) => Found::Other,
    }
}

/// The first bytes of the store with one record, with one of them changed where that is among them.
fn first_in(alloc: Global, count: usize, changed: usize, byte: u8) -> Result<Found, Memory> {
    let mut bytes = ONE;
    if let Some(place) = bytes.get_mut(changed) {
        *place = byte;
    }
    let text = match bytes.get(..count) {
        Some(first) => Text::from_slice(alloc, first)?,
        None => Text::new(alloc),
    };
    let mut disk = disk(alloc, text, None);
    let found = first_of(alloc, &mut disk);
    drop(disk);
    Ok(found)
}

/// How many bytes there are, which one is changed to what, and what stands at the first gate then. Byte 99 is none of them.
const ROWS: [(usize, usize, u8, Found); 12] = [
    (53, 99, 0, Found::Record),
    (0, 99, 0, Found::End),
    (13, 99, 0, Found::End),
    (13, 0, 0, Found::End),
    (14, 99, 0, Found::Damaged(1, Damage::Cut)),
    (16, 99, 0, Found::Damaged(1, Damage::Cut)),
    (17, 99, 0, Found::Damaged(1, Damage::Cut)),
    (52, 99, 0, Found::Damaged(1, Damage::Cut)),
    (53, 13, 255, Found::Damaged(1, Damage::Cut)),
    (53, 51, 0, Found::Damaged(1, Damage::Digest)),
    (53, 12, 7, Found::End),
    (53, 11, 2, Found::NotAStore),
];

#[test]
fn an_image_is_what_its_gates_tell(rt: HostRuntime) -> Result<(), Fail> {
    for row in &ROWS {
        assert_eq!(rt; first_in(rt.alloc(), row.0, row.1, row.2)?, row.3);
    }
    Ok(())
}
