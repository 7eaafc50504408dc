//! What images come to where they are opened as stores.
use crate::tests::images::{BEHIND, CHANGES, CUTS, Change, ROWS, TEN, many_edits};
use cov_base::{Memory, Numbers, Text};
use cov_disk::MemoryDisk;
use cov_engine::Refusal;
use cov_store::{Store, StoreDamage, StoreFault};
use std::alloc::Global;
use std::process::Abort;
use std::test::Fail;

/// The refusals of these tests.
#[derive(Clone, Copy, Debug, PartialEq)]
pub(crate) enum Rule {
    Upgraded,
    BadOption,
    BadBase,
    TooManyEdits,
    Invalid(u32),
    OutsideAmbition,
    OutsideSide(u32),
    Empty,
    BadRecord(u32),
    Other,
}

/// What an image comes to: how many commands it has, or which record is damaged by what.
#[derive(Clone, Copy, Debug, PartialEq)]
pub(crate) enum Answer {
    Opened(u32),
    NotAStore,
    Cut(u32),
    Digest(u32),
    NotARecord(u32),
    Refused(u32, Rule),
    Stopped,
}

/// Drops a store, here alone.
pub(crate) fn close(_: Store) {}

fn close_fault(_: StoreFault) {}

/// The rule that a refusal names.
pub(crate) fn rule_of(refusal: &Refusal) -> Rule {
    match refusal {
        Refusal::Upgraded => Rule::Upgraded,
        Refusal::BadOption => Rule::BadOption,
        Refusal::BadBase => Rule::BadBase,
        Refusal::TooManyEdits => Rule::TooManyEdits,
        Refusal::Invalid { rule } => Rule::Invalid(*rule),
        Refusal::OutsideAmbition => Rule::OutsideAmbition,
        Refusal::OutsideSide { edit } => Rule::OutsideSide(*edit),
        Refusal::Empty => Rule::Empty,
        Refusal::BadRecord { edit } => Rule::BadRecord(*edit),
        _ => Rule::Other,
    }
}

fn damage(number: u32, cause: &StoreDamage) -> Answer {
    match cause {
        StoreDamage::Cut => Answer::Cut(number),
        StoreDamage::Digest => Answer::Digest(number),
        StoreDamage::NotARecord => Answer::NotARecord(number),
        StoreDamage::Refused(refusal) => Answer::Refused(number, rule_of(refusal)),
    }
}

fn fault_answer(fault: &StoreFault) -> Answer {
    match fault {
        StoreFault::NotAStore => Answer::NotAStore,
        StoreFault::Damaged { number, cause, .. } => damage(*number, cause),
        StoreFault::DiskFault | StoreFault::Memory => Answer::Stopped,
    }
}

fn open(alloc: Global, disk: &mut MemoryDisk) -> Answer {
    match Store::open(alloc, disk) {
        Ok(store) => {
            let answer = Answer::Opened(store.engine().position().number());
            close(store);
            answer
        }
        Err(fault) => {
            let answer = fault_answer(&fault);
            close_fault(fault);
            answer
        }
    }
}

/// What an image comes to.
pub(crate) fn opened(alloc: Global, image: Text) -> Answer {
    let mut disk = MemoryDisk::new(alloc, image, Numbers::new(alloc), None);
    let answer = open(alloc, &mut disk);
    drop(disk);
    answer
}

fn check_cuts(rt: &impl Abort, alloc: Global) -> Result<(), Memory> {
    let mut length = 0;
    for cuts in CUTS.as_slice() {
        for _ in 0..cuts.count {
            let first = TEN.get(..length).unwrap_or(&[]);
            assert_eq!(rt; opened(alloc, Text::from_slice(alloc, first)?), cuts.answer);
            length = length.saturating_add(1);
        }
    }
    assert_eq!(rt; length, TEN.len() + 1);
    Ok(())
}

#[test]
fn every_cut_is_told(rt: HostRuntime) -> Result<(), Fail> {
    check_cuts(&rt, rt.alloc())?;
    Ok(())
}

/// The ten records, where these bits of one byte are changed.
pub(crate) fn changed(alloc: Global, at: usize, bits: u8) -> Result<Text, Memory> {
    let mut bytes = TEN;
    if let Some(byte) = bytes.get_mut(at) {
        *byte ^= bits;
    }
    Text::from_slice(alloc, bytes.as_slice())
}

/// Changes so many bytes from a place on, one at a time.
fn check_bytes(
    rt: &impl Abort,
    alloc: Global,
    at: &mut usize,
    count: usize,
    bits: u8,
    answer: Answer,
) -> Result<(), Memory> {
    for _ in 0..count {
        assert_eq!(rt; opened(alloc, changed(alloc, *at, bits)?), answer);
        *at = at.saturating_add(1);
    }
    Ok(())
}

fn check_change(rt: &impl Abort, alloc: Global, change: &Change) -> Result<(), Memory> {
    let mut at = 0;
    let mut number: u32 = 0;
    check_bytes(rt, alloc, &mut at, 12, change.bits, Answer::NotAStore)?;
    for (behind, cut) in BEHIND.iter().zip(change.cut.as_slice()) {
        check_bytes(rt, alloc, &mut at, 1, change.bits, Answer::Opened(number))?;
        number = number.saturating_add(1);
        check_bytes(rt, alloc, &mut at, *cut, change.bits, Answer::Cut(number))?;
        let others = behind.saturating_sub(*cut);
        check_bytes(
            rt,
            alloc,
            &mut at,
            others,
            change.bits,
            Answer::Digest(number),
        )?;
    }
    check_bytes(rt, alloc, &mut at, 1, change.bits, change.last)?;
    assert_eq!(rt; at, TEN.len());
    Ok(())
}

#[test]
fn every_changed_byte_is_told(rt: HostRuntime) -> Result<(), Fail> {
    for change in CHANGES.as_slice() {
        check_change(&rt, rt.alloc(), change)?;
    }
    Ok(())
}

fn check_rows(rt: &impl Abort, alloc: Global) -> Result<(), Memory> {
    for row in ROWS.as_slice() {
        assert_eq!(rt;
            opened(alloc, Text::from_slice(alloc, row.image)?),
            row.answer
        );
    }
    assert_eq!(rt;
        opened(alloc, many_edits(alloc)?),
        Answer::Refused(1, Rule::TooManyEdits)
    );
    Ok(())
}

#[test]
fn whole_records_are_accepted_or_refused(rt: HostRuntime) -> Result<(), Fail> {
    check_rows(&rt, rt.alloc())?;
    Ok(())
}
