// The records of a journal, one after another.
ghost use Rattle.std.specs.Prelude.{List, ℕ, OnOk, ◌≡◌, ◌≤◌, ◌<◌, ◌+◌, ◌^◌, Some, [], length, drop, slice_index, IfOk, IfErr, IfSome};
ghost use Rattle.cov_disk.specs.Images.{Told, Only, LeavesOnly};
ghost use Rattle.cov_journal.specs.Journal.{Holds, IsWritten};
ghost use Rattle.cov_journal.specs.Moments.{KeepsImages};
ghost use Rattle.cov_journal.specs.Gates.{HasGate};
ghost use Rattle.cov_journal.specs.Reading.{HasLength, HasGiven, GivesOn, HasNextGate, IsOpened, IsOpenFault, IsNext, IsFault, IsDamagedRecord, Compares};

use crate::Damage;
use crate::framed::{Framed, framed_at};
use crate::front::{Front, front_at};
use crate::journal::{Journal, next_digest};
use crate::opening::{OpenFault, open};
use cov_base::{Failed, MemoryOr, Text};
use cov_disk::Disk;
use std::alloc::Global;
use std::marker::Model;
use thiserror::Error;

/// Where the next gate is, the digest of the record before it, and how many records were given.
#[derive(Drop)]
pub struct Reader {
    alloc: Global,
    at: u64,
    digest: [u8; 32],
    given: u32,
}

impl Model for Reader {
    ghost use Rattle.std.specs.Prelude.{◌≤◌, ◌+◌, ◌*◌};
    ghost use Rattle.cov_journal.specs.Places.{Place};

    ghost Value = { Place };

    ghost view = { λ r. record { at = r.at; digest = r.digest; given = r.given } };

    // 12 bytes stand before the first gate, and from one gate to the next there are at most 2 ^ 32 - 1 of a payload and 37 others,
    // which are 4294967332.
    ghost invariant = { λ r. r.at ≤ 12 + r.given * 4294967332 };
}

/// What a reader gives.
#[derive(Drop)]
pub enum Next {
    /// A record, and the reader that goes on behind it.
    Record(Reader, Text),
    /// The next gate is closed: the journal to which records are appended there.
    End(Journal),
}

/// Why no record is given.
#[derive(Debug, Drop, Error)]
pub enum ReadRecordFault {
    #[error("record {number} is damaged")]
    Damaged { number: u32, cause: Damage },
    #[error("the disk failed")]
    DiskFault,
    #[error("out of memory")]
    Memory,
}

impl Reader {
    pub(crate) fn new(alloc: Global) -> Reader
        ensures { HasGiven result [] }
    {
        Reader {
            alloc,
            at: 12,
            digest: [0; 32],
            given: 0,
        }
    }

    /// Syncs, makes a disk of at most 13 bytes anew, and asks a longer one for its header, which writes nothing. It takes no memory.
    pub fn open<D: Disk>(alloc: Global, disk: &mut D) -> Result<Reader, OpenFault>
        ensures reader { IfOk result (λ reader. HasGiven reader []) }
        ensures contents { OnOk result (Told IsOpened (D.contents disk.old) (D.contents disk.new)) }
        ensures kept { IfSome (D.contents disk.old) (λ bytes. 13 < length bytes →
            D.contents disk.new ≡ Some bytes) }
        ensures images { IfSome (D.contents disk.old) (λ bytes. 13 < length bytes →
            KeepsImages D.images D.moment D.images_since disk.old disk.new) }
        ensures stays { (payloads : List (List ℕ)) →
            IfSome (D.contents disk.old) (λ bytes. Holds bytes payloads →
            IfSome (D.contents disk.new) (λ now. Holds now payloads)) }
        ensures gate { IfOk result (λ reader. HasGate (D.contents disk.new) reader.at) }
        ensures held { (payloads : List (List ℕ)) →
            IfSome (D.contents disk.old) (λ bytes. Holds bytes payloads) →
            OnOk result (IfSome (D.contents disk.new) (λ bytes. IsWritten bytes payloads)) }
        ensures only { OnOk result (Only (D.contents disk.new) (D.images disk.new)) }
        ensures stored { (payloads : List (List ℕ)) →
            IfSome (D.contents disk.old) (λ bytes. Holds bytes payloads) →
            OnOk result ((c : List ℕ) → D.images disk.new c → IsWritten c payloads) }
        ensures any_moment { (payloads : List (List ℕ)) →
            ((c : List ℕ) → D.images disk.old c → Holds c payloads) →
            LeavesOnly D.moment D.images_since disk.old disk.new (λ c. Holds c payloads) }
        ensures fault { IfErr result (IsOpenFault (D.contents disk.old) (D.faults disk.old)
            (D.faults disk.new)) }
        ensures later { D.faults disk.old ≤ D.faults disk.new }
    {
        open(alloc, disk)
    }

    /// The record behind the next gate, or the journal where that is closed.
    pub fn next<D: Disk>(self, disk: &mut D) -> Result<Next, ReadRecordFault>
        requires few { self.given ≤ 2 ^ 20 }
        requires gate { IfSome (D.contents disk.old) (λ bytes. self.at < length bytes) }
        ensures next { IfOk result (IsNext self (D.contents disk.old)) }
        ensures gate { IfOk result (HasNextGate (D.contents disk.new)) }
        ensures given { (payloads : List (List ℕ)) → HasGiven self payloads →
            IfOk result (GivesOn payloads) }
        ensures fault { IfErr result (IsFault self (D.contents disk.old) (D.faults disk.old)
            (D.faults disk.new)) }
        ensures same { D.contents disk.new ≡ D.contents disk.old }
        ensures images { KeepsImages D.images D.moment D.images_since disk.old disk.new }
        ensures later { D.faults disk.old ≤ D.faults disk.new }
    {
        match front_at(disk, self.at) {
            Ok(Front::Closed) => Ok(Next::End(Journal::new(self.alloc, self.at, self.digest))),
            Ok(Front::Cut) => Err(self.damaged(Damage::Cut)),
            Ok(Front::Whole(count)) => self.whole_record(disk, count),
            Err(Failed) => Err(ReadRecordFault::DiskFault),
        }
    }

    // The fault of the record behind the next gate.
    fn damaged(self, cause: Damage) -> ReadRecordFault
        requires few { self.given ≤ 2 ^ 20 }
        ensures { IsDamagedRecord self cause result }
    {
        ReadRecordFault::Damaged {
            number: self.given + 1,
            cause,
        }
    }

    // A record of this length.
    fn whole_record<D: Disk>(self, disk: &mut D, count: u32) -> Result<Next, ReadRecordFault>
        requires few { self.given ≤ 2 ^ 20 }
        requires gate { IfSome (D.contents disk.old) (λ bytes. self.at < length bytes) }
        requires opened { IfSome (D.contents disk.old) (λ bytes. slice_index bytes self.at ≡ 1) }
        requires whole { IfSome (D.contents disk.old)
            (λ bytes. HasLength (drop (self.at + 1) bytes) count) }
        ensures next { IfOk result (IsNext self (D.contents disk.old)) }
        ensures fault { IfErr result (IsFault self (D.contents disk.old) (D.faults disk.old)
            (D.faults disk.new)) }
        ensures same { D.contents disk.new ≡ D.contents disk.old }
        ensures images { KeepsImages D.images D.moment D.images_since disk.old disk.new }
        ensures later { D.faults disk.old ≤ D.faults disk.new }
    {
        match framed_at(self.alloc, disk, self.at + 5, count) {
            Ok(framed) => self.compared(framed),
            Err(MemoryOr::Refused(Failed)) => Err(ReadRecordFault::DiskFault),
            Err(MemoryOr::Memory) => Err(ReadRecordFault::Memory),
        }
    }

    // A record with this payload, if this is its digest.
    fn compared(self, framed: Framed) -> Result<Next, ReadRecordFault>
        requires few { self.given ≤ 2 ^ 20 }
        requires short { length framed.payload < 2 ^ 32 }
        ensures { Compares self framed.payload framed.digest result }
    {
        let Framed { payload, digest } = framed;
        if next_digest(&self.digest, payload.as_slice()) == digest {
            let count = payload.len() as u64;
            return Ok(Next::Record(
                Reader {
                    alloc: self.alloc,
                    at: self.at + count + 37,
                    digest,
                    given: self.given + 1,
                },
                payload,
            ));
        }
        Err(self.damaged(Damage::Digest))
    }
}
