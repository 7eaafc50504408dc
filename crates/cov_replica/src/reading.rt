// The bytes that came, and how far they were read.
ghost use Rattle.std.specs.Prelude.{◌≡◌, ◌<◌, ◌≤◌, ◌+◌, ◌^◌, [], length, max, take, drop, IfOk, OnOk, OnErr};
ghost use Rattle.std.specs.Str.{bytes_eq};
ghost use Rattle.cov_base.specs.declared.error.MemoryOr.TheVariants.{Memory as wanting};
ghost use Rattle.cov_journal.specs.Journal.{header};
ghost use Rattle.cov_replica.specs.Accepting.{Accepts};
ghost use Rattle.cov_replica.specs.Reading.{IsReadTo, IsCaughtUp, HasFirst, Keeps, Reads, TakesPiece, record_at};
ghost use Rattle.cov_replica.specs.Taken.{counted, judged};
ghost use Rattle.cov_replica.specs.declared.fault.ReplicaFault.TheVariants.{Damaged};

use crate::accepting::accept;
use crate::{ReplicaDamage, ReplicaFault};
use cov_base::{Memory, MemoryOr};
use cov_engine::Engine;
use cov_journal::header;
use std::alloc::Global;

/// The bytes that came, the history of the records before a place, and the digest of the last of these. A record is read where it stands
/// among them.
#[derive(Drop)]
pub(crate) struct Reading {
    pub(crate) bytes: Vec<u8>,
    pub(crate) engine: Engine,
    pub(crate) at: usize,
    pub(crate) digest: [u8; 32],
}

impl Reading {
    pub(crate) fn new(alloc: Global) -> Result<Reading, Memory>
        ensures empty { IfOk result (λ reading. reading.bytes.items ≡ []) }
        ensures read { IfOk result (λ reading.
            IsCaughtUp reading.bytes.items reading.at reading.digest reading.engine.history) }
    {
        Ok(Reading {
            bytes: Vec::new(alloc),
            engine: Engine::new(alloc)?,
            at: 12,
            digest: [0; 32],
        })
    }

    /// The history, without the bytes.
    pub(crate) fn into_engine(self) -> Engine
        ensures { result ≡ self.engine }
    {
        let Reading {
            bytes,
            engine,
            at: _,
            digest: _,
        } = self;
        drop(bytes);
        engine
    }

    /// Takes a piece, and reads the records that are whole with it. For want of memory it gives back the bytes of the piece from the
    /// record on that couldn't be read.
    pub(crate) fn feed(&mut self, piece: &[u8]) -> Result<(), MemoryOr<ReplicaFault>>
        requires read { IsCaughtUp self.old.bytes.items self.old.at self.old.digest
            self.old.engine.history }
        ensures bytes { TakesPiece self.old.bytes.items piece.now self.new.bytes.items result }
        ensures reads { Reads self.new.bytes.items self.new.at self.new.digest
            self.new.engine.history result }
    {
        let before = self.bytes.len();
        match self.bytes.extend_from_slice(piece) {
            Ok(()) => self.read(before),
            Err(_) => Err(MemoryOr::Memory),
        }
    }

    // Reads on, where so many bytes were there before.
    fn read(&mut self, before: usize) -> Result<(), MemoryOr<ReplicaFault>>
        requires within { before ≤ length self.old.bytes.items }
        requires read { IsCaughtUp (take before self.old.bytes.items) self.old.at self.old.digest
            self.old.engine.history }
        ensures keeps { Keeps before self.old.bytes.items self.new.bytes.items result }
        ensures reads { Reads self.new.bytes.items self.new.at self.new.digest
            self.new.engine.history result }
    {
        if self.bytes.len() <= 13 {
            return Ok(());
        }
        if !begins_with_header(self.bytes.as_slice()) {
            return Err(MemoryOr::Refused(ReplicaFault::NotAStore));
        }
        self.read_records(before)
    }

    // Reads the records that are whole, where so many bytes were there before.
    fn read_records(&mut self, before: usize) -> Result<(), MemoryOr<ReplicaFault>>
        requires long { 13 < length self.old.bytes.items }
        requires within { before ≤ length self.old.bytes.items }
        requires read { IsReadTo self.old.bytes.items self.old.at self.old.digest
            self.old.engine.history }
        requires rest { counted (drop self.old.at (take before self.old.bytes.items)) ≡ [] }
        ensures keeps { Keeps before self.old.bytes.items self.new.bytes.items result }
        ensures reads { Reads self.new.bytes.items self.new.at self.new.digest
            self.new.engine.history result }
    {
        'records: while let Some(count) = first_length(&self.bytes[self.at..]) {
            match self.read_record(count) {
                Ok(()) => (),
                Err(MemoryOr::Refused(cause)) => return Err(MemoryOr::Refused(self.damaged(cause))),
                Err(MemoryOr::Memory) => return Err(self.give_back(before)),
            }
        }
        Ok(())
    }

    // Reads the record at the place, whose payload has this length.
    fn read_record(&mut self, count: u32) -> Result<(), MemoryOr<ReplicaDamage>>
        requires first { self.old.at + count + 37 ≤ length self.old.bytes.items }
        ensures accepted { Accepts (judged self.old.engine.history self.old.digest
            (record_at self.old.at count self.old.bytes.items))
            self.old.engine.history self.new.engine.history result }
        ensures bytes { self.new.bytes ≡ self.old.bytes }
        ensures at { OnOk result (self.new.at ≡ self.old.at + count + 37) }
        ensures digest { OnOk result
            (self.new.digest ≡ (record_at self.old.at count self.old.bytes.items).digest) }
        ensures stays { OnErr result
            ((self.new.at ≡ self.old.at) × (self.new.digest ≡ self.old.digest)) }
    {
        let end = self.at + count as usize + 37;
        let (payload, digest) = self.bytes[self.at + 5..end].split_at(count as usize);
        match accept(&mut self.engine, &self.digest, payload, digest) {
            Ok(own) => {
                self.at = end;
                self.digest = own;
                Ok(())
            }
            Err(fault) => Err(fault),
        }
    }

    // The record behind the history is damaged.
    fn damaged(&self, cause: ReplicaDamage) -> ReplicaFault
        requires most { length self.now.engine.history ≤ 2 ^ 20 }
        ensures { result ≡ Damaged (length self.now.engine.history + 1) cause }
    {
        ReplicaFault::Damaged {
            number: self.engine.position().number() + 1,
            cause,
        }
    }

    // Gives back the bytes from the place on, but for those that were there before.
    fn give_back(&mut self, before: usize) -> MemoryOr<ReplicaFault>
        ensures wanting { result ≡ wanting }
        ensures bytes { self.new.bytes.items ≡
            take (max before self.old.at) self.old.bytes.items }
        ensures engine { self.new.engine ≡ self.old.engine }
        ensures at { self.new.at ≡ self.old.at }
        ensures digest { self.new.digest ≡ self.old.digest }
    {
        self.bytes.truncate(before.max(self.at));
        MemoryOr::Memory
    }
}

// Whether bytes begin with the header.
fn begins_with_header(bytes: &[u8]) -> bool
    requires { 12 ≤ length bytes.now }
    ensures { result ≡ bytes_eq (take 12 bytes.now) header }
{
    &bytes[..12] == header().as_slice()
}

// The length of the payload of the record that begins at the front, if it is whole behind an open gate.
fn first_length(bytes: &[u8]) -> Option<u32>
    ensures { HasFirst bytes.now result }
{
    let [1, first, second, third, fourth, rest @ ..] = bytes else {
        return None;
    };
    let count = u32::from_be_bytes([*first, *second, *third, *fourth]);
    if rest.len() < count as usize + 32 {
        return None;
    }
    Some(count)
}
