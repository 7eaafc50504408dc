// A disk in memory, of which each call and what it did can be told.
ghost use Rattle.std.specs.Prelude.{◌≡◌, ◌≤◌, ◌+◌, Some, [], length, slice_range, IfOk, OnOk, OnErr};
ghost use Rattle.cov_base.specs.Causes.{Rose, HasCause};
ghost use Rattle.cov_base.specs.Texts.{Written};
ghost use Rattle.cov_disk.specs.Images.{Torn, Follows, AddsNone, Elapses, Only};
ghost use Rattle.cov_disk.specs.Kept.{IsImageNow, IsImageSince, IsPicked};
ghost use Rattle.cov_disk.specs.InMemory.{Counts, Misses, Leaves, LogsWrite, LogsSync};

use crate::kept::Kept;
use crate::{Disk, Pick};
use cov_base::{Failed, Memory, Numbers, Text};
use cov_io::Calls;
use std::alloc::Global;
use std::marker::Model;

/// A disk that keeps its bytes in memory, and what was done to them. Its calls are numbered from 1; those whose
/// numbers are listed fail, those after the fuse, and those that find no memory.
#[derive(Debug, Drop)]
pub struct MemoryDisk {
    kept: Kept,
    calls: Calls,
}

impl Model for MemoryDisk {
    ghost use Rattle.cov_disk.specs.InMemory.{DiskState};

    ghost Value = { DiskState };

    ghost view = { λ d. record { kept = d.kept; calls = d.calls } };
}

impl MemoryDisk {
    ghost use Rattle.std.specs.Prelude.{Option};

    /// A disk of these bytes, which are its one image.
    pub fn new(alloc: Global, bytes: Text, fail: Numbers, fuse: Option<u64>) -> MemoryDisk
        ensures { result ≡ record {
          kept = record { content = bytes; log = [] };
          calls = record { fail = fail; fuse = fuse; calls = 0; faults = 0; starved = 0 };
        } }
    {
        MemoryDisk {
            kept: Kept::new(alloc, bytes),
            calls: Calls::new(fail, fuse),
        }
    }

    /// What a read gives.
    pub fn bytes(&self) -> &[u8]
        ensures { result.now ≡ self.now.kept.content }
    {
        self.kept.bytes()
    }

    // A write that fails by its number.
    fn miss(&mut self, at: usize, count: usize)
        requires { at ≤ length self.old.kept.content }
        ensures same { self.new.kept.content ≡ self.old.kept.content }
        ensures misses { Misses at count self.old self.new }
        ensures crash { Follows (Torn at count) (IsImageNow self.old.kept.log self.old.kept.content)
            (IsImageNow self.new.kept.log self.new.kept.content) }
        ensures later { self.old.calls.faults ≤ self.new.calls.faults }
        ensures rose { Rose self.old.calls.faults self.new.calls.faults }
    {
        match self.kept.miss(at, count) {
            Ok(()) => self.calls.fail(),
            Err(Memory) => self.calls.starve(),
        }
    }

    /// One image that a crash now may leave.
    pub fn crash(self, alloc: Global, pick: Pick) -> Result<Text, Memory>
        ensures picked { IfOk result (IsPicked pick self.kept.log self.kept.content) }
        ensures image { IfOk result (IsImageNow self.kept.log self.kept.content) }
    {
        let image = self.kept.picked(pick)?;
        Text::from_slice(alloc, image.as_slice())
    }

    /// How many calls found no memory.
    pub fn starved(&self) -> u64
        ensures { result ≡ self.now.calls.starved }
    {
        self.calls.starved()
    }
}

impl Disk for MemoryDisk {
    ghost use Rattle.std.proofs.Common.{refl};
    ghost use Rattle.cov_disk.specs.KeptLaws.{image_as_read, all_since, none_since};

    ghost contents = { λ d. Some d.kept.content };

    ghost images = { λ d c. IsImageNow d.kept.log d.kept.content c };

    ghost moment = { λ d. length d.kept.log };

    ghost images_since = { λ d t c. IsImageSince d.kept.log d.kept.content t c };

    ghost faults = { λ d. d.calls.faults };

    ghost as_read = { λ d c is. image_as_read d.kept.log d.kept.content c is };

    ghost told = { λ d c now. refl };

    ghost counts_now = { λ d t c le now. all_since d.kept.log d.kept.content t c le now };

    ghost only_now = { λ d c since. none_since d.kept.log d.kept.content c since };

    fn length(&mut self) -> Result<u64, Failed>
        // As each disk.
        ensures length { IfOk result (λ n. n ≡ length self.old.kept.content) }
        ensures same { self.new.kept.content ≡ self.old.kept.content }
        ensures crash { AddsNone (IsImageNow self.old.kept.log self.old.kept.content)
            (IsImageNow self.new.kept.log self.new.kept.content) }
        ensures time { Elapses (length self.old.kept.log) (length self.new.kept.log)
            (IsImageSince self.old.kept.log self.old.kept.content)
            (IsImageSince self.new.kept.log self.new.kept.content)
            (IsImageNow self.new.kept.log self.new.kept.content) }
        ensures cause { HasCause self.old.calls.faults self.new.calls.faults result }

        // In memory.
        ensures counts { Counts result self.old.calls self.new.calls }
        ensures kept { Leaves self.old self.new }
    {
        if self.calls.next_fails() {
            self.calls.fail();
            return Err(Failed);
        }
        Ok(self.kept.bytes().len() as u64)
    }

    fn read_at(&mut self, at: u64, into: &mut [u8]) -> Result<(), Failed>
        requires { at + length into.old ≤ length self.old.kept.content }
        // As each disk.
        ensures read { OnOk result (into.new ≡
            slice_range self.old.kept.content at (at + length into.old)) }
        ensures same { self.new.kept.content ≡ self.old.kept.content }
        ensures crash { AddsNone (IsImageNow self.old.kept.log self.old.kept.content)
            (IsImageNow self.new.kept.log self.new.kept.content) }
        ensures time { Elapses (length self.old.kept.log) (length self.new.kept.log)
            (IsImageSince self.old.kept.log self.old.kept.content)
            (IsImageSince self.new.kept.log self.new.kept.content)
            (IsImageNow self.new.kept.log self.new.kept.content) }
        ensures cause { HasCause self.old.calls.faults self.new.calls.faults result }

        // In memory.
        ensures counts { Counts result self.old.calls self.new.calls }
        ensures kept { Leaves self.old self.new }
    {
        if self.calls.next_fails() {
            self.calls.fail();
            return Err(Failed);
        }
        let at = at as usize;
        into.copy_from_slice(&self.kept.bytes()[at..at + into.len()]);
        Ok(())
    }

    fn write_at(&mut self, at: u64, bytes: &[u8]) -> Result<(), Failed>
        requires { at ≤ length self.old.kept.content }
        // As each disk.
        ensures written { OnOk result (Written at bytes.now self.old.kept.content
            self.new.kept.content) }
        ensures torn { OnErr result (Torn at (length bytes.now) self.old.kept.content
            self.new.kept.content) }
        ensures crash { Follows (Torn at (length bytes.now))
            (IsImageNow self.old.kept.log self.old.kept.content)
            (IsImageNow self.new.kept.log self.new.kept.content) }
        ensures time { Elapses (length self.old.kept.log) (length self.new.kept.log)
            (IsImageSince self.old.kept.log self.old.kept.content)
            (IsImageSince self.new.kept.log self.new.kept.content)
            (IsImageNow self.new.kept.log self.new.kept.content) }
        ensures cause { HasCause self.old.calls.faults self.new.calls.faults result }

        // In memory.
        ensures counts { Counts result self.old.calls self.new.calls }
        ensures logged { LogsWrite result at bytes.now self.old self.new }
        ensures effect { OnErr result (self.new.kept.content ≡ self.old.kept.content) }
    {
        if self.calls.next_fails() {
            self.miss(at as usize, bytes.len());
            return Err(Failed);
        }
        match self.kept.write(at as usize, bytes) {
            Ok(()) => Ok(()),
            Err(Memory) => {
                self.calls.starve();
                Err(Failed)
            }
        }
    }

    fn sync(&mut self) -> Result<(), Failed>
        // As each disk.
        ensures durable { OnOk result (Only (Some self.old.kept.content)
            (IsImageNow self.new.kept.log self.new.kept.content)) }
        ensures same { self.new.kept.content ≡ self.old.kept.content }
        ensures crash { AddsNone (IsImageNow self.old.kept.log self.old.kept.content)
            (IsImageNow self.new.kept.log self.new.kept.content) }
        ensures time { Elapses (length self.old.kept.log) (length self.new.kept.log)
            (IsImageSince self.old.kept.log self.old.kept.content)
            (IsImageSince self.new.kept.log self.new.kept.content)
            (IsImageNow self.new.kept.log self.new.kept.content) }
        ensures cause { HasCause self.old.calls.faults self.new.calls.faults result }

        // In memory.
        ensures counts { Counts result self.old.calls self.new.calls }
        ensures logged { LogsSync result self.old self.new }
    {
        if self.calls.next_fails() {
            self.calls.fail();
            return Err(Failed);
        }
        match self.kept.sync() {
            Ok(()) => Ok(()),
            Err(Memory) => {
                self.calls.starve();
                Err(Failed)
            }
        }
    }
}
