// Devices in memory, of which each call and what it did can be told.
ghost use Rattle.std.specs.Prelude.{◌≡◌, ◌≤◌, ◌<◌, ℕ, Some, [], length, is_err, IfOk, OnOk, OnErr};
ghost use Rattle.cov_base.specs.Causes.{HasCause};
ghost use Rattle.cov_io.specs.Devices.{Reads, Unread, Gives, CountsEnd, AppendsAll, AppendsSome};
ghost use Rattle.cov_io.specs.InMemory.{raised, is_next_in, FailsToRead, Writes, FailsToWrite};

use crate::count::ends_after;
use crate::{Calls, Sink, Source};
use cov_base::{Failed, Memory, Numbers, Text};
use std::alloc::Global;
use std::marker::Model;

/// A source over a text, which it gives in pieces. Its calls are numbered from 1, and those whose
/// numbers are listed fail.
#[derive(Debug, Drop)]
pub struct MemorySource {
    bytes: Text,
    at: usize,
    piece: usize,
    calls: Calls,
    ends: u64,
}

impl Model for MemorySource {
    ghost use Rattle.std.specs.Prelude.{◌≡◌, ◌≤◌, None, drop, length};
    ghost use Rattle.cov_io.specs.InMemory.{SourceState};

    ghost Value = { SourceState };

    ghost view = { λ s. record {
      left = drop s.at s.bytes;
      given = s.at;
      piece = s.piece;
      fail = s.calls.fail;
      calls = s.calls.calls;
      faults = s.calls.faults;
      ends = s.ends;
    } };

    ghost invariant = { λ s. (s.at ≤ length s.bytes) × (1 ≤ s.piece) × (s.calls.fuse ≡ None) };
}

impl MemorySource {
    /// A source that gives at most `piece` bytes in a read. The allocator stands first, as in each constructor of a type that holds
    /// collections; the collections of this one come with theirs.
    pub fn new(_alloc: Global, bytes: Text, piece: usize, fail: Numbers) -> MemorySource
        requires { 1 ≤ piece }
        ensures { result ≡ record {
          left = bytes;
          given = 0;
          piece = piece;
          fail = fail;
          calls = 0;
          faults = 0;
          ends = 0;
        } }
    {
        MemorySource {
            bytes,
            at: 0,
            piece,
            calls: Calls::new(fail, None),
            ends: 0,
        }
    }

    /// How many calls found no memory. A read takes none.
    pub fn starved(&self) -> u64
        ensures { result ≡ 0 }
    {
        0
    }
}

impl Source for MemorySource {
    ghost left = { λ s. Some s.left };

    ghost given = { λ s. s.given };

    ghost faults = { λ s. s.faults };

    ghost ends = { λ s. s.ends };

    fn read(&mut self, into: &mut [u8]) -> Result<usize, Failed>
        requires { 0 < length into.old }

        // As each source.
        ensures bound { IfOk result (λ n. n ≤ length into.old) }
        ensures bytes { IfOk result (λ n.
            Reads n into.new (Some self.old.left) (Some self.new.left)) }
        ensures unread { OnErr result (Unread (Some self.old.left) (Some self.new.left)) }
        ensures given { Gives result self.old.given self.new.given }
        ensures ends { CountsEnd result self.old.ends self.new.ends }
        ensures cause { HasCause self.old.faults self.new.faults result }

        // In memory.
        ensures listed { is_err result ≡ is_next_in self.old.fail self.old.calls }
        ensures failed { OnErr result (FailsToRead self.old self.new) }
        ensures piece { IfOk result (λ n. n ≤ self.old.piece) }
        ensures counted { self.new.calls ≡ raised self.old.calls }
        ensures same_faults { OnOk result (self.new.faults ≡ self.old.faults) }
        ensures same_piece { self.new.piece ≡ self.old.piece }
        ensures same_list { self.new.fail ≡ self.old.fail }
    {
        if self.calls.next_fails() {
            self.calls.fail();
            return Err(Failed);
        }
        let left = self.bytes.len() - self.at;
        let count = left.min(self.piece).min(into.len());
        into[..count].copy_from_slice(&self.bytes.as_slice()[self.at..self.at + count]);
        self.at += count;
        self.ends = ends_after(self.ends, count);
        Ok(count)
    }
}

/// A sink that keeps what is written. Its calls are numbered from 1; those whose numbers are listed
/// fail, and those that find no memory.
#[derive(Debug, Drop)]
pub struct MemorySink {
    written: Text,
    calls: Calls,
}

impl Model for MemorySink {
    ghost use Rattle.std.specs.Prelude.{◌≡◌, None};
    ghost use Rattle.cov_io.specs.InMemory.{SinkState};

    ghost Value = { SinkState };

    ghost view = { λ s. record {
      written = s.written;
      fail = s.calls.fail;
      calls = s.calls.calls;
      faults = s.calls.faults;
      starved = s.calls.starved;
    } };

    ghost invariant = { λ s. s.calls.fuse ≡ None };
}

impl MemorySink {
    pub fn new(alloc: Global, fail: Numbers) -> MemorySink
        ensures { result ≡ record {
          written = [];
          fail = fail;
          calls = 0;
          faults = 0;
          starved = 0;
        } }
    {
        MemorySink {
            written: Text::new(alloc),
            calls: Calls::new(fail, None),
        }
    }

    pub fn written(&self) -> &[u8]
        ensures { result.now ≡ self.now.written }
    {
        self.written.as_slice()
    }

    /// How many calls found no memory.
    pub fn starved(&self) -> u64
        ensures { result ≡ self.now.starved }
    {
        self.calls.starved()
    }
}

impl Sink for MemorySink {
    ghost written = { λ s. Some s.written };

    ghost faults = { λ s. s.faults };

    fn put(&mut self, bytes: &[u8]) -> Result<(), Failed>
        // As each sink.
        ensures all { OnOk result (AppendsAll bytes.now (Some self.old.written)
            (Some self.new.written)) }
        ensures some { OnErr result (AppendsSome bytes.now (Some self.old.written)
            (Some self.new.written)) }
        ensures cause { HasCause self.old.faults self.new.faults result }

        // In memory.
        ensures ok { OnOk result (Writes bytes.now self.old self.new) }
        ensures err { OnErr result (FailsToWrite self.old self.new) }
    {
        if self.calls.next_fails() {
            self.calls.fail();
            return Err(Failed);
        }
        match self.written.append(bytes) {
            Ok(()) => Ok(()),
            Err(Memory) => {
                self.calls.starve();
                Err(Failed)
            }
        }
    }
}
