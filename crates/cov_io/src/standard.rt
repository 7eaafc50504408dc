// Devices over std's readers and writers.
ghost use Rattle.std.specs.Prelude.{◌≡◌, OnOk, OnErr};
ghost use Rattle.cov_io.specs.Devices.{AppendsAll, AppendsSome};

use crate::count::{ends_after, raised};
use crate::retried::{read_retried, write_retried};
use crate::{Sink, Source};
use cov_base::Failed;
use std::io::{Read, Write};

/// A source over a reader, of which each error is a fault; a read that a signal interrupted is made anew. It tells the bytes that
/// the reader tells: all of them over a slice, and none over a file, a pipe or a terminal, where what the system gives is trusted to
/// be the input. That a reader answers no more than the buffer holds is a clause of std's `Read`. A read that could pass the greatest
/// count of bytes fails before the reader is asked.
#[derive(Debug, Drop)]
pub struct StdSource<R> {
    reader: R,
    given: u64,
    faults: u64,
    ends: u64,
}

impl<R: Read> StdSource<R> {
    pub fn new(reader: R) -> StdSource<R>
        ensures left { ⟦<StdSource<R> as Source>⟧.left result ≡ R.remaining reader }
        ensures given { ⟦<StdSource<R> as Source>⟧.given result ≡ 0 }
        ensures faults { ⟦<StdSource<R> as Source>⟧.faults result ≡ 0 }
        ensures ends { ⟦<StdSource<R> as Source>⟧.ends result ≡ 0 }
    {
        StdSource {
            reader,
            given: 0,
            faults: 0,
            ends: 0,
        }
    }
}

impl<R: Read> Source for StdSource<R> {
    ghost left = { λ s. R.remaining s.reader };

    ghost given = { λ s. s.given };

    ghost faults = { λ s. s.faults };

    ghost ends = { λ s. s.ends };

    fn read(&mut self, into: &mut [u8]) -> Result<usize, Failed> {
        if u64::MAX - self.given < into.len() as u64 {
            self.faults = raised(self.faults);
            return Err(Failed);
        }
        match read_retried(&mut self.reader, into) {
            Ok(count) => {
                self.given += count as u64;
                self.ends = ends_after(self.ends, count);
                Ok(count)
            }
            Err(_) => {
                self.faults = raised(self.faults);
                Err(Failed)
            }
        }
    }
}

/// A sink over a writer, which writes and flushes in each `put`, and of which each error is a fault; a write that a signal
/// interrupted is made anew. It tells the bytes that the writer tells: none over a file, a pipe or a terminal, where what was written
/// is trusted to arrive.
#[derive(Debug, Drop)]
pub struct StdSink<W> {
    writer: W,
    faults: u64,
}

impl<W: Write> StdSink<W> {
    pub fn new(writer: W) -> StdSink<W>
        ensures written { ⟦<StdSink<W> as Sink>⟧.written result ≡ W.contents writer }
        ensures faults { ⟦<StdSink<W> as Sink>⟧.faults result ≡ 0 }
    {
        StdSink { writer, faults: 0 }
    }
}

impl<W: Write> Sink for StdSink<W> {
    ghost written = { λ s. W.contents s.writer };

    ghost faults = { λ s. s.faults };

    fn put(&mut self, bytes: &[u8]) -> Result<(), Failed> {
        match write_whole(&mut self.writer, bytes) {
            Ok(()) => Ok(()),
            Err(Failed) => {
                self.faults = raised(self.faults);
                Err(Failed)
            }
        }
    }
}

/// Writes and flushes. A writer that takes nothing has failed.
fn write_whole<W: Write>(writer: &mut W, bytes: &[u8]) -> Result<(), Failed>
    ensures all { OnOk result (AppendsAll bytes.now (W.contents writer.old)
        (W.contents writer.new)) }
    ensures some { OnErr result (AppendsSome bytes.now (W.contents writer.old)
        (W.contents writer.new)) }
{
    let mut rest = bytes;
    while !rest.is_empty() {
        match write_retried(writer, rest) {
            Ok(0) => return Err(Failed),
            Ok(count) => rest = &rest[count..],
            Err(_) => return Err(Failed),
        }
    }
    match writer.flush() {
        Ok(()) => Ok(()),
        Err(_) => Err(Failed),
    }
}
