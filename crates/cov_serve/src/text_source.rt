// A script that is at hand, a sink for replies that aren't told, and trees of which no row is written.
ghost use Rattle.std.specs.Prelude.{◌≡◌};

use cov_base::{Failed, Numbers, Text};
use cov_io::{MemorySource, Sink, Source};
use cov_out::Trees;
use std::alloc::Global;
use std::marker::Model;

/// The most bytes of a read.
const PIECE_BYTES: usize = 65536;

/// A source over a text that is at hand: no read of it fails.
#[derive(Drop)]
pub(crate) struct TextSource {
    source: MemorySource,
}

impl Model for TextSource {
    ghost use Rattle.std.specs.Prelude.{◌≡◌, []};
    ghost use Rattle.cov_io.specs.InMemory.{SourceState};

    ghost Value = { SourceState };

    ghost view = { λ s. s.source };

    ghost invariant = { λ s. s.source.fail ≡ [] };
}

impl TextSource {
    pub(crate) fn new(alloc: Global, text: Text) -> TextSource
        ensures { result.left ≡ text }
    {
        TextSource {
            source: MemorySource::new(alloc, text, PIECE_BYTES, Numbers::new(alloc)),
        }
    }
}

impl Source for TextSource {
    ghost use Rattle.std.specs.Prelude.{Some};

    ghost left = { λ s. Some s.left };

    ghost given = { λ s. s.given };

    ghost faults = { λ s. 0 };

    ghost ends = { λ s. s.ends };

    fn read(&mut self, into: &mut [u8]) -> Result<usize, Failed> {
        self.source.read(into)
    }
}

/// A sink that takes all bytes and keeps none.
#[derive(Drop)]
pub(crate) struct Unwritten {}

impl Sink for Unwritten {
    ghost use Rattle.std.specs.Prelude.{None};

    ghost written = { λ s. None };

    ghost faults = { λ s. 0 };

    fn put(&mut self, _bytes: &[u8]) -> Result<(), Failed> {
        Ok(())
    }
}

/// Trees for lines that write no row.
#[derive(Drop)]
pub(crate) struct NoTrees {}

impl Trees for NoTrees {
    ghost use Rattle.std.specs.Prelude.{None};

    ghost rows = { λ s. None };

    ghost faults = { λ s. 0 };

    fn make_dir(&mut self, _path: &[u8]) -> Result<(), Failed> {
        Ok(())
    }

    fn put_file(&mut self, _path: &[u8], _bytes: &[u8]) -> Result<(), Failed> {
        Ok(())
    }
}
