//! A source and a sink over a reader and a writer whose calls a signal interrupts.
ghost use Rattle.std.specs.Prelude.{◌≤◌, IfOk};

use cov_io::{Sink, Source, StdSink, StdSource};
use std::io::{self, ErrorKind, Read, Write};
use std::test::Fail;

/// A reader and a writer of which so many calls are interrupted before one that takes a byte, or fails where it is broken.
#[derive(Drop)]
struct Pipe {
    interrupted: u32,
    is_broken: bool,
}

impl Pipe {
    fn answer(&mut self, room: usize) -> io::Result<usize>
        ensures { IfOk result (λ n. n ≤ room) }
    {
        if self.interrupted > 0 {
            self.interrupted -= 1;
            return Err(io::Error::from(ErrorKind::Interrupted));
        }
        if self.is_broken {
            return Err(io::Error::from(ErrorKind::BrokenPipe));
        }
        Ok(room.min(1))
    }
}

impl Read for Pipe {
    fn read(&mut self, buf: &mut [u8]) -> io::Result<usize> {
        self.answer(buf.len())
    }
}

impl Write for Pipe {
    fn write(&mut self, buf: &[u8]) -> io::Result<usize> {
        self.answer(buf.len())
    }

    fn flush(&mut self) -> io::Result<()> {
        Ok(())
    }
}

/// How many bytes a read gives after so many interruptions, None where it fails.
fn read_after(interrupted: u32, is_broken: bool) -> Option<usize> {
    let mut source = StdSource::new(Pipe {
        interrupted,
        is_broken,
    });
    let mut buffer = [0; 4];
    source.read(buffer.as_mut_slice()).ok()
}

/// Whether three bytes are put after so many interruptions.
fn puts_after(interrupted: u32, is_broken: bool) -> bool {
    let mut sink = StdSink::new(Pipe {
        interrupted,
        is_broken,
    });
    sink.put(b"one").is_ok()
}

#[test]
fn interrupted_calls_are_made_anew(rt: HostRuntime) -> Result<(), Fail> {
    for interrupted in 0..4 {
        assert_eq!(rt; read_after(interrupted, false), Some(1));
        assert_eq!(rt; read_after(interrupted, true), None);
        assert!(rt; puts_after(interrupted, false));
        assert!(rt; !puts_after(interrupted, true));
    }
    Ok(())
}
