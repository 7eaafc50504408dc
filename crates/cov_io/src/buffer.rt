// The bytes that were read and not yet given.
ghost use Rattle.std.specs.Prelude.{◌≡◌, ◌≤◌, List, ℕ, [], ◌++◌, length, drop, IfOk, OnErr, Option};
ghost use Rattle.cov_base.specs.Causes.{HasCause};
ghost use Rattle.cov_io.specs.Devices.{Reads, Unread, Gives, CountsEnd};
ghost use Rattle.cov_io.specs.Walk.{Holds, TakesPiece};

use crate::Source;
use cov_base::{Failed, MOST_SCRIPT_LINE_BYTES, Memory, Text};
use memchr::memchr;
use std::alloc::Global;
use std::marker::Model;

/// The bytes asked of a source in one read.
const READ_BYTES: usize = 65536;

/// What a buffer had of a line: the line so far, or None where it is too long to be given.
#[derive(Drop)]
pub(crate) enum Piece {
    /// The line's end stands behind it.
    Ended(Option<Text>),
    /// The line goes on.
    Open(Option<Text>),
}

/// A block of bytes, of which a range is pending.
#[derive(Debug, Drop)]
pub(crate) struct Buffer {
    bytes: Vec<u8>,
    from: usize,
    to: usize,
}

impl Model for Buffer {
    ghost use Rattle.std.specs.Prelude.{◌≡◌, ◌≤◌, List, ℕ, slice_range, length};
    ghost use Rattle.cov_io.specs.declared.buffer.TheConstants.{READ_BYTES};

    ghost Value = { List ℕ };

    ghost view = { λ b. slice_range b.bytes.items b.from b.to };

    ghost invariant = { λ b. (b.from ≤ b.to) × (b.to ≤ length b.bytes.items) ×
        (length b.bytes.items ≡ READ_BYTES) };
}

impl Buffer {
    pub(crate) fn new(alloc: Global) -> Result<Buffer, Memory>
        ensures { IfOk result (λ buffer. buffer ≡ []) }
    {
        Ok(Buffer {
            bytes: vec![in alloc; 0; READ_BYTES]?,
            from: 0,
            to: 0,
        })
    }

    pub(crate) fn pending(&self) -> &[u8]
        ensures { result.now ≡ self.now }
    {
        &self.bytes[self.from..self.to]
    }

    fn skip(&mut self, count: usize)
        requires { count ≤ length self.old }
        ensures { self.new ≡ drop count self.old }
    {
        self.from += count;
    }

    fn clear(&mut self)
        ensures { self.new ≡ [] }
    {
        self.from = 0;
        self.to = 0;
    }

    /// Takes what there is of the line that begins at the buffer's front, behind what is held of it.
    pub(crate) fn take_piece(&mut self, line: Option<Text>) -> Result<Piece, Memory>
        ensures { IfOk result (TakesPiece line self.old self.new) }
    {
        let pending = self.pending();
        match memchr(b'\n', pending) {
            Some(at) => {
                let line = grown(line, &pending[..at])?;
                self.skip(at + 1);
                Ok(Piece::Ended(line))
            }
            None => {
                let line = grown(line, pending)?;
                self.clear();
                Ok(Piece::Open(line))
            }
        }
    }

    /// Replaces what is pending by what one read gives.
    pub(crate) fn fill<S: Source>(&mut self, source: &mut S) -> Result<usize, Failed>
        ensures count { IfOk result (λ n. n ≡ length self.new) }
        ensures bound { IfOk result (λ n. n ≤ READ_BYTES) }
        ensures bytes { IfOk result (λ n.
            Reads n self.new (S.left source.old) (S.left source.new)) }
        ensures unread { OnErr result (Unread (S.left source.old) (S.left source.new)) }
        ensures given { Gives result (S.given source.old) (S.given source.new) }
        ensures ends { CountsEnd result (S.ends source.old) (S.ends source.new) }
        ensures cause { HasCause (S.faults source.old) (S.faults source.new) result }
    {
        self.from = 0;
        self.to = 0;
        let count = source.read(self.bytes.as_mut_slice())?;
        self.to = count;
        Ok(count)
    }
}

/// The line so far with more bytes at its end, which is no longer kept once it is too long.
fn grown(line: Option<Text>, bytes: &[u8]) -> Result<Option<Text>, Memory>
    ensures { IfOk result (λ more. (piece : List ℕ) → Holds line piece →
        Holds more (piece ++ bytes.now)) }
{
    match line {
        Some(mut text) => {
            if MOST_SCRIPT_LINE_BYTES.saturating_sub(text.len()) < bytes.len() {
                return Ok(None);
            }
            text.append(bytes)?;
            Ok(Some(text))
        }
        None => Ok(None),
    }
}
