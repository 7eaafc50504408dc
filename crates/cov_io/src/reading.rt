// The lines of what a source gives.
ghost use Rattle.std.specs.Prelude.{◌≡◌, ◌≤◌, ◌+◌, ℕ, Option, [], false, IfOk, IsErrOf, MatchResult};
ghost use Rattle.cov_base.specs.Causes.{Rose};
ghost use Rattle.cov_io.specs.Progress.{CountsGiven, IsBounded, IsTooMuch, TracksEnd};
ghost use Rattle.cov_io.specs.Items.{GivesTold, IsShort, IsUnterminated, Shrinks};
ghost use Rattle.cov_io.specs.Walk.{Arrives, Fills, Stops, account, item_of, last_item};

use crate::Source;
use crate::buffer::{Buffer, Piece};
use cov_base::{Failed, Memory, TOO_MANY_SCRIPT_BYTES, Text};
use std::alloc::Global;
use std::marker::Model;
use thiserror::Error;

/// From so many bytes on no more are read at all.
const MOST_COUNTED: u64 = 1 << 63;

/// What a source gives next.
#[derive(Debug, Drop)]
pub enum Item {
    /// A line of at most `MOST_SCRIPT_LINE_BYTES` bytes, without its end.
    Line(Text),
    /// A line of more bytes, which was skipped whole.
    Long,
    /// No bytes are left.
    End,
}

/// Why no item is given. Nothing more is promised then of the `Lines`, but its counts.
#[derive(Debug, Drop, Error)]
pub enum LineFault {
    #[error("a read failed")]
    ReadFault,
    #[error("the source gave too many bytes")]
    TooMuch,
    #[error("out of memory")]
    Memory,
}

/// The lines of a source, in order. A line ends at byte 10, or at the end of input where it isn't
/// empty. Memory is taken for one line and one buffer of 64 KiB, and the work is linear in the bytes.
#[derive(Debug, Drop)]
pub struct Lines {
    alloc: Global,
    buffer: Buffer,
    taken: u64,
    ended: bool,
}

impl Model for Lines {
    ghost use Rattle.cov_io.specs.Progress.{Progress, IsBounded};

    ghost Value = { Progress };

    ghost view = { λ l. record { ahead = l.buffer; taken = l.taken; ended = l.ended } };

    ghost invariant = { λ l. IsBounded l.ended l.taken };
}

impl Lines {
    pub fn new(alloc: Global) -> Result<Lines, Memory>
        ensures { IfOk result (λ lines. lines ≡ record { ahead = []; taken = 0; ended = false }) }
    {
        Ok(Lines {
            alloc,
            buffer: Buffer::new(alloc)?,
            taken: 0,
            ended: false,
        })
    }

    /// The next line. After `End` a further call reads again. `TooMuch` comes where more would have
    /// to be read after `TOO_MANY_SCRIPT_BYTES`, `Memory` also where that is so after 2^63 bytes and an end.
    pub fn next<S: Source>(&mut self, source: &mut S) -> Result<Item, LineFault>
        ensures items { IfOk result (GivesTold self.old self.new (S.left source.old)
            (S.left source.new)) }
        ensures short { IfOk result IsShort }
        ensures unterminated { IfOk result IsUnterminated }
        ensures shrinks { IfOk result (Shrinks self.old self.new) }

        // Why it fails.
        ensures read_fault { IsErrOf result LineFault.ReadFault →
            Rose (S.faults source.old) (S.faults source.new) }
        ensures too_much { IsErrOf result LineFault.TooMuch → IsTooMuch self.new }

        // What is counted, at every return.
        ensures later { S.faults source.old ≤ S.faults source.new }
        ensures taken { self.new.taken + S.given source.old ≡ self.old.taken + S.given source.new }
        ensures counted { CountsGiven (S.left source.old) (S.left source.new) (S.given source.old)
            (S.given source.new) }
        ensures bounded { IsBounded self.new.ended self.new.taken }
        ensures ended { TracksEnd self.old.ended self.new.ended (S.ends source.old)
            (S.ends source.new) }
    {
        self.gather(source)
    }

    /// Takes pieces of one line until its end or the end of input.
    fn gather<S: Source>(&mut self, source: &mut S) -> Result<Item, LineFault>
        ensures { let before = account (S.left source.old) (S.given source.old)
            (S.faults source.old) (S.ends source.old) in
            let after = account (S.left source.new) (S.given source.new)
            (S.faults source.new) (S.ends source.new) in
            MatchResult result
            (λ item. Arrives item self.old self.new before after)
            (λ fault. Stops fault self.old self.new before after) }
    {
        let mut line = Some(Text::new(self.alloc));
        loop {
            match self.buffer.take_piece(line) {
                Ok(Piece::Ended(whole)) => return Ok(item_of(whole)),
                Ok(Piece::Open(more)) => line = more,
                Err(Memory) => return Err(LineFault::Memory),
            }
            match self.fill(source) {
                Ok(true) => {}
                Ok(false) => return Ok(last_item(line)),
                Err(fault) => return Err(fault),
            }
        }
    }

    /// Reads once, into an empty buffer. False says that the end was met.
    fn fill<S: Source>(&mut self, source: &mut S) -> Result<bool, LineFault>
        requires { self.old.ahead ≡ [] }
        ensures { let before = account (S.left source.old) (S.given source.old)
            (S.faults source.old) (S.ends source.old) in
            let after = account (S.left source.new) (S.given source.new)
            (S.faults source.new) (S.ends source.new) in
            Fills result self.old self.new before after }
    {
        if self.taken >= TOO_MANY_SCRIPT_BYTES && !self.ended {
            return Err(LineFault::TooMuch);
        }
        if self.taken >= MOST_COUNTED {
            return Err(LineFault::Memory);
        }
        match self.buffer.fill(source) {
            Ok(0) => {
                self.ended = true;
                Ok(false)
            }
            Ok(count) => {
                self.taken += count as u64;
                Ok(true)
            }
            Err(Failed) => Err(LineFault::ReadFault),
        }
    }
}

/// The item of a line, None being one that is too long.
fn item_of(line: Option<Text>) -> Item
    ensures { result ≡ item_of line }
{
    match line {
        Some(text) => Item::Line(text),
        None => Item::Long,
    }
}

/// The item of what stands before the end of input, which is a line only where it isn't empty.
fn last_item(line: Option<Text>) -> Item
    ensures { result ≡ last_item line }
{
    match line {
        Some(text) => {
            if text.is_empty() {
                return Item::End;
            }
            Item::Line(text)
        }
        None => Item::Long,
    }
}
