// The bytes of a journal, as they are read from a source.
ghost use Rattle.std.specs.Prelude.{◌≡◌, ◌≢◌, ◌+◌, ◌≤◌, List, ℕ, Some, [], length, take, IfOk, OnOk, IfErr, OnErr};
ghost use Rattle.cov_base.specs.Causes.{HasCause};
ghost use Rattle.cov_import.specs.Sources.{StopsReading, source_counts};
ghost use Rattle.cov_io.specs.Devices.{CountsEnd, Gives, Reads, Unread};
ghost use Rattle.cov_io.specs.Progress.{CountsGiven};
ghost use Rattle.cov_replica.specs.Feeding.{with_piece};
ghost use Rattle.cov_replica.specs.Taken.{taken};
ghost use Rattle.cov_serve.specs.Replicas.{FeedsAll, FeedsPiece};

use cov_base::{Failed, Memory, TOO_MANY_SCRIPT_BYTES};
use cov_io::{LineFault, Source};
use cov_replica::{Replica, ReplicaFault};
use std::alloc::Global;
use std::marker::Model;
use std::mem;

/// The most bytes of a read.
const PIECE_BYTES: usize = 65536;

/// Room for a piece of a source's bytes.
#[derive(Drop)]
struct Room {
    bytes: Vec<u8>,
}

impl Model for Room {
    ghost use Rattle.std.specs.Prelude.{◌≡◌, List, ℕ, length};
    ghost use Rattle.cov_serve.specs.declared.journal_source.TheConstants.{PIECE_BYTES};

    ghost Value = { List ℕ };

    ghost view = { λ r. r.bytes.items };

    ghost invariant = { λ r. length r.bytes.items ≡ PIECE_BYTES };
}

impl Room {
    fn new(alloc: Global) -> Result<Room, Memory> {
        Ok(Room {
            bytes: vec![in alloc; 0; PIECE_BYTES]?,
        })
    }

    // Puts what one read gives at the front.
    fn read<S: Source>(&mut self, source: &mut S) -> Result<usize, Failed>
        ensures bound { IfOk result (λ n. n ≤ PIECE_BYTES) }
        ensures fits { IfOk result (λ n. n ≤ length self.new) }
        ensures bytes { IfOk result (λ n.
            Reads n self.new (S.left source.old) (S.left source.new)) }
        ensures unread { OnErr result (Unread (S.left source.old) (S.left source.new)) }
        ensures given { Gives result (S.given source.old) (S.given source.new) }
        ensures ends { CountsEnd result (S.ends source.old) (S.ends source.new) }
        ensures cause { HasCause (S.faults source.old) (S.faults source.new) result }
    {
        source.read(self.bytes.as_mut_slice())
    }

    // The first so many bytes.
    fn piece(&self, count: usize) -> &[u8]
        requires { count ≤ PIECE_BYTES }
        ensures { result.now ≡ take count self.now }
    {
        &self.bytes[..count]
    }
}

/// Reads a source to its end, whatever its bytes are, and feeds them to a replica. `TooMuch` comes where the source gave
/// `TOO_MANY_SCRIPT_BYTES` bytes and its end wasn't met.
pub(crate) fn read_journal<S: Source>(alloc: Global, source: &mut S) -> Result<Replica, LineFault>
    ensures taken { (text : List ℕ) → S.left source.old ≡ Some text →
        IfOk result (λ replica. taken replica ≡ taken text) }
    ensures read { (text : List ℕ) → S.left source.old ≡ Some text →
        OnOk result (S.left source.new ≡ Some []) }
    ensures later { S.faults source.old ≤ S.faults source.new }
    ensures left { CountsGiven (S.left source.old) (S.left source.new)
        (S.given source.old) (S.given source.new) }
    ensures stopped { IfErr result (λ fault. StopsReading fault
        (source_counts (S.faults source.old) (S.given source.old) (S.ends source.old))
        (source_counts (S.faults source.new) (S.given source.new) (S.ends source.new))) }
{
    match Replica::new(alloc) {
        Ok(mut replica) => match feed_all(alloc, &mut replica, source) {
            Ok(()) => Ok(replica),
            Err(fault) => {
                close(replica);
                Err(fault)
            }
        },
        Err(Memory) => Err(LineFault::Memory),
    }
}

/// Gives a replica up at the end of the program, as a server is.
pub(crate) fn close(replica: Replica) {
    mem::forget(replica);
}

// Feeds the bytes that are left in a source to a replica.
fn feed_all<S: Source>(
    alloc: Global,
    replica: &mut Replica,
    source: &mut S,
) -> Result<(), LineFault>
    ensures fed { (text : List ℕ) → S.left source.old ≡ Some text →
        OnOk result (FeedsAll text replica.old replica.new (S.left source.new)) }
    ensures later { S.faults source.old ≤ S.faults source.new }
    ensures left { CountsGiven (S.left source.old) (S.left source.new)
        (S.given source.old) (S.given source.new) }
    ensures stopped { IfErr result (λ fault. StopsReading fault
        (source_counts (S.faults source.old) (S.given source.old) (S.ends source.old))
        (source_counts (S.faults source.new) (S.given source.new) (S.ends source.new))) }
{
    let Ok(mut room) = Room::new(alloc) else {
        return Err(LineFault::Memory);
    };
    let mut given: u64 = 0;
    'pieces: while given < TOO_MANY_SCRIPT_BYTES {
        let count = feed_next(&mut room, replica, source)?;
        if count == 0 {
            return Ok(());
        }
        given += count as u64;
    }
    Err(LineFault::TooMuch)
}

// Feeds one piece, and answers how many bytes it had: none at the end.
fn feed_next<S: Source>(
    room: &mut Room,
    replica: &mut Replica,
    source: &mut S,
) -> Result<usize, LineFault>
    ensures fed { (text : List ℕ) → S.left source.old ≡ Some text →
        IfOk result (FeedsPiece text replica.old replica.new (S.left source.new)) }
    ensures bound { IfOk result (λ count. count ≤ PIECE_BYTES) }
    ensures later { S.faults source.old ≤ S.faults source.new }
    ensures given { IfOk result (λ count. S.given source.new ≡ S.given source.old + count) }
    ensures ends { IfOk result (λ count. count ≢ 0 → S.ends source.new ≡ S.ends source.old) }
    ensures left { CountsGiven (S.left source.old) (S.left source.new)
        (S.given source.old) (S.given source.new) }
    ensures stopped { IfErr result (λ fault. StopsReading fault
        (source_counts (S.faults source.old) (S.given source.old) (S.ends source.old))
        (source_counts (S.faults source.new) (S.given source.new) (S.ends source.new))) }
{
    match room.read(source) {
        Ok(count) => match feed(replica, room.piece(count)) {
            Ok(()) => Ok(count),
            Err(Memory) => Err(LineFault::Memory),
        },
        Err(Failed) => Err(LineFault::ReadFault),
    }
}

// Feeds a piece. A replica with a fault takes none.
fn feed(replica: &mut Replica, piece: &[u8]) -> Result<(), Memory>
    ensures { OnOk result (replica.new ≡ with_piece replica.old piece.now) }
{
    match replica.feed(piece) {
        Err(ReplicaFault::Memory { .. }) => Err(Memory),
        Ok(()) | Err(ReplicaFault::NotAStore) | Err(ReplicaFault::Damaged { .. }) => Ok(()),
    }
}
