// Why a replica takes no more bytes.
use cov_engine::Refusal;

/// What is wrong with a whole record behind an open gate: the first of these that holds.
#[derive(Clone, Copy)]
pub enum ReplicaDamage {
    /// It has another digest.
    Digest,
    /// Its payload is no command's.
    NotARecord,
    /// The commands before it refuse its command. Never want of memory.
    Refused(Refusal),
}

/// Why a replica takes no more bytes, or not all of a piece.
#[derive(Clone, Copy)]
pub enum ReplicaFault {
    /// Over 13 bytes came, and they don't begin with the header.
    NotAStore,
    /// The record of that number, from 1, is the first that is damaged.
    Damaged { number: u32, cause: ReplicaDamage },
    /// No memory was to be had: of the piece so many bytes were taken, and the others may be fed again.
    Memory { taken: usize },
}
