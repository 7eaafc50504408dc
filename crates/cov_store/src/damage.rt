// Why a disk can't be opened as a store.
use cov_expr::Options;
use cov_history::Refusal;

/// What is wrong with a record behind an open gate: the first of these that holds.
#[derive(Clone, Copy, Debug)]
pub enum StoreDamage {
    /// The disk ends before the gate that follows.
    Cut,
    /// It has another digest.
    Digest,
    /// Its payload is no command's.
    NotARecord,
    /// The commands before it refuse its command. Never want of memory.
    Refused(Refusal),
}

/// Why a disk can't be opened as a store.
#[derive(Drop)]
pub enum StoreFault {
    /// It has over 13 bytes, and doesn't begin with the header.
    NotAStore,
    /// The record of that number, from 1, is the first that is damaged. The options are those that the records before it declare.
    Damaged {
        number: u32,
        cause: StoreDamage,
        options: Options,
    },
    /// A call of the disk failed.
    DiskFault,
    /// No memory was to be had.
    Memory,
}
