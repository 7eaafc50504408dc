// Answers that many calls share.
ghost use Rattle.std.specs.Prelude.{◌≡◌};

use std::alloc::{AllocError, AllocFailed};

/// A call of a device that failed.
#[derive(Clone, Copy, Debug, PartialEq, Eq)]
pub struct Failed;

/// No memory was to be had. What was lent to the call means what it meant before.
#[derive(Clone, Copy, Debug, PartialEq, Eq)]
pub struct Memory;

impl From<AllocError> for Memory {
    fn from(_: AllocError) -> Self {
        Memory
    }
}

impl<T: Drop> From<AllocFailed<T>> for Memory {
    fn from(_: AllocFailed<T>) -> Self {
        Memory
    }
}

/// Bytes that don't have the spelling that is asked for.
#[derive(Clone, Copy, Debug, PartialEq, Eq)]
pub struct BadName;

/// A refusal, or want of memory.
#[derive(Clone, Copy, Debug, PartialEq, Eq)]
pub enum MemoryOr<E> {
    Memory,
    Refused(E),
}

impl<E> From<AllocError> for MemoryOr<E> {
    ghost use Rattle.cov_base.specs.declared.error.MemoryOr.TheVariants.{Memory as wanting};

    ghost from_gives = { λ _ e. e ≡ wanting };

    fn from(_: AllocError) -> Self {
        MemoryOr::Memory
    }
}

impl<T: Drop, E> From<AllocFailed<T>> for MemoryOr<E> {
    ghost use Rattle.cov_base.specs.declared.error.MemoryOr.TheVariants.{Memory as wanting};

    ghost from_gives = { λ _ e. e ≡ wanting };

    fn from(_: AllocFailed<T>) -> Self {
        MemoryOr::Memory
    }
}

impl<E> From<Memory> for MemoryOr<E> {
    ghost use Rattle.cov_base.specs.declared.error.MemoryOr.TheVariants.{Memory as wanting};

    ghost from_gives = { λ _ e. e ≡ wanting };

    fn from(_: Memory) -> Self {
        MemoryOr::Memory
    }
}
