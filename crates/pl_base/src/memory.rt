//! Want of memory, and how a refusal stands beside it.

ghost use Rattle.std.specs.Prelude.{◌≡◌};

use std::alloc::{AllocError, AllocFailed};
use thiserror::Error;

/// Memory couldn't be had. It is the one answer that no clause rules out.
#[derive(Clone, Copy, Debug, PartialEq, Eq, Error)]
#[error("out of memory")]
pub struct NoMemory;

impl From<AllocError> for NoMemory {
    fn from(_e: AllocError) -> NoMemory {
        NoMemory
    }
}

impl<T: Drop> From<AllocFailed<T>> for NoMemory {
    fn from(_e: AllocFailed<T>) -> NoMemory {
        NoMemory
    }
}

/// The error of a call that wants memory and may refuse: `Is` has the refusal.
#[derive(Debug, Drop)]
pub enum Or<E> {
    Memory,
    Is(E),
}

impl<E> From<AllocError> for Or<E> {
    ghost use Rattle.pl_base.specs.declared.memory.Or.{Or};

    ghost from_gives = { λ _ e. e ≡ Or.Memory };

    fn from(_e: AllocError) -> Or<E> {
        Or::Memory
    }
}

impl<T: Drop, E> From<AllocFailed<T>> for Or<E> {
    ghost use Rattle.pl_base.specs.declared.memory.Or.{Or};

    ghost from_gives = { λ _ e. e ≡ Or.Memory };

    fn from(_e: AllocFailed<T>) -> Or<E> {
        Or::Memory
    }
}

impl<E> From<NoMemory> for Or<E> {
    ghost use Rattle.pl_base.specs.declared.memory.Or.{Or};

    ghost from_gives = { λ _ e. e ≡ Or.Memory };

    fn from(_e: NoMemory) -> Or<E> {
        Or::Memory
    }
}
