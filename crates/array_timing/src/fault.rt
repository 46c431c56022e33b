//! Why a work has no outcome.

use pl_base::{ErrKind, NoMemory, Or};
use std::alloc::AllocError;
use thiserror::Error;

/// Memory couldn't be had, or an operator refused its operands, which none does here.
#[derive(Clone, Copy, Debug, Error)]
pub(crate) enum Fault {
    #[error("out of memory")]
    Memory,
    #[error("refused: {0:?}")]
    Refused(ErrKind),
}

impl From<AllocError> for Fault {
    fn from(_e: AllocError) -> Fault {
        Fault::Memory
    }
}

impl From<NoMemory> for Fault {
    fn from(_e: NoMemory) -> Fault {
        Fault::Memory
    }
}

impl From<Or<ErrKind>> for Fault {
    fn from(e: Or<ErrKind>) -> Fault {
        match e {
            Or::Memory => Fault::Memory,
            Or::Is(kind) => Fault::Refused(kind),
        }
    }
}
