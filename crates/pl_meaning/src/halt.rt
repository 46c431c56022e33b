//! Why a part doesn't go on.

ghost use Rattle.std.specs.Prelude.{◌≡◌};

use pl_base::{NoMemory, ScriptError};
use std::alloc::{AllocError, AllocFailed};

/// The world takes no more.
#[derive(Clone, Copy, Debug, PartialEq, Eq)]
pub struct Stop;

/// Why a part didn't go on.
#[derive(Debug, Drop)]
pub enum Halt {
    /// An error of the script, which a `try` may catch.
    Raise(ScriptError),
    /// The world answered `Stop`.
    Stopped,
    /// No memory was found.
    Memory,
}

impl From<NoMemory> for Halt {
    ghost use Rattle.pl_meaning.specs.declared.halt.Halt.{Halt};

    ghost from_gives = { λ _ e. e ≡ Halt.Memory };

    fn from(_e: NoMemory) -> Halt {
        Halt::Memory
    }
}

impl From<AllocError> for Halt {
    ghost use Rattle.pl_meaning.specs.declared.halt.Halt.{Halt};

    ghost from_gives = { λ _ e. e ≡ Halt.Memory };

    fn from(_e: AllocError) -> Halt {
        Halt::Memory
    }
}

impl<T: Drop> From<AllocFailed<T>> for Halt {
    ghost use Rattle.pl_meaning.specs.declared.halt.Halt.{Halt};

    ghost from_gives = { λ _ e. e ≡ Halt.Memory };

    fn from(_e: AllocFailed<T>) -> Halt {
        Halt::Memory
    }
}
