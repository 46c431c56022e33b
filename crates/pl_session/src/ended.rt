//! What a call of `top` answers.

ghost use Rattle.std.specs.Prelude.{◌≡◌};

use pl_base::{Choice, Seq};

/// The exit status: 0 the script ended, 1 it raised an error, 2 usage, 3 a read fault, 4 a write fault, 5 too long,
/// no program or not built, 7 an unknown name, 9 want of memory.
#[derive(Clone, Copy, Debug, PartialEq, Eq)]
pub struct Status(pub u8);

/// The choices of a run, under which it can be repeated.
#[derive(Debug, Drop)]
pub struct Journal {
    pub version: u32,
    pub workers: u32,
    pub turns: u64,
    pub entries: Seq<Choice>,
}

/// How a call ended: the status, the choices, and the bytes of the script that was read. Of a script of
/// over 1,000,000 bytes these are the first 1,000,001; where none was read there are none.
#[derive(Debug, Drop)]
pub struct Ended {
    pub status: Status,
    pub journal: Journal,
    pub script: Seq<u8>,
}

/// The limits of a run: the workers, and the turns of each activity.
#[derive(Clone, Copy, Debug)]
pub(crate) struct Limits {
    pub workers: u32,
    pub turns: u64,
}

impl Limits {
    /// Those that hold where a command says nothing else.
    pub(crate) const DEFAULT: Limits = Limits {
        workers: 4,
        turns: 100_000_000,
    };
}

/// An end, with the choices that were made.
pub(crate) fn end_with(status: u8, limits: Limits, script: Seq<u8>, entries: Seq<Choice>) -> Ended
    ensures status { result.status.0 ≡ status }
    ensures journal { result.journal ≡ record { version = 1; workers = limits.workers; turns = limits.turns; entries = entries } }
    ensures script { result.script ≡ script }
{
    Ended {
        status: Status(status),
        journal: Journal {
            version: 1,
            workers: limits.workers,
            turns: limits.turns,
            entries,
        },
        script,
    }
}
