//! The two sides of the outside, as traits: a program that is generic over them runs on real files as on
//! files in memory, and its contract is over what they tell.

ghost use Rattle.std.specs.Prelude.{◌≡◌, ℕ, ◌<◌, List, length, None, IfOk};
ghost use Rattle.std.specs.declared.option.Option.{Option};
ghost use Rattle.std.specs.Io.{ReadsAtMost, WritesAtMost};
ghost use Rattle.std.specs.Io.KnownBytes.{WriteAppends};
ghost use Rattle.pl_io.specs.Faults.{HasCause};
ghost use Rattle.pl_io.specs.Told.{Stays, Reads};

use thiserror::Error;

/// A call to the outside failed; the object's count of faults says so too.
#[derive(Clone, Copy, Debug, PartialEq, Eq, Error)]
#[error("a call to the outside failed")]
pub struct Failed;

/// Files that are read by name and place.
pub trait Files {
    /// The bytes of the file of a name, where that is told.
    ghost bytes: { Self → List ℕ → Option (List ℕ) };

    /// How many faults there were.
    ghost faults: { Self → ℕ };

    /// Puts bytes of the file, from `at` on, into the front of `into`, and answers how many. It answers
    /// 0 only at the end of the file, or for an empty `into`. A name that can't be opened is a fault.
    fn read_at(&mut self, name: &[u8], at: u64, into: &mut [u8]) -> Result<usize, Failed>
        ensures bound { ReadsAtMost result into.new }
        ensures told { Stays (bytes self.old) (bytes self.new) }
        ensures part { Reads (bytes self.old name.now) at result into.new }
        ensures cause { HasCause (faults self.old) (faults self.new) result };
}

/// What takes bytes in order.
pub trait Sink {
    /// The bytes that were written, where that is told.
    ghost written: { Self → Option (List ℕ) };

    /// How many faults there were.
    ghost faults: { Self → ℕ };

    /// Appends the front of the piece and answers how many bytes that was: at least one, unless the
    /// piece is empty. Where it failed, nothing was appended.
    fn write(&mut self, piece: &[u8]) -> Result<usize, Failed>
        ensures bound { WritesAtMost result piece.now }
        ensures some { IfOk result (λ n. 0 < length piece.now → 0 < n) }
        ensures bytes { WriteAppends (written self.old) (written self.new) result piece.now }
        // A sink that tells nothing tells nothing later.
        ensures silent { written self.old ≡ None → written self.new ≡ None }
        ensures cause { HasCause (faults self.old) (faults self.new) result };
}
