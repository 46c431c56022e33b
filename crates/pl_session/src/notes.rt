//! Ends with a line of the notes.

ghost use Rattle.std.specs.Prelude.{◌≡◌, ◌<◌, ◌⊎◌, ◌≢◌, [], OnOk, OnErr, IsErr};
ghost use Rattle.std.specs.Io.KnownBytes.{Appends};
ghost use Rattle.pl_io.specs.Faults.{Rose, HasCause};
ghost use Rattle.pl_io.specs.Told.{AppendsPrefix};
ghost use Rattle.pl_session.specs.Lines.{cannot_read_line};

use crate::ended::{Ended, Limits, end_with};
use pl_base::{Choice, Seq};
use pl_io::{Sink, WriteFault, write_all};
use std::alloc::Global;

const CANNOT_READ: &[u8] = b"parlab: cannot read ";

/// Ends with a status and the line that goes with it, or with a write fault.
pub(crate) fn close<N: Sink>(
    status: u8,
    limits: Limits,
    script: Seq<u8>,
    entries: Seq<Choice>,
    line: &[u8],
    notes: &mut N,
) -> Ended
    requires { status ≢ 4 }
    ensures statuses { (result.status.0 ≡ status) ⊎ (result.status.0 ≡ 4) }
    ensures line { result.status.0 ≡ status → Appends (N.written notes.old) (N.written notes.new) line.now }
    ensures part { result.status.0 ≡ 4 → AppendsPrefix (N.written notes.old) (N.written notes.new) line.now }
    ensures cause { result.status.0 ≡ 4 → Rose (N.faults notes.old) (N.faults notes.new) }
    ensures grew { N.faults notes.old < N.faults notes.new → result.status.0 ≡ 4 }
    ensures script { result.script ≡ script }
    ensures journal { result.journal ≡ record { version = 1; workers = limits.workers; turns = limits.turns; entries = entries } }
{
    match write_all(notes, line) {
        Ok(()) => end_with(status, limits, script, entries),
        Err(WriteFault) => end_with(4, limits, script, entries),
    }
}

/// Writes the line of a file that can't be read, in pieces: it takes no memory.
fn write_cannot_read<N: Sink>(name: &[u8], notes: &mut N) -> Result<(), WriteFault>
    ensures all { OnOk result (Appends (N.written notes.old) (N.written notes.new) (cannot_read_line name.now)) }
    ensures prefix { OnErr result (AppendsPrefix (N.written notes.old) (N.written notes.new) (cannot_read_line name.now)) }
    ensures cause { HasCause (N.faults notes.old) (N.faults notes.new) result }
    ensures grew { N.faults notes.old < N.faults notes.new → IsErr result }
{
    write_all(notes, CANNOT_READ)?;
    write_all(notes, name)?;
    write_all(notes, b"\n")
}

/// The file can't be read.
pub(crate) fn cannot_read<N: Sink>(
    alloc: Global,
    name: &[u8],
    limits: Limits,
    notes: &mut N,
) -> Ended
    ensures statuses { (result.status.0 ≡ 3) ⊎ (result.status.0 ≡ 4) }
    ensures line { result.status.0 ≡ 3 → Appends (N.written notes.old) (N.written notes.new) (cannot_read_line name.now) }
    ensures part { result.status.0 ≡ 4 → AppendsPrefix (N.written notes.old) (N.written notes.new) (cannot_read_line name.now) }
    ensures cause { result.status.0 ≡ 4 → Rose (N.faults notes.old) (N.faults notes.new) }
    ensures grew { N.faults notes.old < N.faults notes.new → result.status.0 ≡ 4 }
    ensures script { result.script ≡ [] }
    ensures journal { result.journal ≡ record { version = 1; workers = limits.workers; turns = limits.turns; entries = [] } }
{
    match write_cannot_read(name, notes) {
        Ok(()) => end_with(3, limits, Seq::empty(alloc), Seq::empty(alloc)),
        Err(WriteFault) => end_with(4, limits, Seq::empty(alloc), Seq::empty(alloc)),
    }
}
