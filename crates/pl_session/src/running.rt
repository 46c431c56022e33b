//! A source that was read is run.

ghost use Rattle.std.specs.Prelude.{◌≡◌, ◌<◌, ◌≤◌, ◌⊎◌, [], length, vec_len};
ghost use Rattle.pl_base.specs.declared.errors.ScriptError.{ScriptError as Raised};
ghost use Rattle.std.specs.Io.KnownBytes.{Appends};
ghost use Rattle.pl_errors.specs.Errors.{error_line};
ghost use Rattle.pl_io.specs.Faults.{Rose};
ghost use Rattle.pl_io.specs.Told.{AppendsPrefix};
ghost use Rattle.pl_source.specs.Sources.{Ready, Refuses};
ghost use Rattle.pl_session.specs.Ends.{Ends, Raises, PrintsPart, NotesPart, SaysAll, IsUnrun, WritesRefusal};

use crate::carrying::{Carried, Fate, carry_out};
use crate::ended::{Ended, Limits, end_with};
use crate::notes::close;
use pl_base::{Choice, Or, ScriptError, Seq};
use pl_errors::write_line;
use pl_io::Sink;
use pl_resolve::Resolved;
use pl_source::{Refusal, one_answer, ready};
use std::alloc::Global;

/// Ends with the line of an error.
fn end_with_error<N: Sink>(
    alloc: Global,
    error: &ScriptError,
    limits: Limits,
    script: Seq<u8>,
    entries: Seq<Choice>,
    notes: &mut N,
) -> Ended
    ensures statuses { (result.status.0 ≡ 1) ⊎ (result.status.0 ≡ 4) ⊎ (result.status.0 ≡ 9) }
    ensures line { result.status.0 ≡ 1 → Appends (N.written notes.old) (N.written notes.new) (error_line error.now) }
    ensures part { result.status.0 ≡ 4 → AppendsPrefix (N.written notes.old) (N.written notes.new) (error_line error.now) }
    ensures quiet { result.status.0 ≡ 9 → notes.new ≡ notes.old }
    ensures cause { result.status.0 ≡ 4 → Rose (N.faults notes.old) (N.faults notes.new) }
    ensures grew { N.faults notes.old < N.faults notes.new → result.status.0 ≡ 4 }
    ensures script { result.script ≡ script }
    ensures journal { result.journal ≡ record { version = 1; workers = limits.workers; turns = limits.turns; entries = entries } }
{
    let mut line = Vec::new(alloc);
    match write_line(&mut line, error) {
        Ok(()) => close(1, limits, script, entries, line.as_slice(), notes),
        Err(_) => end_with(9, limits, script, entries),
    }
}

/// Runs a program that was read from this source.
fn run_ready<K: Sink, N: Sink>(
    alloc: Global,
    resolved: &Resolved,
    limits: Limits,
    script: Seq<u8>,
    out: &mut K,
    notes: &mut N,
) -> Ended
    requires short { length script ≤ 1000000 }
    requires read { Ready script resolved.now }
    ensures statuses { (result.status.0 ≡ 0) ⊎ (result.status.0 ≡ 1) ⊎ (result.status.0 ≡ 4) ⊎ (result.status.0 ≡ 9) }
    ensures done { result.status.0 ≡ 0 → Ends script limits.turns result.journal.entries (K.written out.old) (K.written out.new) }
    ensures raised { result.status.0 ≡ 1 → Raises script limits.turns result.journal.entries (K.written out.old) (K.written out.new) (N.written notes.old) (N.written notes.new) }
    ensures quiet { result.status.0 ≡ 0 → notes.new ≡ notes.old }
    ensures part { (result.status.0 ≡ 4) ⊎ (result.status.0 ≡ 9) → PrintsPart script limits.turns result.journal.entries (K.written out.old) (K.written out.new) }
    ensures notes_part { (result.status.0 ≡ 4) ⊎ (result.status.0 ≡ 9) → NotesPart script limits.turns result.journal.entries (N.written notes.old) (N.written notes.new) }
    ensures cause { result.status.0 ≡ 4 → Rose (K.faults out.old) (K.faults out.new) ⊎ Rose (N.faults notes.old) (N.faults notes.new) }
    ensures out_grew { K.faults out.old < K.faults out.new → result.status.0 ≡ 4 }
    ensures notes_grew { N.faults notes.old < N.faults notes.new → result.status.0 ≡ 4 }
    ensures stopped { K.faults out.old < K.faults out.new → notes.new ≡ notes.old }
    ensures memory { result.status.0 ≡ 9 → notes.new ≡ notes.old }
    ensures said { result.status.0 ≡ 4 → Rose (K.faults out.old) (K.faults out.new) ⊎ SaysAll script limits.turns result.journal.entries (K.written out.old) (K.written out.new) }
    ensures script { result.script ≡ script }
    ensures journal { result.journal ≡ record { version = 1; workers = limits.workers; turns = limits.turns; entries = result.journal.entries } }
{
    let Carried { fate, entries } = carry_out(alloc, resolved, limits.turns, out);
    match fate {
        Ok(Fate::Done) => end_with(0, limits, script, entries),
        Ok(Fate::Raised(error)) => end_with_error(alloc, &error, limits, script, entries, notes),
        Ok(Fate::Stopped) => end_with(4, limits, script, entries),
        Err(_) => end_with(9, limits, script, entries),
    }
}

/// Ends with the line of a refusal.
fn end_with_refusal<N: Sink>(
    alloc: Global,
    refusal: &Refusal,
    limits: Limits,
    script: Seq<u8>,
    notes: &mut N,
) -> Ended
    requires short { length script ≤ 1000000 }
    requires refused { Refuses script refusal.now.status refusal.now.line }
    ensures statuses { (result.status.0 ≡ 4) ⊎ (result.status.0 ≡ 5) ⊎ (result.status.0 ≡ 7) }
    ensures refused { (result.status.0 ≡ 5) ⊎ (result.status.0 ≡ 7) → WritesRefusal script result.status.0 (N.written notes.old) (N.written notes.new) }
    ensures notes_part { result.status.0 ≡ 4 → NotesPart script limits.turns result.journal.entries (N.written notes.old) (N.written notes.new) }
    ensures cause { result.status.0 ≡ 4 → Rose (N.faults notes.old) (N.faults notes.new) }
    ensures grew { N.faults notes.old < N.faults notes.new → result.status.0 ≡ 4 }
    ensures unrun { IsUnrun script }
    ensures script { result.script ≡ script }
    ensures journal { result.journal ≡ record { version = 1; workers = limits.workers; turns = limits.turns; entries = [] } }
{
    close(
        refusal.status,
        limits,
        script,
        Seq::empty(alloc),
        refusal.line.items(),
        notes,
    )
}

/// Runs a source that was read whole.
pub(crate) fn run_source<K: Sink, N: Sink>(
    alloc: Global,
    source: Vec<u8>,
    limits: Limits,
    out: &mut K,
    notes: &mut N,
) -> Ended
    requires { vec_len source ≤ 1000000 }
    ensures statuses { (result.status.0 ≡ 0) ⊎ (result.status.0 ≡ 1) ⊎ (result.status.0 ≡ 4) ⊎ (result.status.0 ≡ 5) ⊎ (result.status.0 ≡ 7) ⊎ (result.status.0 ≡ 9) }
    ensures done { result.status.0 ≡ 0 → Ends source.items limits.turns result.journal.entries (K.written out.old) (K.written out.new) }
    ensures raised { result.status.0 ≡ 1 → Raises source.items limits.turns result.journal.entries (K.written out.old) (K.written out.new) (N.written notes.old) (N.written notes.new) }
    ensures quiet { result.status.0 ≡ 0 → notes.new ≡ notes.old }
    ensures refused { (result.status.0 ≡ 5) ⊎ (result.status.0 ≡ 7) → WritesRefusal source.items result.status.0 (N.written notes.old) (N.written notes.new) }
    ensures silent { (result.status.0 ≡ 5) ⊎ (result.status.0 ≡ 7) → out.new ≡ out.old }
    ensures part { (result.status.0 ≡ 4) ⊎ (result.status.0 ≡ 9) → PrintsPart source.items limits.turns result.journal.entries (K.written out.old) (K.written out.new) }
    ensures notes_part { (result.status.0 ≡ 4) ⊎ (result.status.0 ≡ 9) → NotesPart source.items limits.turns result.journal.entries (N.written notes.old) (N.written notes.new) }
    ensures cause { result.status.0 ≡ 4 → Rose (K.faults out.old) (K.faults out.new) ⊎ Rose (N.faults notes.old) (N.faults notes.new) }
    ensures out_grew { K.faults out.old < K.faults out.new → result.status.0 ≡ 4 }
    ensures notes_grew { N.faults notes.old < N.faults notes.new → result.status.0 ≡ 4 }
    ensures stopped { K.faults out.old < K.faults out.new → notes.new ≡ notes.old }
    ensures memory { result.status.0 ≡ 9 → notes.new ≡ notes.old }
    ensures said { result.status.0 ≡ 4 → Rose (K.faults out.old) (K.faults out.new) ⊎ SaysAll source.items limits.turns result.journal.entries (K.written out.old) (K.written out.new) ⊎ ((out.new ≡ out.old) × IsUnrun source.items) }
    ensures script { result.script ≡ source.items }
    ensures journal { result.journal ≡ record { version = 1; workers = limits.workers; turns = limits.turns; entries = result.journal.entries } }
    ensures no_choice { (result.status.0 ≡ 5) ⊎ (result.status.0 ≡ 7) → result.journal.entries ≡ [] }
    ensures no_choice_unrun { IsUnrun source.items → result.journal.entries ≡ [] }
{
    one_answer();
    let read = ready(alloc, source.as_slice());
    let script = Seq::of(source);
    match read {
        Ok(resolved) => run_ready(alloc, &resolved, limits, script, out, notes),
        Err(Or::Memory) => end_with(9, limits, script, Seq::empty(alloc)),
        Err(Or::Is(refusal)) => end_with_refusal(alloc, &refusal, limits, script, notes),
    }
}
