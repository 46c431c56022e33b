//! The top call.

ghost use Rattle.std.specs.Prelude.{◌≡◌, ℕ, List, ◌<◌, ◌⊎◌, Some, None, [], take, IfSome};
ghost use Rattle.std.specs.Io.KnownBytes.{Appends};
ghost use Rattle.pl_io.specs.Faults.{Rose};
ghost use Rattle.pl_io.specs.Told.{Stays, AppendsPrefix};
ghost use Rattle.pl_session.specs.Words.{Command as Order, command_of as command_in};
ghost use Rattle.pl_session.specs.Lines.{usage_line, cannot_read_line};
ghost use Rattle.pl_session.specs.Ends.{Ends, Raises, PrintsPart, SaysAll, IsUnrun, WritesRefusal, LinePart, journal_of};

use crate::ended::{Ended, Limits, end_with};
use crate::notes::{cannot_read, close};
use crate::running::run_source;
use crate::words::{Command, command_of};
use pl_base::{Gate, Or, Seq, Word};
use pl_io::{Files, ReadFault, Sink, read_all};
use std::alloc::Global;
use std::sync::Wait;
use std::thread::Threads;

/// The most bytes of a source.
const MOST_BYTES: u32 = 1_000_000;

const USAGE: &[u8] =
    b"parlab: usage: run FILE [--workers N] [--turns N] [--trace], check FILE, replay FILE JOURNAL, demo N\n";

const TOO_LONG: &[u8] = b"parlab: source too long\n";

/// Runs the script of a file.
fn run_file<F: Files, K: Sink, N: Sink>(
    alloc: Global,
    name: &[u8],
    limits: Limits,
    files: &mut F,
    out: &mut K,
    notes: &mut N,
) -> Ended
    ensures statuses { (result.status.0 ≡ 0) ⊎ (result.status.0 ≡ 1) ⊎ (result.status.0 ≡ 3) ⊎ (result.status.0 ≡ 4) ⊎ (result.status.0 ≡ 5) ⊎ (result.status.0 ≡ 7) ⊎ (result.status.0 ≡ 9) }
    ensures done { result.status.0 ≡ 0 → Ends result.script limits.turns result.journal.entries (K.written out.old) (K.written out.new) }
    ensures raised { result.status.0 ≡ 1 → Raises result.script limits.turns result.journal.entries (K.written out.old) (K.written out.new) (N.written notes.old) (N.written notes.new) }
    ensures quiet { result.status.0 ≡ 0 → notes.new ≡ notes.old }
    ensures refused { (result.status.0 ≡ 5) ⊎ (result.status.0 ≡ 7) → WritesRefusal result.script result.status.0 (N.written notes.old) (N.written notes.new) }
    ensures unread { result.status.0 ≡ 3 → Appends (N.written notes.old) (N.written notes.new) (cannot_read_line name.now) }
    ensures silent { (result.status.0 ≡ 3) ⊎ (result.status.0 ≡ 5) ⊎ (result.status.0 ≡ 7) → out.new ≡ out.old }
    ensures part { (result.status.0 ≡ 4) ⊎ (result.status.0 ≡ 9) → PrintsPart result.script limits.turns result.journal.entries (K.written out.old) (K.written out.new) }
    ensures notes_part { (result.status.0 ≡ 4) ⊎ (result.status.0 ≡ 9) → LinePart name.now result.script limits.turns result.journal.entries (N.written notes.old) (N.written notes.new) (F.faults files.old) (F.faults files.new) }
    ensures read { result.status.0 ≡ 3 → Rose (F.faults files.old) (F.faults files.new) }
    ensures read_grew { F.faults files.old < F.faults files.new → (result.status.0 ≡ 3) ⊎ (result.status.0 ≡ 4) }
    ensures cause { result.status.0 ≡ 4 → Rose (K.faults out.old) (K.faults out.new) ⊎ Rose (N.faults notes.old) (N.faults notes.new) }
    ensures out_grew { K.faults out.old < K.faults out.new → result.status.0 ≡ 4 }
    ensures notes_grew { N.faults notes.old < N.faults notes.new → result.status.0 ≡ 4 }
    ensures stopped { K.faults out.old < K.faults out.new → notes.new ≡ notes.old }
    ensures memory { result.status.0 ≡ 9 → notes.new ≡ notes.old }
    ensures said { result.status.0 ≡ 4 → Rose (K.faults out.old) (K.faults out.new) ⊎ SaysAll result.script limits.turns result.journal.entries (K.written out.old) (K.written out.new) ⊎ ((out.new ≡ out.old) × (IsUnrun result.script ⊎ Rose (F.faults files.old) (F.faults files.new))) }
    ensures script { (result.status.0 ≡ 0) ⊎ (result.status.0 ≡ 1) ⊎ (result.status.0 ≡ 5) ⊎ (result.status.0 ≡ 7) → IfSome (F.bytes files.old name.now) (λ bytes. result.script ≡ take 1000001 bytes) }
    ensures script_part { IfSome (F.bytes files.old name.now) (λ bytes. (result.script ≡ []) ⊎ (result.script ≡ take 1000001 bytes)) }
    ensures no_script { result.status.0 ≡ 3 → result.script ≡ [] }
    ensures told { Stays (F.bytes files.old) (F.bytes files.new) }
    ensures journal { result.journal ≡ record { version = 1; workers = limits.workers; turns = limits.turns; entries = result.journal.entries } }
    ensures no_choice { (result.status.0 ≡ 3) ⊎ (result.status.0 ≡ 5) ⊎ (result.status.0 ≡ 7) → result.journal.entries ≡ [] }
    ensures no_choice_unread { F.faults files.old < F.faults files.new → result.journal.entries ≡ [] }
    ensures no_choice_unrun { IsUnrun result.script → result.journal.entries ≡ [] }
{
    match read_all(alloc, files, name, MOST_BYTES) {
        Ok(source) => run_source(alloc, source, limits, out, notes),
        Err(Or::Memory) => end_with(9, limits, Seq::empty(alloc), Seq::empty(alloc)),
        Err(Or::Is(ReadFault::Failed)) => cannot_read(alloc, name, limits, notes),
        Err(Or::Is(ReadFault::TooLong(script))) => close(
            5,
            limits,
            script,
            Seq::empty(alloc),
            TOO_LONG,
            notes,
        ),
    }
}

/// Runs what the words ask for: `run FILE`, with its options. `rt` is the runtime under which calls may wait and
/// start threads, and `gate` is to be told of each job; nothing that is built so far does either.
///
/// The status is 0 where the script ended, 1 where it raised an error, 2 where the words are no command, 3 where
/// the file can't be read, 4 where a write failed, 5 where the source is too long, is no program or uses what isn't
/// built, 7 where a name of it stands for nothing, 9 where memory was wanting.
pub fn top<F: Files, K: Sink, N: Sink, G: Gate, R: Threads + Wait + Sync>(
    _rt: &R,
    alloc: Global,
    words: &[Word],
    files: &mut F,
    out: &mut K,
    notes: &mut N,
    _gate: &G,
) -> Ended
    ensures statuses { (result.status.0 ≡ 0) ⊎ (result.status.0 ≡ 1) ⊎ (result.status.0 ≡ 2) ⊎ (result.status.0 ≡ 3) ⊎ (result.status.0 ≡ 4) ⊎ (result.status.0 ≡ 5) ⊎ (result.status.0 ≡ 7) ⊎ (result.status.0 ≡ 9) }

    // Status 0: the script's run ends, and what was written is what it prints.
    ensures done { result.status.0 ≡ 0 → Ends result.script result.journal.turns result.journal.entries (K.written out.old) (K.written out.new) }
    ensures quiet { result.status.0 ≡ 0 → notes.new ≡ notes.old }

    // Status 1: the script's run raises an error. What it prints before was written, and the error's line to the notes.
    ensures raised { result.status.0 ≡ 1 → Raises result.script result.journal.turns result.journal.entries (K.written out.old) (K.written out.new) (N.written notes.old) (N.written notes.new) }

    // Status 2: exactly where the words aren't `run FILE` with its options, unless a write failed; no file and no output is touched.
    ensures usage { command_in words.now ≡ None → (result.status.0 ≡ 2) ⊎ (result.status.0 ≡ 4) }
    ensures only_usage { result.status.0 ≡ 2 → command_in words.now ≡ None }
    ensures usage_line { result.status.0 ≡ 2 → Appends (N.written notes.old) (N.written notes.new) usage_line }
    ensures untouched { command_in words.now ≡ None → (files.new ≡ files.old) × (out.new ≡ out.old) }

    // Status 3: only where a read failed, and wherever one did, unless a write failed too.
    ensures read { result.status.0 ≡ 3 → Rose (F.faults files.old) (F.faults files.new) }
    ensures read_grew { F.faults files.old < F.faults files.new → (result.status.0 ≡ 3) ⊎ (result.status.0 ≡ 4) }
    ensures read_line { (command : Order) → command_in words.now ≡ Some command → result.status.0 ≡ 3 → Appends (N.written notes.old) (N.written notes.new) (cannot_read_line command.name) }

    // Status 4: only where a write failed, and wherever one did.
    ensures write { result.status.0 ≡ 4 → Rose (K.faults out.old) (K.faults out.new) ⊎ Rose (N.faults notes.old) (N.faults notes.new) }
    ensures out_grew { K.faults out.old < K.faults out.new → result.status.0 ≡ 4 }
    ensures notes_grew { N.faults notes.old < N.faults notes.new → result.status.0 ≡ 4 }

    // Statuses 5 and 7: the source is refused, and the notes say why.
    ensures refused { (result.status.0 ≡ 5) ⊎ (result.status.0 ≡ 7) → WritesRefusal result.script result.status.0 (N.written notes.old) (N.written notes.new) }
    ensures silent { (result.status.0 ≡ 2) ⊎ (result.status.0 ≡ 3) ⊎ (result.status.0 ≡ 5) ⊎ (result.status.0 ≡ 7) → out.new ≡ out.old }

    // Statuses 4 and 9: what was written is the beginning of what would have been.
    ensures part { (result.status.0 ≡ 4) ⊎ (result.status.0 ≡ 9) → PrintsPart result.script result.journal.turns result.journal.entries (K.written out.old) (K.written out.new) }
    ensures usage_part { command_in words.now ≡ None → result.status.0 ≡ 4 → AppendsPrefix (N.written notes.old) (N.written notes.new) usage_line }
    ensures notes_part { (command : Order) → command_in words.now ≡ Some command → (result.status.0 ≡ 4) ⊎ (result.status.0 ≡ 9) → LinePart command.name result.script result.journal.turns result.journal.entries (N.written notes.old) (N.written notes.new) (F.faults files.old) (F.faults files.new) }

    // What a write fault leaves: behind one on the output nothing goes to the notes; where only the notes failed, the output has
    // all that the script prints, or the script wasn't run. Where memory was wanting the notes are as they were.
    ensures stopped { K.faults out.old < K.faults out.new → notes.new ≡ notes.old }
    ensures memory { result.status.0 ≡ 9 → notes.new ≡ notes.old }
    ensures said { (command : Order) → command_in words.now ≡ Some command → result.status.0 ≡ 4 → Rose (K.faults out.old) (K.faults out.new) ⊎ SaysAll result.script result.journal.turns result.journal.entries (K.written out.old) (K.written out.new) ⊎ ((out.new ≡ out.old) × (IsUnrun result.script ⊎ Rose (F.faults files.old) (F.faults files.new))) }

    // The script is the file's bytes, of too long a file the first 1,000,001, and empty where none was read.
    ensures script { (command : Order) (bytes : List ℕ) → command_in words.now ≡ Some command → F.bytes files.old command.name ≡ Some bytes → (result.status.0 ≡ 0) ⊎ (result.status.0 ≡ 1) ⊎ (result.status.0 ≡ 5) ⊎ (result.status.0 ≡ 7) → result.script ≡ take 1000001 bytes }
    ensures script_part { (command : Order) (bytes : List ℕ) → command_in words.now ≡ Some command → F.bytes files.old command.name ≡ Some bytes → (result.script ≡ []) ⊎ (result.script ≡ take 1000001 bytes) }
    ensures no_script { (result.status.0 ≡ 2) ⊎ (result.status.0 ≡ 3) → result.script ≡ [] }
    ensures no_script_of_usage { command_in words.now ≡ None → result.script ≡ [] }
    ensures told { Stays (F.bytes files.old) (F.bytes files.new) }

    // The journal has the choices of the run, and the command's limits, or the default ones; what can't be read or isn't run made
    // no choice, whatever the status.
    ensures journal { result.journal ≡ journal_of (command_in words.now) result.journal.entries }
    ensures no_choice { (result.status.0 ≡ 2) ⊎ (result.status.0 ≡ 3) ⊎ (result.status.0 ≡ 5) ⊎ (result.status.0 ≡ 7) → result.journal.entries ≡ [] }
    ensures no_choice_of_usage { command_in words.now ≡ None → result.journal.entries ≡ [] }
    ensures no_choice_unread { F.faults files.old < F.faults files.new → result.journal.entries ≡ [] }
    ensures no_choice_unrun { IsUnrun result.script → result.journal.entries ≡ [] }
{
    match command_of(words) {
        Some(command) => {
            let Command {
                name,
                workers,
                turns,
            } = command;
            run_file(alloc, name, Limits { workers, turns }, files, out, notes)
        }
        None => close(
            2,
            Limits::DEFAULT,
            Seq::empty(alloc),
            Seq::empty(alloc),
            USAGE,
            notes,
        ),
    }
}
