//! Runs one case, over files and sinks in memory.

ghost use Rattle.std.specs.Prelude.{◌≡◌, map, IfOk};
ghost use Rattle.conformance.specs.Runs.{command_lines_of, with_workers as added_to, IsGiven, IsEmpty, Leaves};

use crate::choices;
use crate::compare::Seen;
use pl_base::{Free, NoMemory, Text, Word};
use pl_cases::{Case, Given, Limits};
use pl_io::{MemFiles, MemSink};
use pl_session::top;
use std::alloc::Global;
use std::sync::Wait;
use std::thread::Threads;

/// The counts of workers with which a case for all of them is run.
const WORKERS: [&[u8]; 5] = [b"1", b"2", b"3", b"4", b"16"];

fn copies(alloc: Global, texts: &[Text]) -> Result<Vec<Text>, NoMemory>
    ensures { IfOk result (λ copies. copies.items ≡ texts.now) }
{
    let mut copies = Vec::new(alloc);
    for text in texts {
        copies.push(text.copy(alloc)?)?;
    }
    Ok(copies)
}

/// The bytes of each text.
fn bytes(alloc: Global, texts: &[Text]) -> Result<Vec<Vec<u8>>, NoMemory>
    ensures { IfOk result (λ all. map (λ v. v.items) all.items ≡ texts.now) }
{
    let mut all = Vec::new(alloc);
    for text in texts {
        all.push(Vec::from_slice(alloc, text.bytes())?)?;
    }
    Ok(all)
}

/// The words, and the option with this count of workers.
fn with_workers(alloc: Global, words: &[Word], count: &[u8]) -> Result<Vec<Word>, NoMemory>
    ensures { IfOk result (λ line. line.items ≡ added_to words.now count.now) }
{
    let mut line = copies(alloc, words)?;
    line.push(Text::of(alloc, b"--workers")?)?;
    line.push(Text::of(alloc, count)?)?;
    Ok(line)
}

/// The command lines of a case: its own, or one for each count of workers.
pub fn command_lines(alloc: Global, case: &Case) -> Result<Vec<Vec<Word>>, NoMemory>
    ensures { IfOk result (λ lines. map (λ line. line.items) lines.items ≡ command_lines_of case.now) }
{
    let mut lines = Vec::new(alloc);
    if !case.with_all_workers {
        lines.push(copies(alloc, case.words.items())?)?;
        return Ok(lines);
    }
    for count in &WORKERS {
        lines.push(with_workers(alloc, case.words.items(), count)?)?;
    }
    Ok(lines)
}

fn sink(alloc: Global, limits: &Limits) -> Result<MemSink, NoMemory>
    ensures { IfOk result (λ sink. IsEmpty limits.now sink) }
{
    let fails = Vec::from_slice(alloc, limits.fails.items())?;
    MemSink::new(alloc, limits.room, fails)
}

/// The files of a case.
fn files(alloc: Global, given: &Given) -> Result<MemFiles, NoMemory>
    ensures { IfOk result (λ files. IsGiven given.now files) }
{
    Ok(MemFiles::new(
        copies(alloc, given.names.items())?,
        bytes(alloc, given.bytes.items())?,
        Vec::from_slice(alloc, given.fails.items())?,
    ))
}

/// Runs the case with these words.
pub fn run<R: Threads + Wait + Sync>(
    rt: &R,
    alloc: Global,
    case: &Case,
    words: &[Word],
) -> Result<Seen, NoMemory>
    ensures { IfOk result (λ seen. Leaves case.now words.now seen) }
{
    let mut files = files(alloc, &case.given)?;
    let mut out = sink(alloc, &case.out)?;
    let mut notes = sink(alloc, &case.notes)?;
    let ended = top(rt, alloc, words, &mut files, &mut out, &mut notes, &Free);
    Ok(Seen {
        status: ended.status.0,
        out: Text::of(alloc, out.written())?,
        notes: Text::of(alloc, notes.written())?,
        choices: choices::lines(alloc, ended.journal.entries.items())?,
    })
}
