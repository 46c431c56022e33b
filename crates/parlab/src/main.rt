//! The program `parlab`: the words of its command line, the real files and the two standard streams,
//! handed to the top call, and the status that it answers.
//!
//! No clause can say what the real files and streams take and give. So `carry` stands between, over any: its
//! contract is that of the top call, and `main` has the real ones made and no more.
#![tactic(auto)]

ghost use Rattle.std.specs.Process.{exit_status};
ghost use Rattle.pl_session.specs.Says.{Says, side};

use pl_base::{Free, NoMemory, Text, Word};
use pl_io::{Files, RealFiles, RealSink, Sink};
use std::alloc::Global;
use std::process::ExitCode;
use std::rt::Env;
use std::sync::Wait;
use std::thread::Threads;
use std::{env, io};

/// The words behind the program's name. Words that aren't all UTF-8 can't be had from the system here:
/// they count as none, which is usage.
fn words<R: Env + AllocGlobal>(rt: &R) -> Result<Vec<Word>, NoMemory> {
    let mut words = Vec::new(rt.alloc());
    let args = match env::args(rt) {
        Ok(args) => args,
        Err(e) => {
            if e.kind() == io::ErrorKind::OutOfMemory {
                return Err(NoMemory);
            }
            return Ok(words);
        }
    };
    for word in args.skip(1) {
        words.push(Text::of(rt.alloc(), word.as_bytes())?)?;
    }
    Ok(words)
}

/// Carries out the command line over these files, this output and these notes, and answers the status of the top call.
fn carry<F: Files, K: Sink, N: Sink, R: Threads + Wait + Sync>(
    rt: &R,
    alloc: Global,
    words: &[Word],
    files: &mut F,
    out: &mut K,
    notes: &mut N,
) -> ExitCode
    ensures { Says words.now (side F.bytes F.faults files.old files.new) (side K.written K.faults out.old out.new) (side N.written N.faults notes.old notes.new) (exit_status result) }
{
    let ended = pl_session::top(rt, alloc, words, files, out, notes, &Free);
    ExitCode::from(ended.status.0)
}

fn main(rt: HostRuntime) -> ExitCode {
    let Ok(words) = words(&rt) else {
        return ExitCode::from(9);
    };
    let mut files = RealFiles::new(&rt);
    let mut out = RealSink::new(rt.stdout());
    let mut notes = RealSink::new(rt.stderr());
    carry(
        &rt,
        rt.alloc(),
        words.as_slice(),
        &mut files,
        &mut out,
        &mut notes,
    )
}
