//! Runs cases that are written as text: each is a script with its command line, the status, the output and
//! the notes that are wanted, and what is to fail on the way. Takes the names of its files as arguments.
//!
//! Proved: a case passes only where each run that it asks for left what is wanted, where of what a run leaves each
//! clause of `top` holds, and fails only where one left something else; the cases that were read from a file are judged
//! one by one, in their order, a file that can't be read or is malformed is a failure, and `run_files`, where it answers,
//! answers exit status 0 exactly where there is a case and none failed. The cases are exactly those of some text, as
//! `pl_cases` says them; no clause can say that it is the file's. The first line in which two texts differ is exactly
//! that; how failures are printed is proved to be safe and to end, and no more.
#![tactic(auto)]

mod choices;
mod compare;
mod contents;
mod difference;
mod report;
mod run;

use anyhow::Result;
use std::env;
use std::process::ExitCode;

fn main(rt: HostRuntime) -> Result<ExitCode> {
    let mut files = Vec::new(rt.alloc());
    for name in env::args(&rt)?.skip(1) {
        files.push(name)?;
    }
    report::run_files(&rt, &files)
}
