//! Runs the cases of a file, counts them, and prints those that failed.

ghost use Rattle.std.specs.Prelude.{◌≡◌, ◌↔◌, ◌<◌, ◌≤◌, ◌∷◌, [], Bool, List, IsTrue, true, false, length, All, IfOk, OnOk};
ghost use Rattle.std.specs.List.{AllZip};
ghost use Rattle.std.specs.Process.{exit_status};
ghost use Rattle.conformance.specs.Judged.{IsRunJudged, IsJudged, IsRead, AreJudged, IsFileJudged, joined, tallied, IsSuccess};

use crate::compare::{Seen, Verdict, judge};
use crate::contents::Contents;
use crate::difference::first_difference;
use crate::run;
use anyhow::Result;
use pl_base::{NoMemory, Or, Word};
use pl_cases::{Case, parse};
use std::process::ExitCode;
use std::rt::Files;
use std::sync::Wait;
use std::thread::Threads;
use std::{fs, io};

/// How many cases passed and failed. A file that can't be read, or whose text is malformed, counts as a failed case.
#[derive(Clone, Copy, Debug)]
pub struct Tally {
    pub passed: u64,
    pub failed: u64,
}

impl Tally {
    pub fn new() -> Tally
        ensures { result ≡ record { passed = 0; failed = 0 } }
    {
        Tally {
            passed: 0,
            failed: 0,
        }
    }

    /// Some case passed and none failed: to run no case at all is no success.
    pub fn is_success(&self) -> bool
        ensures { IsTrue result ↔ ((0 < self.now.passed) × (self.now.failed ≡ 0)) }
    {
        self.passed > 0 && self.failed == 0
    }

    /// The exit status: 0 for success, else 1.
    fn exit_code(&self) -> ExitCode
        ensures { (exit_status result ≡ 0) ↔ ((0 < self.now.passed) × (self.now.failed ≡ 0)) }
    {
        if self.is_success() {
            ExitCode::SUCCESS
        } else {
            ExitCode::from(1)
        }
    }

    /// Counts one case. Once one has failed there is no success any more.
    fn add(&mut self, passed: bool)
        ensures passed { passed ≡ true → self.new.failed ≡ self.old.failed }
        ensures failed { passed ≡ false → 0 < self.new.failed }
        ensures never_falls { self.old.failed ≤ self.new.failed }
        ensures counted { self.new ≡ tallied self.old (passed ∷ []) }
    {
        if passed {
            self.passed = self.passed.saturating_add(1);
        } else {
            self.failed = self.failed.saturating_add(1);
        }
    }
}

/// Runs the cases of all files, prints how many passed and failed, and answers the exit status: 0 where there is a case
/// and none failed.
pub fn run_files<R: Files + AllocGlobal + Print + Threads + Wait + Sync>(
    rt: &R,
    files: &[String],
) -> Result<ExitCode>
    ensures { IfOk result (λ code. (judged : List (List Bool)) × (length judged ≡ length files.now) × All IsFileJudged judged × ((exit_status code ≡ 0) ↔ IsSuccess (joined judged))) }
{
    let mut tally = Tally::new();
    for file in files {
        run_file(rt, file.as_str(), &mut tally)?;
    }
    println!(rt; "{} passed, {} failed", tally.passed, tally.failed)?;
    Ok(tally.exit_code())
}

/// Reads a file of cases, runs them and counts them.
fn run_file<R: Files + AllocGlobal + Print + Threads + Wait + Sync>(
    rt: &R,
    file: &str,
    tally: &mut Tally,
) -> Result<()>
    ensures { OnOk result ((judged : List Bool) × IsFileJudged judged × (tally.new ≡ tallied tally.old judged)) }
{
    let contents = read_file(rt, file)?;
    run_contents(rt, file, &contents, tally)
}

/// What is in the file: what some text has, or it can't be read. No clause can say which text the system's file is.
fn read_file<R: Files + AllocGlobal>(rt: &R, file: &str) -> Result<Contents, NoMemory>
    ensures { IfOk result (λ contents. IsRead contents) }
{
    let Ok(source) = fs::read(rt, file) else {
        return Ok(Contents::Unreadable);
    };
    match parse(rt.alloc(), &source) {
        Ok(cases) => Ok(Contents::Cases(cases)),
        Err(Or::Is(malformed)) => Ok(Contents::Malformed(malformed)),
        Err(Or::Memory) => Err(NoMemory),
    }
}

/// Runs the cases and counts each. A file that can't be read or is malformed is a failure.
fn run_contents<R: AllocGlobal + Print + Threads + Wait + Sync>(
    rt: &R,
    file: &str,
    contents: &Contents,
    tally: &mut Tally,
) -> Result<()>
    ensures { OnOk result ((judged : List Bool) × AreJudged contents.now judged × (tally.new ≡ tallied tally.old judged)) }
{
    match contents {
        Contents::Cases(cases) => run_cases(rt, file, cases.items(), tally),
        Contents::Malformed(malformed) => {
            println!(rt; "{file}:{malformed}")?;
            tally.add(false);
            Ok(())
        }
        Contents::Unreadable => {
            println!(rt; "{file}: cannot be read")?;
            tally.add(false);
            Ok(())
        }
    }
}

/// Runs the cases in their order and counts each.
fn run_cases<R: AllocGlobal + Print + Threads + Wait + Sync>(
    rt: &R,
    file: &str,
    cases: &[Case],
    tally: &mut Tally,
) -> Result<()>
    ensures { OnOk result ((judged : List Bool) × AllZip IsJudged cases.now judged × (tally.new ≡ tallied tally.old judged)) }
{
    for case in cases {
        let passed = run_case(rt, file, case)?;
        tally.add(passed);
    }
    Ok(())
}

/// Runs the case with each of its command lines, up to the first that fails.
fn run_case<R: AllocGlobal + Print + Threads + Wait + Sync>(
    rt: &R,
    file: &str,
    case: &Case,
) -> Result<bool>
    ensures { IfOk result (λ passed. IsJudged case.now passed) }
{
    for words in &run::command_lines(rt.alloc(), case)? {
        if !run_with(rt, file, case, words)? {
            return Ok(false);
        }
    }
    Ok(true)
}

/// Runs the case with one command line, and says so where it fails.
fn run_with<R: AllocGlobal + Print + Threads + Wait + Sync>(
    rt: &R,
    file: &str,
    case: &Case,
    words: &[Word],
) -> Result<bool>
    ensures { IfOk result (λ passed. IsRunJudged case.now words.now passed) }
{
    let seen = run::run(rt, rt.alloc(), case, words)?;
    let verdict = judge(&case.wanted, &seen);
    if matches!(verdict, Verdict::Passed) {
        return Ok(true);
    }
    print_place(rt, file, case, words)?;
    print_verdict(rt, case, &seen, verdict)?;
    Ok(false)
}

/// Where the case stands, its name, and the command line that failed.
fn print_place(rt: &impl Print, file: &str, case: &Case, words: &[Word]) -> io::Result<()> {
    println!(rt;
        "FAILED {file}:{}: {}",
        case.line,
        case.name.bytes().escape_ascii()
    )?;
    print!(rt; "  $")?;
    for word in words {
        let bytes = word.bytes();
        if bytes.is_empty() {
            print!(rt; " ''")?;
        } else {
            print!(rt; " {}", bytes.escape_ascii())?;
        }
    }
    println!(rt; "")
}

fn print_verdict(rt: &impl Print, case: &Case, seen: &Seen, verdict: Verdict) -> io::Result<()> {
    let wanted = &case.wanted;
    match verdict {
        Verdict::Passed => Ok(()),
        Verdict::WrongStatus => {
            println!(rt; "  status: wanted {}, got {}", wanted.status, seen.status)?;
            print_difference(rt, "notes", wanted.notes.bytes(), seen.notes.bytes())
        }
        Verdict::WrongOut => match wanted.outs.items().first() {
            Some(first) => print_difference(rt, "out", first.bytes(), seen.out.bytes()),
            None => Ok(()),
        },
        Verdict::WrongNotes => {
            print_difference(rt, "notes", wanted.notes.bytes(), seen.notes.bytes())
        }
        Verdict::WrongChoices => match &wanted.choices {
            Some(choices) => {
                print_difference(rt, "choices", choices.bytes(), seen.choices.bytes())
            }
            None => Ok(()),
        },
    }
}

/// The first line that differs, if any does.
fn print_difference(rt: &impl Print, name: &str, wanted: &[u8], got: &[u8]) -> io::Result<()> {
    if wanted == got {
        return Ok(());
    }
    let difference = first_difference(wanted, got);
    print!(rt; "  {name}, line {}: wanted ", difference.line)?;
    print_line(rt, difference.wanted)?;
    print!(rt; ", got ")?;
    print_line(rt, difference.got)?;
    println!(rt; "")
}

fn print_line(rt: &impl Print, line: Option<&[u8]>) -> io::Result<()> {
    match line {
        Some(line) => print!(rt; "\"{}\"", line.escape_ascii()),
        None => print!(rt; "nothing more"),
    }
}
