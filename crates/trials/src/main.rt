//! Makes inputs of seven kinds by a generator with a fixed seed, and compares two bodies of one rule on each: what the
//! interpreter prints, run by `top`, and what a plain, slow program here says, or another script that is to print the same.
//!
//! Proved: that the program is safe and ends. That it makes the inputs that it is meant to make, and that both bodies
//! agree, is shown by its stored output alone.
#![tactic(auto)]

mod control;
mod expression;
mod generator;
mod lines;
mod loops;
mod operators;
mod rows;
mod running;
mod sources;
mod statements;
mod tally;
mod texts;
mod writing;

use anyhow::Result;
use generator::Generator;
use pl_base::NoMemory;
use std::process::ExitCode;
use std::sync::Wait;
use std::thread::Threads;
use tally::Tally;

/// How many scripts there are of a kind, and how many inputs a script has.
const SCRIPTS: u32 = 24;

const INPUTS: u32 = 50;

const SEED: u64 = 20_240_229;

#[derive(Clone, Copy)]
enum Kind {
    Control,
    Expressions,
    Indexing,
    Lines,
    Loops,
    Sources,
    Texts,
}

static KINDS: [Kind; 7] = [
    Kind::Control,
    Kind::Expressions,
    Kind::Indexing,
    Kind::Lines,
    Kind::Loops,
    Kind::Sources,
    Kind::Texts,
];

impl Kind {
    fn name(self) -> &'static str {
        match self {
            Kind::Control => "control",
            Kind::Expressions => "expressions",
            Kind::Indexing => "indexing",
            Kind::Lines => "lines",
            Kind::Loops => "loops",
            Kind::Sources => "sources",
            Kind::Texts => "texts",
        }
    }

    /// Makes and runs the inputs of one script.
    fn run<R: AllocGlobal + Threads + Wait + Sync>(
        self,
        rt: &R,
        generator: &mut Generator,
        tally: &mut Tally,
    ) -> Result<(), NoMemory> {
        match self {
            Kind::Control => control::run(rt, rt.alloc(), generator, INPUTS, tally),
            Kind::Expressions => expression::run(rt, rt.alloc(), generator, INPUTS, tally),
            Kind::Indexing => rows::run(rt, rt.alloc(), generator, INPUTS, tally),
            Kind::Lines => lines::run(rt, rt.alloc(), generator, INPUTS, tally),
            Kind::Loops => loops::run(rt, rt.alloc(), generator, INPUTS, tally),
            Kind::Sources => sources::run(rt, rt.alloc(), generator, INPUTS, tally),
            Kind::Texts => texts::run(rt, rt.alloc(), generator, INPUTS, tally),
        }
    }
}

/// All scripts of a kind. Answers whether both bodies agreed on each input.
fn try_kind<R: AllocGlobal + Print + Threads + Wait + Sync>(rt: &R, kind: Kind) -> Result<bool> {
    let mut generator = Generator::new(SEED);
    let mut tally = Tally::new();
    for _ in 0..SCRIPTS {
        kind.run(rt, &mut generator, &mut tally)?;
    }
    tally.report(rt, kind.name())?;
    Ok(tally.agrees())
}

fn main(rt: HostRuntime) -> Result<ExitCode> {
    let mut agrees = true;
    for kind in KINDS.iter() {
        let whole = try_kind(&rt, *kind)?;
        agrees = agrees && whole;
    }
    if agrees {
        Ok(ExitCode::SUCCESS)
    } else {
        Ok(ExitCode::from(1))
    }
}
