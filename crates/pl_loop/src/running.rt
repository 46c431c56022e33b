//! A loop over workers, from its question to its answer.

ghost use Rattle.std.specs.Prelude.{◌≡◌, Some, true, IfOk};
ghost use Rattle.pl_meaning.specs.Logs.{loop_question};
ghost use Rattle.pl_meaning.specs.Loops.{loop_answer, is_index, written_slots as slots_written};
ghost use Rattle.pl_loop.specs.Passes.{Founded};

use crate::choosing::{fall, finish, finish_passed};
use crate::iterating::{Failed, iterate, iterate_all};
use crate::premises::is_founded;
use crate::printer::Printer;
use crate::rising::rise;
use crate::variables::begin_all;
use crate::writing::loop_slots;
use pl_base::{Choice, NoMemory};
use pl_meaning::{Answer, Loop};
use pl_resolve::Resolved;
use pl_values::Env;
use std::alloc::Global;

/// What a loop came to: the choice under which it is answered, and the answer.
#[derive(Debug, Drop)]
pub struct Done {
    pub choice: Choice,
    pub answer: Answer,
}

/// Runs each iteration by itself.
fn by_iterations(
    alloc: Global,
    program: &Resolved,
    question: Loop<'_>,
    env: &Env<'_>,
    turns: u64,
    depth: u32,
    slots: &[u32],
) -> Result<Done, NoMemory>
    requires { slots.now ≡ slots_written program.now (loop_question question) }
    ensures { IfOk result (λ d. loop_answer program.now turns depth (loop_question question.entry) env.now d.choice ≡ Some d.answer) }
{
    let variables = begin_all(alloc, env, slots)?;
    match iterate_all(alloc, program, question, env, turns, depth, variables)? {
        Ok(joined) => finish(alloc, program, question, joined),
        Err(failed) => fall(alloc, failed),
    }
}

/// Runs an iteration by itself; where it doesn't raise, all of them.
fn by_one(
    alloc: Global,
    program: &Resolved,
    question: Loop<'_>,
    env: &Env<'_>,
    turns: u64,
    depth: u32,
    slots: &[u32],
    i: i64,
) -> Result<Done, NoMemory>
    requires slots { slots.now ≡ slots_written program.now (loop_question question) }
    requires index { is_index (loop_question question) i ≡ true }
    ensures { IfOk result (λ d. loop_answer program.now turns depth (loop_question question.entry) env.now d.choice ≡ Some d.answer) }
{
    let mut printer = Printer {
        text: Vec::new(alloc),
    };
    match iterate(alloc, program, question, env, turns, depth, i, &mut printer)? {
        Ok(_) => by_iterations(alloc, program, question, env, turns, depth, slots),
        Err(error) => fall(alloc, Failed { i, error }),
    }
}

/// Runs the passes over one workspace; where one isn't carried out to its end, that iteration by itself.
fn by_passes(
    alloc: Global,
    program: &Resolved,
    question: Loop<'_>,
    env: &Env<'_>,
    turns: u64,
    depth: u32,
    slots: &[u32],
) -> Result<Done, NoMemory>
    requires slots { slots.now ≡ slots_written program.now (loop_question question) }
    requires founded { Founded program.now (loop_question question) env.now }
    ensures { IfOk result (λ d. loop_answer program.now turns depth (loop_question question.entry) env.now d.choice ≡ Some d.answer) }
{
    match rise(alloc, program, question, env, turns, depth)? {
        Ok(passed) => finish_passed(alloc, question, passed, slots),
        Err(i) => by_one(alloc, program, question, env, turns, depth, slots, i),
    }
}

/// Runs a loop over workers from the workspace `env`, each iteration with so many turns and levels, and answers it
/// under a choice that is legal. Want of memory is also answered where an iteration asks a question, or the index goes
/// past 64 bits; neither comes about for the loops that are built.
pub fn run_loop(
    alloc: Global,
    program: &Resolved,
    question: Loop<'_>,
    env: &Env<'_>,
    turns: u64,
    depth: u32,
) -> Result<Done, NoMemory>
    ensures { IfOk result (λ d. loop_answer program.now turns depth (loop_question question.entry) env.now d.choice ≡ Some d.answer) }
{
    let slots = loop_slots(alloc, program, question)?;
    if is_founded(alloc, program, question, env, &slots)? {
        by_passes(alloc, program, question, env, turns, depth, &slots)
    } else {
        by_iterations(alloc, program, question, env, turns, depth, &slots)
    }
}
