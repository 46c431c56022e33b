//! The iterations, one after another, each by itself.

ghost use Rattle.std.specs.Prelude.{◌≡◌, true, [], IfOk, IfErr, OnOk};
ghost use Rattle.pl_meaning.specs.Logs.{loop_question};
ghost use Rattle.pl_meaning.specs.Running.{Raised};
ghost use Rattle.pl_meaning.specs.Loops.{Iter, body_frame as frame_of, start_of, indices, is_index};
ghost use Rattle.pl_loop.specs.Coming.{Ran, Stands};

use crate::printer::Printer;
use crate::variables::{Variable, join_all};
use pl_base::{NoMemory, ScriptError};
use pl_eval::run_body;
use pl_meaning::{Ended, Frame, Loop, slot_of};
use pl_operators::number;
use pl_resolve::Resolved;
use pl_values::Env;
use std::alloc::Global;

/// What iterations come to that are done: the text that they printed, and the variables that they wrote.
#[derive(Drop)]
pub(crate) struct Joined {
    pub(crate) text: Vec<u8>,
    pub(crate) variables: Vec<Variable>,
}

/// The iteration that raised, by its value of the index, and its error.
#[derive(Drop)]
pub(crate) struct Failed {
    pub(crate) i: i64,
    pub(crate) error: ScriptError,
}

/// Where the statements of a body stand: away from the client.
pub(crate) fn body_frame(question: Loop<'_>) -> Frame
    ensures { result ≡ frame_of (loop_question question.entry) }
{
    Frame {
        client: false,
        scope: question.scope,
        given: 0,
        wanted: 0,
        ends: None,
    }
}

/// Puts a value into the slot of the loop's index.
pub(crate) fn set_index(
    program: &Resolved,
    question: Loop<'_>,
    env: &mut Env<'_>,
    i: i64,
) -> Result<(), NoMemory>
    ensures { OnOk result (env.new ≡ start_of program.now (loop_question question.entry) env.old i) }
{
    match slot_of(program, body_frame(question), &question.index.text) {
        Some(slot) => env.set(slot, number(i)),
        None => Ok(()),
    }
}

/// The workspace in which an iteration begins: that before the loop, with its own value of the index.
fn start<'s>(
    alloc: Global,
    program: &Resolved,
    question: Loop<'_>,
    env: &'s Env<'_>,
    i: i64,
) -> Result<Env<'s>, NoMemory>
    ensures { IfOk result (λ e. e ≡ start_of program.now (loop_question question.entry) env.now i) }
{
    let mut start = Env::over(alloc, env)?;
    set_index(program, question, &mut start, i)?;
    Ok(start)
}

/// Runs the body by itself with this value of the index. What it prints is added to the printer's text.
#[tactic(auto, unfolding(pl_meaning::specs::Loops::Iter))]
pub(crate) fn iterate<'s>(
    alloc: Global,
    program: &Resolved,
    question: Loop<'_>,
    env: &'s Env<'_>,
    turns: u64,
    depth: u32,
    i: i64,
    printer: &mut Printer,
) -> Result<Result<Env<'s>, ScriptError>, NoMemory>
    ensures { Ran (Iter program.now turns depth (loop_question question.entry) env.now i) result printer.old.text.items printer.new.text.items }
{
    let frame = body_frame(question);
    let start = start(alloc, program, question, env, i)?;
    match run_body(
        alloc,
        program,
        frame,
        question.body,
        start,
        printer,
        turns,
        depth,
    ) {
        Ok(Ended::Done(end)) => Ok(Ok(end)),
        Ok(Ended::Raised(error)) => Ok(Err(error)),
        Ok(Ended::Stopped) => Err(NoMemory),
        Err(NoMemory) => Err(NoMemory),
    }
}

/// Runs all iterations in order, until one raises.
pub(crate) fn iterate_all(
    alloc: Global,
    program: &Resolved,
    question: Loop<'_>,
    env: &Env<'_>,
    turns: u64,
    depth: u32,
    variables: Vec<Variable>,
) -> Result<Result<Joined, Failed>, NoMemory>
    ensures done { IfOk result (λ r. IfOk r (λ joined. Stands program.now turns depth (loop_question question.entry) env.now (indices question.entry.first question.entry.count) [] variables.items joined.text.items joined.variables.items)) }
    ensures index { IfOk result (λ r. IfErr r (λ failed. is_index (loop_question question.entry) failed.i ≡ true)) }
    ensures raised { IfOk result (λ r. IfErr r (λ failed. (Iter program.now turns depth (loop_question question.entry) env.now failed.i).ending ≡ Raised failed.error [])) }
{
    let mut printer = Printer {
        text: Vec::new(alloc),
    };
    let mut variables = variables;
    for k in 0..question.count {
        let Some(i) = question.first.checked_add(i64::from(k)) else {
            return Err(NoMemory);
        };
        match iterate(alloc, program, question, env, turns, depth, i, &mut printer)? {
            Ok(end) => variables = join_all(alloc, variables, &end, i)?,
            Err(error) => return Ok(Err(Failed { i, error })),
        }
    }
    Ok(Ok(Joined {
        text: printer.text,
        variables,
    }))
}
