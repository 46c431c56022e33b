//! The choice under which a loop is answered, and the answer.

ghost use Rattle.std.specs.Prelude.{◌≡◌, ℕ, List, Ok, IfOk};
ghost use Rattle.pl_base.specs.declared.choice.Choice.{Choice};
ghost use Rattle.pl_meaning.specs.declared.event.Answer.{Answer};
ghost use Rattle.pl_meaning.specs.Logs.{loop_question};
ghost use Rattle.pl_meaning.specs.Loops.{headed as heading};
ghost use Rattle.pl_resolve.specs.declared.resolved.Resolved.{Resolved};
ghost use Rattle.pl_frame.specs.Rising.{outputs_in};
ghost use Rattle.pl_loop.specs.Passes.{EachOnce};
ghost use Rattle.pl_loop.specs.Coming.{ending_of, outputs_by, no_writes, whole as whole_runs};

use crate::headed::{clash_error, headed, name_of};
use crate::iterating::{Failed, Joined};
use crate::rising::{Passed, take_outputs};
use crate::running::Done;
use crate::variables::settle;
use pl_base::{Bracket, Choice, NoMemory, Seq, Text};
use pl_meaning::{Answer, Clash, Loop, Looped, Output};
use pl_resolve::Resolved;
use std::alloc::Global;

/// All iterations as one run of one piece.
fn whole(alloc: Global, count: u32) -> Result<Bracket, NoMemory>
    ensures { IfOk result (λ bracket. bracket.runs ≡ whole_runs count) }
{
    let mut runs = Seq::empty(alloc);
    if count == 0 {
        return Ok(Bracket { runs });
    }
    let mut run = Seq::empty(alloc);
    run.push(count)?;
    runs.push(run)?;
    Ok(Bracket { runs })
}

/// A loop that is done, with what it printed and its variables.
fn done(
    alloc: Global,
    question: Loop<'_>,
    text: Vec<u8>,
    outputs: Seq<Output>,
) -> Result<Done, NoMemory>
    ensures { IfOk result (λ d. (program : Resolved) → d ≡ ending_of program (loop_question question.entry) text.items (Ok outputs)) }
{
    let bracket = whole(alloc, question.count)?;
    Ok(Done {
        choice: Choice::Runs(bracket),
        answer: Answer::Looped(Looped {
            text: Text::from_vec(text),
            outputs,
        }),
    })
}

/// A loop of which the writes of a variable don't go together.
fn clashed(
    alloc: Global,
    program: &Resolved,
    question: Loop<'_>,
    clash: Clash,
) -> Result<Done, NoMemory>
    ensures { IfOk result (λ d. (text : List ℕ) → d ≡ ending_of program.now (loop_question question.entry) text (Err clash)) }
{
    let name = name_of(alloc, program, question, clash.slot)?;
    let error = clash_error(alloc, program, question, &clash)?;
    Ok(Done {
        choice: Choice::Merge(name),
        answer: Answer::Raised(error),
    })
}

/// A loop of which all passes ended.
pub(crate) fn finish_passed(
    alloc: Global,
    question: Loop<'_>,
    passed: Passed<'_>,
    slots: &[u32],
) -> Result<Done, NoMemory>
    requires { EachOnce slots.now }
    ensures { IfOk result (λ d. (program : Resolved) → d ≡ ending_of program (loop_question question.entry) passed.entry.text.items (Ok (outputs_in passed.entry.env slots.now))) }
{
    let Passed { env, text } = passed;
    let outputs = take_outputs(alloc, slots, env)?;
    done(alloc, question, text, outputs)
}

/// A loop of which no iteration raised.
pub(crate) fn finish(
    alloc: Global,
    program: &Resolved,
    question: Loop<'_>,
    joined: Joined,
) -> Result<Done, NoMemory>
    ensures { IfOk result (λ d. d ≡ ending_of program.now (loop_question question.entry) joined.text.items (outputs_by no_writes joined.variables.items)) }
{
    let Joined { text, variables } = joined;
    match settle(alloc, variables)? {
        Err(clash) => clashed(alloc, program, question, clash),
        Ok(outputs) => done(alloc, question, text, outputs),
    }
}

/// A loop of which an iteration raised.
pub(crate) fn fall(alloc: Global, failed: Failed) -> Result<Done, NoMemory>
    ensures { IfOk result (λ d. d ≡ record { choice = Choice.Fail failed.i; answer = Answer.Raised (heading failed.i failed.error) }) }
{
    let error = headed(alloc, failed.i, &failed.error)?;
    Ok(Done {
        choice: Choice::Fail(failed.i),
        answer: Answer::Raised(error),
    })
}
