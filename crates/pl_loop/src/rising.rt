//! The passes of a loop over one workspace, in rising order of the index.
//!
//! Where they all end, they are the loop's iterations: each expression only reads, and what it reads isn't written by an
//! earlier pass (`pl_frame`, `rising_order_needs_one_workspace`). An array that the loop writes is copied once, at the first
//! write to it.

ghost use Rattle.std.specs.Prelude.{◌≡◌, ◌++◌, [], true, IfOk, IfErr, OnOk};
ghost use Rattle.pl_meaning.specs.Logs.{loop_question};
ghost use Rattle.pl_meaning.specs.Loops.{is_index};
ghost use Rattle.pl_frame.specs.Rising.{Risen, output_with, outputs_in};
ghost use Rattle.pl_loop.specs.Passes.{EachOnce, Founded};

use crate::passing::pass;
use crate::printer::Printer;
use pl_base::{NoMemory, Seq};
use pl_meaning::{Loop, Memory, Output};
use pl_resolve::Resolved;
use pl_values::{Env, Value};
use std::alloc::Global;

/// What all passes left: their workspace, and the text that they printed.
#[derive(Drop)]
pub(crate) struct Passed<'s> {
    pub(crate) env: Env<'s>,
    pub(crate) text: Vec<u8>,
}

/// Runs all passes, or those before the first that isn't carried out to its end; then the value of the index there.
pub(crate) fn rise<'s>(
    alloc: Global,
    program: &Resolved,
    question: Loop<'_>,
    env: &'s Env<'_>,
    turns: u64,
    depth: u32,
) -> Result<Result<Passed<'s>, i64>, NoMemory>
    ensures done { IfOk result (λ r. IfOk r (λ passed. Founded program.now (loop_question question.entry) env.now → Risen program.now depth (loop_question question.entry) env.now question.entry.count passed.env passed.text.items)) }
    ensures index { IfOk result (λ r. IfErr r (λ i. is_index (loop_question question.entry) i ≡ true)) }
{
    let mut memory = Memory {
        env: Env::over(alloc, env)?,
        turns,
        calls: 0,
    };
    let mut printer = Printer {
        text: Vec::new(alloc),
    };
    for k in 0..question.count {
        let Some(i) = question.first.checked_add(i64::from(k)) else {
            return Err(NoMemory);
        };
        if !pass(
            alloc,
            program,
            question,
            depth,
            env,
            &mut memory,
            &mut printer,
            i,
        )? {
            return Ok(Err(i));
        }
    }
    Ok(Ok(Passed {
        env: memory.env,
        text: printer.text,
    }))
}

/// Adds the variable of a slot, if it has a value.
fn push_output(outputs: &mut Seq<Output>, slot: u32, value: Option<Value>) -> Result<(), NoMemory>
    ensures { OnOk result (outputs.new ≡ outputs.old ++ output_with slot value []) }
{
    match value {
        Some(value) => {
            outputs.push(Output { slot, value })?;
            Ok(())
        }
        None => Ok(()),
    }
}

/// The variables of these slots that have a value, moved out of a workspace.
pub(crate) fn take_outputs(
    alloc: Global,
    slots: &[u32],
    end: Env<'_>,
) -> Result<Seq<Output>, NoMemory>
    requires { EachOnce slots.now }
    ensures { IfOk result (λ outs. outs ≡ outputs_in end.entry slots.now) }
{
    let mut left = end;
    let mut outputs = Seq::empty(alloc);
    for slot in slots {
        let value = left.take(alloc, *slot)?;
        push_output(&mut outputs, *slot, value)?;
    }
    Ok(outputs)
}
