//! The errors of a loop: of which iteration or which variable, and why.

ghost use Rattle.std.specs.Prelude.{◌≡◌, IfOk};
ghost use Rattle.pl_meaning.specs.Logs.{loop_question};
ghost use Rattle.pl_meaning.specs.Loops.{headed as heading, name_at, clash_error as clashing};

use itoa::Buffer;
use pl_base::{NoMemory, ScriptError, Text};
use pl_errors::message;
use pl_meaning::{Clash, Loop};
use pl_resolve::Resolved;
use std::alloc::Global;

/// An error of an iteration, headed by its value of the index.
pub(crate) fn headed(alloc: Global, i: i64, error: &ScriptError) -> Result<ScriptError, NoMemory>
    ensures { IfOk result (λ e. e ≡ heading i error.now) }
{
    let mut buffer = Buffer::new();
    let mut text = Vec::from_slice(alloc, b"iteration ")?;
    text.extend_from_slice(buffer.format(i).as_bytes())?;
    text.extend_from_slice(b": ")?;
    text.extend_from_slice(error.text.bytes())?;
    Ok(ScriptError {
        kind: error.kind,
        place: error.place,
        text: Text::from_vec(text),
    })
}

/// The name of the variable of a slot; empty where there is none.
pub(crate) fn name_of(
    alloc: Global,
    program: &Resolved,
    question: Loop<'_>,
    slot: u32,
) -> Result<Text, NoMemory>
    ensures { IfOk result (λ name. name ≡ name_at program.now (loop_question question.entry) slot) }
{
    let Some(scope) = program.scopes.items().get(question.scope) else {
        return Text::of(alloc, b"");
    };
    match scope.name(slot) {
        Some(name) => name.copy(alloc),
        None => Text::of(alloc, b""),
    }
}

/// The error of a variable of which the writes don't go together.
pub(crate) fn clash_error(
    alloc: Global,
    program: &Resolved,
    question: Loop<'_>,
    clash: &Clash,
) -> Result<ScriptError, NoMemory>
    ensures { IfOk result (λ e. e ≡ clashing program.now (loop_question question.entry) clash.now) }
{
    let name = name_of(alloc, program, question, clash.slot)?;
    let mut text = Vec::from_slice(alloc, b"variable ")?;
    text.extend_from_slice(name.bytes())?;
    text.extend_from_slice(b": ")?;
    text.extend_from_slice(message(clash.kind).as_bytes())?;
    Ok(ScriptError {
        kind: clash.kind,
        place: question.place,
        text: Text::from_vec(text),
    })
}
