//! What is tested before the passes of a loop run over one workspace.

ghost use Rattle.std.specs.Prelude.{◌≡◌, ◌<◌, ℕ, Some, true, length, ◌⊎◌, IfOk};
ghost use Rattle.pl_meaning.specs.Logs.{loop_question};
ghost use Rattle.pl_meaning.specs.Loops.{written_slots};
ghost use Rattle.pl_frame.specs.Ordering.{Each, HasArray, HasSlot, IsNew};
ghost use Rattle.pl_loop.specs.Passes.{Founded};

use crate::iterating::body_frame;
use pl_base::NoMemory;
use pl_forms::is_form;
use pl_meaning::{Loop, slot_of};
use pl_resolve::Resolved;
use pl_values::{Env, Value};
use std::alloc::Global;

/// Whether a slot has an array, or is there and empty.
fn is_ready(env: &Env<'_>, slot: u32) -> bool
    ensures { result ≡ true → HasArray env.now slot ⊎ IsNew env.now slot }
{
    match env.get(slot) {
        Some(Value::Array(a)) => {
            let _cells = a.cells();
            true
        }
        Some(_) => false,
        None => (slot as usize) < env.len(),
    }
}

/// Whether each of these slots has an array, or is there and empty.
fn all_ready(env: &Env<'_>, slots: &[u32]) -> bool
    ensures { result ≡ true → Each (λ slot. HasArray env.now slot ⊎ IsNew env.now slot) slots.now }
{
    for slot in slots {
        if !is_ready(env, *slot) {
            return false;
        }
    }
    true
}

/// Whether the index has a slot in the workspace.
fn has_index(program: &Resolved, question: Loop<'_>, env: &Env<'_>) -> bool
    ensures { result ≡ true → HasSlot program.now (loop_question question.entry) env.now }
{
    match slot_of(program, body_frame(question), &question.index.text) {
        Some(slot) => (slot as usize) < env.len(),
        None => false,
    }
}

/// Whether a loop that writes these slots has what its passes over one workspace rest on.
pub(crate) fn is_founded(
    alloc: Global,
    program: &Resolved,
    question: Loop<'_>,
    env: &Env<'_>,
    slots: &[u32],
) -> Result<bool, NoMemory>
    requires { slots.now ≡ written_slots program.now (loop_question question) }
    ensures { IfOk result (λ is. is ≡ true → Founded program.now (loop_question question.entry) env.now) }
{
    let fits = is_form(
        alloc,
        program,
        body_frame(question),
        question.index,
        question.body,
    )?;
    if !fits {
        return Ok(false);
    }
    let index = has_index(program, question, env);
    if !index {
        return Ok(false);
    }
    Ok(all_ready(env, slots))
}
