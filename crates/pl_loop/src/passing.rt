//! One pass of a loop over one workspace: the body, each statement behind the other.

ghost use Rattle.std.specs.Prelude.{◌≡◌, ℕ, true, IfOk};
ghost use Rattle.std.specs.Option.{option_copied};
ghost use Rattle.pl_meaning.specs.Logs.{loop_question};
ghost use Rattle.pl_meaning.specs.Promises.{at};
ghost use Rattle.pl_frame.specs.Rising.{suits as suits_in, is_array as is_array_in, Pass, Risen};
ghost use Rattle.pl_values.specs.declared.value.Value.{out-Value};
ghost use Rattle.pl_loop.specs.Passes.{Assigned, Founded, Put, Stepped, printer_log};

use crate::iterating::{body_frame, set_index};
use crate::printer::Printer;
use crate::variables::is_mixed;
use pl_access::assign_in;
use pl_base::{NoMemory, Or};
use pl_eval::value;
use pl_meaning::{Halt, Loop, Memory, slot_of};
use pl_operators::{Argument, number};
use pl_resolve::Resolved;
use pl_syntax::{Expr, Name, Stmt, StmtKind, Target};
use pl_values::{Env, Value};
use std::alloc::Global;

/// Whether a value is an array.
fn is_array(value: &Value) -> bool
    ensures { result ≡ is_array_in (out-Value value.now) }
{
    matches!(value, Value::Array(_))
}

/// Whether a value may go into a variable, by what that had before the loop and has now: where it is new with the loop,
/// only an array of the class of what stands there.
fn suits(before: Option<&Value>, now: Option<&Value>, value: &Value) -> bool
    ensures { result ≡ suits_in (option_copied before.entry) (option_copied now.entry) value.now }
{
    match before {
        Some(_) => true,
        None => is_array(value) && !is_mixed(now, value),
    }
}

/// Puts a value into the iteration's own place of a variable, if it may go there and isn't refused.
fn put(
    alloc: Global,
    env: &Env<'_>,
    memory: &mut Memory<'_>,
    slot: u32,
    i: i64,
    value: &Value,
) -> Result<bool, NoMemory>
    ensures { IfOk result (λ is. is ≡ true → Put env.now slot i value.now memory.old.env memory.new.env) }
{
    if !suits(env.get(slot), memory.env.get(slot), value) {
        return Ok(false);
    }
    let places = [Argument::Given(number(i))];
    match assign_in(alloc, &mut memory.env, slot, &places, value) {
        Ok(()) => Ok(true),
        Err(Or::Is(_)) => Ok(false),
        Err(Or::Memory) => Err(NoMemory),
    }
}

/// Ends a value.
fn let_go(_value: Value) {}

/// Assigns an expression's value to the iteration's own place of a variable, if the expression doesn't raise and its value
/// may go there.
fn assign(
    alloc: Global,
    program: &Resolved,
    question: Loop<'_>,
    depth: u32,
    env: &Env<'_>,
    memory: &mut Memory<'_>,
    printer: &mut Printer,
    i: i64,
    name: &Name,
    e: &Expr,
) -> Result<bool, NoMemory>
    ensures { IfOk result (λ is. is ≡ true → Assigned program.now depth (loop_question question.entry) env.now i name.now e.now (at memory.old (printer_log printer.old.text.items)) (at memory.new (printer_log printer.new.text.items))) }
{
    let frame = body_frame(question);
    let Some(slot) = slot_of(program, frame, &name.text) else {
        return Ok(false);
    };
    match value(alloc, program, depth, frame, memory, printer, e) {
        Ok(v) => {
            let went = put(alloc, env, memory, slot, i, &v)?;
            let_go(v);
            Ok(went)
        }
        Err(Halt::Memory) => Err(NoMemory),
        Err(Halt::Raise(_)) => Ok(false),
        Err(Halt::Stopped) => Ok(false),
    }
}

/// Carries out a statement of a pass, if it is such an assignment.
fn step(
    alloc: Global,
    program: &Resolved,
    question: Loop<'_>,
    depth: u32,
    env: &Env<'_>,
    memory: &mut Memory<'_>,
    printer: &mut Printer,
    i: i64,
    s: &Stmt,
) -> Result<bool, NoMemory>
    ensures { IfOk result (λ is. is ≡ true → Stepped program.now depth (loop_question question.entry) env.now i s.now (at memory.old (printer_log printer.old.text.items)) (at memory.new (printer_log printer.new.text.items))) }
{
    match &s.kind {
        StmtKind::Assign(target, e) => match target {
            Target::Indexed(name, _) => assign(
                alloc, program, question, depth, env, memory, printer, i, name, e,
            ),
            Target::Whole(_) | Target::Braced(_, _) => Ok(false),
        },
        _ => Ok(false),
    }
}

/// A pass with this value of the index, from the workspace in which the pass before it ended, if each of its statements is
/// carried out.
pub(crate) fn pass(
    alloc: Global,
    program: &Resolved,
    question: Loop<'_>,
    depth: u32,
    env: &Env<'_>,
    memory: &mut Memory<'_>,
    printer: &mut Printer,
    i: i64,
) -> Result<bool, NoMemory>
    ensures { IfOk result (λ is. is ≡ true → Founded program.now (loop_question question.entry) env.now → (k : ℕ) → Risen program.now depth (loop_question question.entry) env.now k memory.old.env printer.old.text.items → Pass program.now depth (loop_question question.entry) env.now i memory.old.env printer.old.text.items memory.new.env printer.new.text.items) }
{
    set_index(program, question, &mut memory.env, i)?;
    for s in question.body.as_slice() {
        if !step(alloc, program, question, depth, env, memory, printer, i, s)? {
            return Ok(false);
        }
    }
    Ok(true)
}
