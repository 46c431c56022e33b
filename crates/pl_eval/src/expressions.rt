//! Expressions: each node in the order of its operands.

ghost use Rattle.std.specs.Prelude.{◌≡◌, ℕ, Result, Ok, Err, IfOk};
ghost use Rattle.pl_meaning.specs.declared.halt.Halt.{Halt};
ghost use Rattle.pl_meaning.specs.Logs.{Workspace, Log};
ghost use Rattle.pl_meaning.specs.Promises.{Went, Halts, Keeps, at};
ghost use Rattle.pl_eval.specs.Pieces.{called_value};
ghost use Rattle.pl_meaning.specs.Names.{slot_of as slot_named};
ghost use Rattle.pl_meaning.specs.Parts.{below, level_at, enter, value_in, compound as compound_part, variable_or_call, handle as handle_part};

use crate::applying::{application, span};
use crate::calling::{called, first_of};
use crate::operators::{bracket, end_word, operation, unary};
use crate::running::descend;
use pl_access::{fail, read};
use pl_base::{ErrKind, Place};
use pl_meaning::{Frame, Halt, Memory, World, slot_of};
use pl_operators::{chars, number};
use pl_resolve::{Resolved, function_number};
use pl_syntax::{Expr, ExprKind, Name};
use pl_values::Value;
use std::alloc::Global;

/// The value of an expression.
#[cycle(running)]
#[tactic(auto, using(pl_meaning::proofs::Cut::cut), unfolding(pl_meaning::specs::Parts::value_in))]
pub fn value<W: World>(
    alloc: Global,
    program: &Resolved,
    levels: u32,
    frame: Frame,
    memory: &mut Memory<'_>,
    world: &mut W,
    e: &Expr,
) -> Result<Value, Halt>
    ensures ok { IfOk result (λ gained. Went (value_in program.now (below program.now levels) frame e.now) (at memory.old (W.log world.old)) gained (at memory.new (W.log world.new))) }
    ensures err { (x : Halt) → result ≡ Err x → Halts (value_in program.now (below program.now levels) frame e.now) (at memory.old (W.log world.old)) x (at memory.new (W.log world.new)) }
    ensures keeps { Keeps (at memory.old (W.log world.old)) (at memory.new (W.log world.new)) }
{
    match &e.kind {
        ExprKind::Number(z) => Ok(number(*z)),
        ExprKind::Chars(text) => Ok(chars(alloc, text.bytes())?),
        ExprKind::Var(name) => variable(
            alloc, program, levels, frame, memory, world, e.place, name,
        ),
        ExprKind::Colon => Err(fail(alloc, ErrKind::BadKind, e.place)),
        ExprKind::Apply(_, _)
        | ExprKind::Brace(_, _, _)
        | ExprKind::Unary(_, _)
        | ExprKind::Binary(_, _, _)
        | ExprKind::Range(_, _, _)
        | ExprKind::Rows(_)
        | ExprKind::Func(_)
        | ExprKind::End
        | ExprKind::StateOf(_) => nested(alloc, program, levels, frame, memory, world, e),
    }
}

/// An expression that goes down by a level.
#[cycle(running)]
fn nested<W: World>(
    alloc: Global,
    program: &Resolved,
    levels: u32,
    frame: Frame,
    memory: &mut Memory<'_>,
    world: &mut W,
    e: &Expr,
) -> Result<Value, Halt>
    ensures ok { IfOk result (λ gained. Went (enter (below program.now levels) e.now.place (λ d. compound_part program.now d frame e.now)) (at memory.old (W.log world.old)) gained (at memory.new (W.log world.new))) }
    ensures err { (x : Halt) → result ≡ Err x → Halts (enter (below program.now levels) e.now.place (λ d. compound_part program.now d frame e.now)) (at memory.old (W.log world.old)) x (at memory.new (W.log world.new)) }
    ensures keeps { Keeps (at memory.old (W.log world.old)) (at memory.new (W.log world.new)) }
{
    let levels = descend(alloc, program, levels, e.place)?;
    compound(alloc, program, levels, frame, memory, world, e)
}

/// The same, below its level.
#[cycle(running)]
#[tactic(auto, unfolding(pl_meaning::specs::Parts::compound))]
fn compound<W: World>(
    alloc: Global,
    program: &Resolved,
    levels: u32,
    frame: Frame,
    memory: &mut Memory<'_>,
    world: &mut W,
    e: &Expr,
) -> Result<Value, Halt>
    ensures ok { IfOk result (λ gained. Went (compound_part program.now (level_at program.now (below program.now levels)) frame e.now) (at memory.old (W.log world.old)) gained (at memory.new (W.log world.new))) }
    ensures err { (x : Halt) → result ≡ Err x → Halts (compound_part program.now (level_at program.now (below program.now levels)) frame e.now) (at memory.old (W.log world.old)) x (at memory.new (W.log world.new)) }
    ensures keeps { Keeps (at memory.old (W.log world.old)) (at memory.new (W.log world.new)) }
{
    match &e.kind {
        ExprKind::Apply(name, list) => application(
            alloc,
            program,
            levels,
            frame,
            memory,
            world,
            name,
            list.as_slice(),
        ),
        ExprKind::Unary(op, a) => unary(
            alloc,
            program,
            levels,
            frame,
            memory,
            world,
            e.place,
            *op,
            a.get(),
        ),
        ExprKind::Binary(op, a, b) => operation(
            alloc,
            program,
            levels,
            frame,
            memory,
            world,
            e.place,
            *op,
            a.get(),
            b.get(),
        ),
        ExprKind::Range(a, step, b) => span(
            alloc,
            program,
            levels,
            frame,
            memory,
            world,
            e.place,
            a.get(),
            step,
            b.get(),
        ),
        ExprKind::Rows(lists) => bracket(
            alloc, program, levels, frame, memory, world, e.place, lists,
        ),
        ExprKind::Func(name) => handle(alloc, program, name),
        ExprKind::End => end_word(alloc, frame, memory, world, e.place),
        ExprKind::Brace(_, _, _)
        | ExprKind::StateOf(_)
        | ExprKind::Number(_)
        | ExprKind::Chars(_)
        | ExprKind::Var(_)
        | ExprKind::Colon => Err(fail(alloc, ErrKind::WrongPlace, e.place)),
    }
}

/// A name alone: a variable, or a call without arguments.
#[cycle(running)]
fn variable<W: World>(
    alloc: Global,
    program: &Resolved,
    levels: u32,
    frame: Frame,
    memory: &mut Memory<'_>,
    world: &mut W,
    place: Place,
    name: &Name,
) -> Result<Value, Halt>
    ensures ok { IfOk result (λ gained. Went (variable_or_call program.now (below program.now levels) frame place name.now (slot_named program.now frame name.now.text)) (at memory.old (W.log world.old)) gained (at memory.new (W.log world.new))) }
    ensures err { (x : Halt) → result ≡ Err x → Halts (variable_or_call program.now (below program.now levels) frame place name.now (slot_named program.now frame name.now.text)) (at memory.old (W.log world.old)) x (at memory.new (W.log world.new)) }
    ensures keeps { Keeps (at memory.old (W.log world.old)) (at memory.new (W.log world.new)) }
{
    match slot_of(program, frame, &name.text) {
        Some(slot) => read(alloc, memory, world, slot, name.place),
        None => called_alone(alloc, program, levels, frame, memory, world, place, name),
    }
}

/// A call without arguments that is used as a value.
#[cycle(running)]
fn called_alone<W: World>(
    alloc: Global,
    program: &Resolved,
    levels: u32,
    frame: Frame,
    memory: &mut Memory<'_>,
    world: &mut W,
    place: Place,
    name: &Name,
) -> Result<Value, Halt>
    ensures ok { IfOk result (λ gained. Went (called_value program.now (below program.now levels) frame place name.now) (at memory.old (W.log world.old)) gained (at memory.new (W.log world.new))) }
    ensures err { (x : Halt) → result ≡ Err x → Halts (called_value program.now (below program.now levels) frame place name.now) (at memory.old (W.log world.old)) x (at memory.new (W.log world.new)) }
    ensures keeps { Keeps (at memory.old (W.log world.old)) (at memory.new (W.log world.new)) }
{
    let outputs = called(
        alloc,
        program,
        levels,
        frame,
        memory,
        world,
        place,
        name,
        1,
        &[],
    )?;
    first_of(alloc, name.place, outputs)
}

/// The number of a function behind `@`.
#[tactic(auto, using(pl_meaning::proofs::Cut::cut))]
fn handle(alloc: Global, program: &Resolved, name: &Name) -> Result<Value, Halt>
    ensures ok { IfOk result (λ gained. (env : Workspace) (turns calls : ℕ) (l : Log) → Went (handle_part program.now name.now) (record { env = env; turns = turns; calls = calls; log = l }) gained (record { env = env; turns = turns; calls = calls; log = l })) }
    ensures err { (x : Halt) → result ≡ Err x → (env : Workspace) (turns calls : ℕ) (l : Log) → Halts (handle_part program.now name.now) (record { env = env; turns = turns; calls = calls; log = l }) x (record { env = env; turns = turns; calls = calls; log = l }) }
{
    match function_number(&program.program.functions, &program.extras, &name.text) {
        None => Err(fail(alloc, ErrKind::NoValue, name.place)),
        Some(place) => match u32::try_from(place) {
            Ok(number) => Ok(Value::Func(number)),
            Err(_) => Err(Halt::Memory),
        },
    }
}
