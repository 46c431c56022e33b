//! Expressions with several outputs.

ghost use Rattle.std.specs.Prelude.{◌≡◌, Result, Ok, Err, IfOk};
ghost use Rattle.pl_meaning.specs.declared.halt.Halt.{Halt};
ghost use Rattle.pl_meaning.specs.Promises.{Went, Halts, Keeps, at};
ghost use Rattle.pl_eval.specs.Pieces.{lone_value, refused_value};
ghost use Rattle.pl_meaning.specs.Parts.{below, outputs_in, listed_in};

use crate::calling::called;
use crate::expressions::value;
use crate::naming::{arguments_of, callee_of};
use pl_access::fail;
use pl_base::ErrKind;
use pl_meaning::{Frame, Halt, Memory, World};
use pl_resolve::Resolved;
use pl_syntax::Expr;
use pl_values::Value;
use std::alloc::Global;

/// So many outputs of an expression; one that is no call has one value.
#[cycle(running)]
#[tactic(auto, unfolding(pl_meaning::specs::Parts::outputs_in))]
pub(crate) fn outputs<W: World>(
    alloc: Global,
    program: &Resolved,
    levels: u32,
    frame: Frame,
    memory: &mut Memory<'_>,
    world: &mut W,
    wanted: usize,
    e: &Expr,
) -> Result<Vec<Value>, Halt>
    ensures ok { IfOk result (λ gained. Went (outputs_in program.now (below program.now levels) frame wanted e.now) (at memory.old (W.log world.old)) gained.items (at memory.new (W.log world.new))) }
    ensures err { (x : Halt) → result ≡ Err x → Halts (outputs_in program.now (below program.now levels) frame wanted e.now) (at memory.old (W.log world.old)) x (at memory.new (W.log world.new)) }
    ensures keeps { Keeps (at memory.old (W.log world.old)) (at memory.new (W.log world.new)) }
{
    match callee_of(program, frame, e) {
        Some(name) => called(
            alloc,
            program,
            levels,
            frame,
            memory,
            world,
            e.place,
            name,
            wanted,
            arguments_of(e),
        ),
        None => alone(alloc, program, levels, frame, memory, world, e),
    }
}

/// The value of an expression, as the one output.
#[cycle(running)]
#[tactic(auto, using(pl_meaning::proofs::Cut::cut))]
fn alone<W: World>(
    alloc: Global,
    program: &Resolved,
    levels: u32,
    frame: Frame,
    memory: &mut Memory<'_>,
    world: &mut W,
    e: &Expr,
) -> Result<Vec<Value>, Halt>
    ensures ok { IfOk result (λ gained. Went (lone_value program.now (below program.now levels) frame e.now) (at memory.old (W.log world.old)) gained.items (at memory.new (W.log world.new))) }
    ensures err { (x : Halt) → result ≡ Err x → Halts (lone_value program.now (below program.now levels) frame e.now) (at memory.old (W.log world.old)) x (at memory.new (W.log world.new)) }
    ensures keeps { Keeps (at memory.old (W.log world.old)) (at memory.new (W.log world.new)) }
{
    let v = value(alloc, program, levels, frame, memory, world, e)?;
    let mut one = Vec::new(alloc);
    one.push(v)?;
    Ok(one)
}

/// The outputs for a list of targets: of a call alone.
#[cycle(running)]
#[tactic(auto, unfolding(pl_meaning::specs::Parts::listed_in))]
pub(crate) fn listed<W: World>(
    alloc: Global,
    program: &Resolved,
    levels: u32,
    frame: Frame,
    memory: &mut Memory<'_>,
    world: &mut W,
    wanted: usize,
    e: &Expr,
) -> Result<Vec<Value>, Halt>
    ensures ok { IfOk result (λ gained. Went (listed_in program.now (below program.now levels) frame wanted e.now) (at memory.old (W.log world.old)) gained.items (at memory.new (W.log world.new))) }
    ensures err { (x : Halt) → result ≡ Err x → Halts (listed_in program.now (below program.now levels) frame wanted e.now) (at memory.old (W.log world.old)) x (at memory.new (W.log world.new)) }
    ensures keeps { Keeps (at memory.old (W.log world.old)) (at memory.new (W.log world.new)) }
{
    match callee_of(program, frame, e) {
        Some(name) => called(
            alloc,
            program,
            levels,
            frame,
            memory,
            world,
            e.place,
            name,
            wanted,
            arguments_of(e),
        ),
        None => refused(alloc, program, levels, frame, memory, world, e),
    }
}

/// An expression that is no call, where outputs are listed: its value, and then an error.
#[cycle(running)]
fn refused<W: World>(
    alloc: Global,
    program: &Resolved,
    levels: u32,
    frame: Frame,
    memory: &mut Memory<'_>,
    world: &mut W,
    e: &Expr,
) -> Result<Vec<Value>, Halt>
    ensures ok { IfOk result (λ gained. Went (refused_value program.now (below program.now levels) frame e.now) (at memory.old (W.log world.old)) gained.items (at memory.new (W.log world.new))) }
    ensures err { (x : Halt) → result ≡ Err x → Halts (refused_value program.now (below program.now levels) frame e.now) (at memory.old (W.log world.old)) x (at memory.new (W.log world.new)) }
    ensures keeps { Keeps (at memory.old (W.log world.old)) (at memory.new (W.log world.new)) }
{
    value(alloc, program, levels, frame, memory, world, e)?;
    Err(fail(alloc, ErrKind::ArgCount, e.place))
}
