//! Lists of expressions, from the left: the positions of an index, the arguments of a call, the elements of
//! square brackets.

ghost use Rattle.std.specs.Prelude.{◌≡◌, ℕ, Result, Ok, Err, IfOk};
ghost use Rattle.pl_meaning.specs.declared.halt.Halt.{Halt};
ghost use Rattle.pl_meaning.specs.Logs.{Workspace, Log};
ghost use Rattle.pl_meaning.specs.Promises.{Went, Halts, Keeps, at};
ghost use Rattle.pl_meaning.specs.Parts.{below, value_in, argument_of, within as within_index, places as places_part, values as values_part, given_of, elements as elements_part, rows as rows_part};

use crate::expressions::value;
use pl_access::fail;
use pl_base::{ErrKind, Place};
use pl_meaning::{Ends, Frame, Halt, Memory, World};
use pl_operators::Argument;
use pl_resolve::Resolved;
use pl_syntax::{Expr, ExprKind};
use pl_values::Value;
use sqlite_items::Items;
use std::alloc::Global;

/// The frame of a position of an index of a variable.
fn within(frame: Frame, slot: u32, position: usize, count: usize) -> Frame
    ensures { result ≡ within_index frame slot position count }
{
    Frame {
        ends: Some(Ends {
            slot,
            position,
            count,
        }),
        ..frame
    }
}

/// A colon, or the value of an expression.
#[cycle(running)]
fn argument<W: World>(
    alloc: Global,
    program: &Resolved,
    levels: u32,
    frame: Frame,
    memory: &mut Memory<'_>,
    world: &mut W,
    e: &Expr,
) -> Result<Argument, Halt>
    ensures ok { IfOk result (λ gained. Went (argument_of (value_in program.now (below program.now levels)) frame e.now) (at memory.old (W.log world.old)) gained (at memory.new (W.log world.new))) }
    ensures err { (x : Halt) → result ≡ Err x → Halts (argument_of (value_in program.now (below program.now levels)) frame e.now) (at memory.old (W.log world.old)) x (at memory.new (W.log world.new)) }
    ensures keeps { Keeps (at memory.old (W.log world.old)) (at memory.new (W.log world.new)) }
{
    match &e.kind {
        ExprKind::Colon => Ok(Argument::Colon),
        _ => {
            let v = value(alloc, program, levels, frame, memory, world, e)?;
            Ok(Argument::Given(v))
        }
    }
}

/// The index list of a variable.
#[cycle(running)]
#[tactic(auto, using(pl_meaning::proofs::Cut::cut), unfolding(pl_meaning::specs::Parts::places))]
pub(crate) fn places<W: World>(
    alloc: Global,
    program: &Resolved,
    levels: u32,
    frame: Frame,
    memory: &mut Memory<'_>,
    world: &mut W,
    slot: u32,
    list: &[Expr],
) -> Result<Vec<Argument>, Halt>
    ensures ok { IfOk result (λ gained. Went (places_part (value_in program.now (below program.now levels)) frame slot list.now) (at memory.old (W.log world.old)) gained.items (at memory.new (W.log world.new))) }
    ensures err { (x : Halt) → result ≡ Err x → Halts (places_part (value_in program.now (below program.now levels)) frame slot list.now) (at memory.old (W.log world.old)) x (at memory.new (W.log world.new)) }
    ensures keeps { Keeps (at memory.old (W.log world.old)) (at memory.new (W.log world.new)) }
{
    let mut done = Vec::new(alloc);
    for e in list {
        let here = within(frame, slot, done.len(), list.len());
        let a = argument(alloc, program, levels, here, memory, world, e)?;
        done.push(a)?;
    }
    Ok(done)
}

/// The value of a call's argument, which is no colon.
fn given(alloc: Global, place: Place, a: Argument) -> Result<Value, Halt>
    ensures ok { IfOk result (λ gained. (env : Workspace) (turns calls : ℕ) (l : Log) → Went (given_of place a) (record { env = env; turns = turns; calls = calls; log = l }) gained (record { env = env; turns = turns; calls = calls; log = l })) }
    ensures err { (x : Halt) → result ≡ Err x → (env : Workspace) (turns calls : ℕ) (l : Log) → Halts (given_of place a) (record { env = env; turns = turns; calls = calls; log = l }) x (record { env = env; turns = turns; calls = calls; log = l }) }
{
    match a {
        Argument::Colon => Err(fail(alloc, ErrKind::BadKind, place)),
        Argument::Given(v) => Ok(v),
    }
}

/// The arguments of a call.
#[cycle(running)]
#[tactic(auto, using(pl_meaning::proofs::Cut::cut), unfolding(pl_meaning::specs::Parts::values))]
pub(crate) fn values<W: World>(
    alloc: Global,
    program: &Resolved,
    levels: u32,
    frame: Frame,
    memory: &mut Memory<'_>,
    world: &mut W,
    place: Place,
    list: &[Expr],
) -> Result<Vec<Value>, Halt>
    ensures ok { IfOk result (λ gained. Went (values_part (value_in program.now (below program.now levels)) frame place list.now) (at memory.old (W.log world.old)) gained.items (at memory.new (W.log world.new))) }
    ensures err { (x : Halt) → result ≡ Err x → Halts (values_part (value_in program.now (below program.now levels)) frame place list.now) (at memory.old (W.log world.old)) x (at memory.new (W.log world.new)) }
    ensures keeps { Keeps (at memory.old (W.log world.old)) (at memory.new (W.log world.new)) }
{
    let mut done = Vec::new(alloc);
    for e in list {
        let a = argument(alloc, program, levels, frame, memory, world, e)?;
        let v = given(alloc, place, a)?;
        done.push(v)?;
    }
    Ok(done)
}

/// The elements of a row of square brackets.
#[cycle(running)]
#[tactic(auto, using(pl_meaning::proofs::Cut::cut), unfolding(pl_meaning::specs::Parts::elements))]
fn elements<W: World>(
    alloc: Global,
    program: &Resolved,
    levels: u32,
    frame: Frame,
    memory: &mut Memory<'_>,
    world: &mut W,
    list: &[Expr],
) -> Result<Items<Value>, Halt>
    ensures ok { IfOk result (λ gained. Went (elements_part (value_in program.now (below program.now levels)) frame list.now) (at memory.old (W.log world.old)) gained (at memory.new (W.log world.new))) }
    ensures err { (x : Halt) → result ≡ Err x → Halts (elements_part (value_in program.now (below program.now levels)) frame list.now) (at memory.old (W.log world.old)) x (at memory.new (W.log world.new)) }
    ensures keeps { Keeps (at memory.old (W.log world.old)) (at memory.new (W.log world.new)) }
{
    let mut done = Items::new(alloc);
    for e in list {
        let v = value(alloc, program, levels, frame, memory, world, e)?;
        done.push(v)?;
    }
    Ok(done)
}

/// The elements of all rows.
#[cycle(running)]
#[tactic(auto, using(pl_meaning::proofs::Cut::cut), unfolding(pl_meaning::specs::Parts::rows))]
pub(crate) fn rows<W: World>(
    alloc: Global,
    program: &Resolved,
    levels: u32,
    frame: Frame,
    memory: &mut Memory<'_>,
    world: &mut W,
    lists: &[Items<Expr>],
) -> Result<Vec<Items<Value>>, Halt>
    ensures ok { IfOk result (λ gained. Went (rows_part (value_in program.now (below program.now levels)) frame lists.now) (at memory.old (W.log world.old)) gained.items (at memory.new (W.log world.new))) }
    ensures err { (x : Halt) → result ≡ Err x → Halts (rows_part (value_in program.now (below program.now levels)) frame lists.now) (at memory.old (W.log world.old)) x (at memory.new (W.log world.new)) }
    ensures keeps { Keeps (at memory.old (W.log world.old)) (at memory.new (W.log world.new)) }
{
    let mut done = Vec::new(alloc);
    for list in lists {
        let row = elements(
            alloc,
            program,
            levels,
            frame,
            memory,
            world,
            list.as_slice(),
        )?;
        done.push(row)?;
    }
    Ok(done)
}
