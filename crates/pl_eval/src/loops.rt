//! Loops: `while` and `for`.

ghost use Rattle.std.specs.Prelude.{◌≡◌, Result, Ok, Err, IfOk};
ghost use Rattle.pl_meaning.specs.declared.halt.Halt.{Halt};
ghost use Rattle.pl_meaning.specs.Promises.{Went, Halts, Keeps, at};
ghost use Rattle.pl_meaning.specs.Parts.{below, level_at, looped, columned, counted as counted_part, columns_from};

use crate::branching::test;
use crate::expressions::value;
use crate::statements::block;
use pl_access::{array_at, fail, take_turn, write};
use pl_array::Arr;
use pl_base::{ErrKind, Place};
use pl_meaning::{Exit, Frame, Halt, Memory, World, slot_of};
use pl_operators::column;
use pl_resolve::Resolved;
use pl_syntax::{Expr, Name, Stmt};
use pl_values::Value;
use sqlite_items::Items;
use std::alloc::Global;

/// A `while`. Each pass takes a turn, so the turns bound the passes.
#[cycle(running)]
#[tactic(auto, unfolding(pl_meaning::specs::Parts::looped))]
pub(crate) fn repeat<W: World>(
    alloc: Global,
    program: &Resolved,
    levels: u32,
    frame: Frame,
    memory: &mut Memory<'_>,
    world: &mut W,
    place: Place,
    e: &Expr,
    body: &Items<Stmt>,
) -> Result<Exit, Halt>
    ensures ok { IfOk result (λ gained. Went (looped program.now (level_at program.now (below program.now levels)) frame place e.now body.now) (at memory.old (W.log world.old)) gained (at memory.new (W.log world.new))) }
    ensures err { (x : Halt) → result ≡ Err x → Halts (looped program.now (level_at program.now (below program.now levels)) frame place e.now body.now) (at memory.old (W.log world.old)) x (at memory.new (W.log world.new)) }
    ensures keeps { Keeps (at memory.old (W.log world.old)) (at memory.new (W.log world.new)) }
{
    let most = memory.turns;
    for _pass in 0..=most {
        if !test(alloc, program, levels, frame, memory, world, place, e)? {
            return Ok(Exit::Onward);
        }
        take_turn(alloc, memory, world, place)?;
        match block(alloc, program, levels, frame, memory, world, body)? {
            Exit::Onward | Exit::Continued => {}
            Exit::Broke => return Ok(Exit::Onward),
            Exit::Returned => return Ok(Exit::Returned),
        }
    }
    Err(fail(alloc, ErrKind::Spent, place))
}

/// A `for`.
#[cycle(running)]
#[tactic(auto, unfolding(pl_meaning::specs::Parts::columned))]
pub(crate) fn count<W: World>(
    alloc: Global,
    program: &Resolved,
    levels: u32,
    frame: Frame,
    memory: &mut Memory<'_>,
    world: &mut W,
    place: Place,
    name: &Name,
    e: &Expr,
    body: &Items<Stmt>,
) -> Result<Exit, Halt>
    ensures ok { IfOk result (λ gained. Went (columned program.now (level_at program.now (below program.now levels)) frame place name.now e.now body.now) (at memory.old (W.log world.old)) gained (at memory.new (W.log world.new))) }
    ensures err { (x : Halt) → result ≡ Err x → Halts (columned program.now (level_at program.now (below program.now levels)) frame place name.now e.now body.now) (at memory.old (W.log world.old)) x (at memory.new (W.log world.new)) }
    ensures keeps { Keeps (at memory.old (W.log world.old)) (at memory.new (W.log world.new)) }
{
    let v = value(alloc, program, levels, frame, memory, world, e)?;
    let a = array_at(alloc, place, &v)?;
    counted(
        alloc,
        program,
        levels,
        frame,
        memory,
        world,
        place,
        slot_of(program, frame, &name.text),
        a,
        body,
    )
}

/// A `for` over an array, if there is its index.
#[cycle(running)]
fn counted<W: World>(
    alloc: Global,
    program: &Resolved,
    levels: u32,
    frame: Frame,
    memory: &mut Memory<'_>,
    world: &mut W,
    place: Place,
    slot: Option<u32>,
    a: &Arr,
    body: &Items<Stmt>,
) -> Result<Exit, Halt>
    ensures ok { IfOk result (λ gained. Went (counted_part program.now (level_at program.now (below program.now levels)) frame place slot a.now body.now) (at memory.old (W.log world.old)) gained (at memory.new (W.log world.new))) }
    ensures err { (x : Halt) → result ≡ Err x → Halts (counted_part program.now (level_at program.now (below program.now levels)) frame place slot a.now body.now) (at memory.old (W.log world.old)) x (at memory.new (W.log world.new)) }
    ensures keeps { Keeps (at memory.old (W.log world.old)) (at memory.new (W.log world.new)) }
{
    match slot {
        None => Err(fail(alloc, ErrKind::NoValue, place)),
        Some(slot) => each_column(
            alloc, program, levels, frame, memory, world, place, slot, a, body,
        ),
    }
}

/// One pass for each column: a turn, the index, the body.
#[cycle(running)]
#[tactic(auto, using(pl_meaning::proofs::Cut::cut))]
fn each_column<W: World>(
    alloc: Global,
    program: &Resolved,
    levels: u32,
    frame: Frame,
    memory: &mut Memory<'_>,
    world: &mut W,
    place: Place,
    slot: u32,
    a: &Arr,
    body: &Items<Stmt>,
) -> Result<Exit, Halt>
    ensures ok { IfOk result (λ gained. Went (columns_from program.now (level_at program.now (below program.now levels)) frame place slot a.now body.now 0 a.now.cols) (at memory.old (W.log world.old)) gained (at memory.new (W.log world.new))) }
    ensures err { (x : Halt) → result ≡ Err x → Halts (columns_from program.now (level_at program.now (below program.now levels)) frame place slot a.now body.now 0 a.now.cols) (at memory.old (W.log world.old)) x (at memory.new (W.log world.new)) }
    ensures keeps { Keeps (at memory.old (W.log world.old)) (at memory.new (W.log world.new)) }
{
    for j in 0..a.shape().cols {
        take_turn(alloc, memory, world, place)?;
        let column = column(alloc, a, j)?;
        write(alloc, memory, world, slot, Value::Array(column))?;
        match block(alloc, program, levels, frame, memory, world, body)? {
            Exit::Onward | Exit::Continued => {}
            Exit::Broke => return Ok(Exit::Onward),
            Exit::Returned => return Ok(Exit::Returned),
        }
    }
    Ok(Exit::Onward)
}
