//! A name with a list, and ranges.

ghost use Rattle.std.specs.Prelude.{◌≡◌, Result, Ok, Err, IfOk};
ghost use Rattle.pl_meaning.specs.declared.halt.Halt.{Halt};
ghost use Rattle.pl_meaning.specs.Promises.{Went, Halts, Keeps, at};
ghost use Rattle.pl_eval.specs.Pieces.{applied_value};
ghost use Rattle.pl_meaning.specs.Names.{slot_of as slot_named};
ghost use Rattle.pl_meaning.specs.Parts.{below, level_at, value_in, index_or_call, indexed as indexed_part, range as range_part, step_of};

use crate::calling::{applied, first_of};
use crate::doors::picked;
use crate::expressions::value;
use crate::lists::places;
use pl_access::{check, fail, settled};
use pl_base::{ErrKind, Place};
use pl_meaning::{Frame, Halt, Memory, World, slot_of};
use pl_operators::range;
use pl_resolve::Resolved;
use pl_syntax::{Expr, Name};
use pl_values::Value;
use sqlite_items::Boxed;
use std::alloc::Global;

/// A name with a list: an index of a variable, or a call.
#[cycle(running)]
pub(crate) fn application<W: World>(
    alloc: Global,
    program: &Resolved,
    levels: u32,
    frame: Frame,
    memory: &mut Memory<'_>,
    world: &mut W,
    name: &Name,
    list: &[Expr],
) -> Result<Value, Halt>
    ensures ok { IfOk result (λ gained. Went (index_or_call program.now (level_at program.now (below program.now levels)) frame name.now list.now (slot_named program.now frame name.now.text)) (at memory.old (W.log world.old)) gained (at memory.new (W.log world.new))) }
    ensures err { (x : Halt) → result ≡ Err x → Halts (index_or_call program.now (level_at program.now (below program.now levels)) frame name.now list.now (slot_named program.now frame name.now.text)) (at memory.old (W.log world.old)) x (at memory.new (W.log world.new)) }
    ensures keeps { Keeps (at memory.old (W.log world.old)) (at memory.new (W.log world.new)) }
{
    match slot_of(program, frame, &name.text) {
        Some(slot) => indexed(
            alloc, program, levels, frame, memory, world, name, slot, list,
        ),
        None => applied_once(alloc, program, levels, frame, memory, world, name, list),
    }
}

/// A call that is used as a value.
#[cycle(running)]
fn applied_once<W: World>(
    alloc: Global,
    program: &Resolved,
    levels: u32,
    frame: Frame,
    memory: &mut Memory<'_>,
    world: &mut W,
    name: &Name,
    list: &[Expr],
) -> Result<Value, Halt>
    ensures ok { IfOk result (λ gained. Went (applied_value program.now (level_at program.now (below program.now levels)) frame name.now list.now) (at memory.old (W.log world.old)) gained (at memory.new (W.log world.new))) }
    ensures err { (x : Halt) → result ≡ Err x → Halts (applied_value program.now (level_at program.now (below program.now levels)) frame name.now list.now) (at memory.old (W.log world.old)) x (at memory.new (W.log world.new)) }
    ensures keeps { Keeps (at memory.old (W.log world.old)) (at memory.new (W.log world.new)) }
{
    let outputs = applied(alloc, program, levels, frame, memory, world, name, 1, list)?;
    first_of(alloc, name.place, outputs)
}

/// A variable that is indexed.
#[cycle(running)]
#[tactic(auto, unfolding(pl_meaning::specs::Parts::indexed))]
fn indexed<W: World>(
    alloc: Global,
    program: &Resolved,
    levels: u32,
    frame: Frame,
    memory: &mut Memory<'_>,
    world: &mut W,
    name: &Name,
    slot: u32,
    list: &[Expr],
) -> Result<Value, Halt>
    ensures ok { IfOk result (λ gained. Went (indexed_part program.now (value_in program.now (below program.now levels)) frame name.now slot list.now) (at memory.old (W.log world.old)) gained (at memory.new (W.log world.new))) }
    ensures err { (x : Halt) → result ≡ Err x → Halts (indexed_part program.now (value_in program.now (below program.now levels)) frame name.now slot list.now) (at memory.old (W.log world.old)) x (at memory.new (W.log world.new)) }
    ensures keeps { Keeps (at memory.old (W.log world.old)) (at memory.new (W.log world.new)) }
{
    check(alloc, memory, world, slot, name.place)?;
    let list = places(alloc, program, levels, frame, memory, world, slot, list)?;
    picked(
        alloc,
        program,
        frame.client,
        memory,
        world,
        slot,
        name.place,
        list.as_slice(),
    )
}

/// A range's step, where it has one.
#[cycle(running)]
fn stepped<W: World>(
    alloc: Global,
    program: &Resolved,
    levels: u32,
    frame: Frame,
    memory: &mut Memory<'_>,
    world: &mut W,
    step: &Option<Boxed<Expr>>,
) -> Result<Option<Value>, Halt>
    ensures ok { IfOk result (λ gained. Went (step_of (value_in program.now (below program.now levels)) frame step.now) (at memory.old (W.log world.old)) gained (at memory.new (W.log world.new))) }
    ensures err { (x : Halt) → result ≡ Err x → Halts (step_of (value_in program.now (below program.now levels)) frame step.now) (at memory.old (W.log world.old)) x (at memory.new (W.log world.new)) }
    ensures keeps { Keeps (at memory.old (W.log world.old)) (at memory.new (W.log world.new)) }
{
    match step {
        None => Ok(None),
        Some(e) => {
            let v = value(alloc, program, levels, frame, memory, world, e.get())?;
            Ok(Some(v))
        }
    }
}

/// A range.
#[cycle(running)]
#[tactic(auto, using(pl_meaning::proofs::Cut::cut), unfolding(pl_meaning::specs::Parts::range))]
pub(crate) fn span<W: World>(
    alloc: Global,
    program: &Resolved,
    levels: u32,
    frame: Frame,
    memory: &mut Memory<'_>,
    world: &mut W,
    place: Place,
    a: &Expr,
    step: &Option<Boxed<Expr>>,
    b: &Expr,
) -> Result<Value, Halt>
    ensures ok { IfOk result (λ gained. Went (range_part (value_in program.now (below program.now levels)) frame place a.now step.now b.now) (at memory.old (W.log world.old)) gained (at memory.new (W.log world.new))) }
    ensures err { (x : Halt) → result ≡ Err x → Halts (range_part (value_in program.now (below program.now levels)) frame place a.now step.now b.now) (at memory.old (W.log world.old)) x (at memory.new (W.log world.new)) }
    ensures keeps { Keeps (at memory.old (W.log world.old)) (at memory.new (W.log world.new)) }
{
    let first = value(alloc, program, levels, frame, memory, world, a)?;
    let step = stepped(alloc, program, levels, frame, memory, world, step)?;
    let last = value(alloc, program, levels, frame, memory, world, b)?;
    settled!(alloc, place, range(alloc, &first, step.as_ref(), &last))
}
