//! Assignments.

ghost use Rattle.std.specs.Prelude.{◌≡◌, Some, Result, Ok, Err, IfOk};
ghost use Rattle.pl_meaning.specs.declared.halt.Halt.{Halt};
ghost use Rattle.pl_meaning.specs.Promises.{Went, Halts, Keeps, at};
ghost use Rattle.pl_meaning.specs.Parts.{below, assignment as assignment_part, assigned as assigned_part, assigned_whole, assigned_part as assigned_places, list_assignment as list_part, targets_from, target_of};

use crate::expressions::value;
use crate::lists::places;
use crate::outputs::listed;
use crate::showing::{show_target, show_targets};
use pl_access::{fail, write, write_part};
use pl_base::{ErrKind, Place};
use pl_meaning::{Exit, Frame, Halt, Memory, World, slot_of};
use pl_resolve::Resolved;
use pl_syntax::{Expr, Name, Target};
use pl_values::Value;
use std::alloc::Global;

/// An assignment: the value first, then the target.
#[cycle(running)]
#[tactic(auto, unfolding(pl_meaning::specs::Parts::assignment))]
pub(crate) fn assignment<W: World>(
    alloc: Global,
    program: &Resolved,
    levels: u32,
    frame: Frame,
    memory: &mut Memory<'_>,
    world: &mut W,
    show: bool,
    target: &Target,
    e: &Expr,
) -> Result<Exit, Halt>
    ensures ok { IfOk result (λ gained. Went (assignment_part program.now (below program.now levels) frame show target.now e.now) (at memory.old (W.log world.old)) gained (at memory.new (W.log world.new))) }
    ensures err { (x : Halt) → result ≡ Err x → Halts (assignment_part program.now (below program.now levels) frame show target.now e.now) (at memory.old (W.log world.old)) x (at memory.new (W.log world.new)) }
    ensures keeps { Keeps (at memory.old (W.log world.old)) (at memory.new (W.log world.new)) }
{
    let v = value(alloc, program, levels, frame, memory, world, e)?;
    assign(alloc, program, levels, frame, memory, world, target, v)?;
    show_target(alloc, program, frame, memory, world, show, target)?;
    Ok(Exit::Onward)
}

/// A target gets a value.
#[cycle(running)]
#[tactic(auto, unfolding(pl_meaning::specs::Parts::assigned))]
fn assign<W: World>(
    alloc: Global,
    program: &Resolved,
    levels: u32,
    frame: Frame,
    memory: &mut Memory<'_>,
    world: &mut W,
    target: &Target,
    v: Value,
) -> Result<(), Halt>
    ensures ok { IfOk result (λ gained. Went (assigned_part program.now (below program.now levels) frame target.now v) (at memory.old (W.log world.old)) gained (at memory.new (W.log world.new))) }
    ensures err { (x : Halt) → result ≡ Err x → Halts (assigned_part program.now (below program.now levels) frame target.now v) (at memory.old (W.log world.old)) x (at memory.new (W.log world.new)) }
    ensures keeps { Keeps (at memory.old (W.log world.old)) (at memory.new (W.log world.new)) }
{
    match target {
        Target::Whole(name) => assign_whole(
            alloc,
            program,
            memory,
            world,
            slot_of(program, frame, &name.text),
            name,
            v,
        ),
        Target::Indexed(name, list) => assign_part(
            alloc,
            program,
            levels,
            frame,
            memory,
            world,
            slot_of(program, frame, &name.text),
            name,
            list.as_slice(),
            v,
        ),
        Target::Braced(name, _) => Err(fail(alloc, ErrKind::WrongPlace, name.place)),
    }
}

/// A variable gets a value, if there is the variable.
fn assign_whole<W: World>(
    alloc: Global,
    _program: &Resolved,
    memory: &mut Memory<'_>,
    world: &W,
    slot: Option<u32>,
    name: &Name,
    v: Value,
) -> Result<(), Halt>
    ensures ok { IfOk result (λ gained. Went (assigned_whole _program.now slot name.now v) (at memory.old (W.log world.now)) gained (at memory.new (W.log world.now))) }
    ensures err { (x : Halt) → result ≡ Err x → Halts (assigned_whole _program.now slot name.now v) (at memory.old (W.log world.now)) x (at memory.new (W.log world.now)) }
{
    match slot {
        None => Err(fail(alloc, ErrKind::NoValue, name.place)),
        Some(slot) => write(alloc, memory, world, slot, v),
    }
}

/// A part of a variable gets a value, if there is the variable.
#[cycle(running)]
fn assign_part<W: World>(
    alloc: Global,
    program: &Resolved,
    levels: u32,
    frame: Frame,
    memory: &mut Memory<'_>,
    world: &mut W,
    slot: Option<u32>,
    name: &Name,
    list: &[Expr],
    v: Value,
) -> Result<(), Halt>
    ensures ok { IfOk result (λ gained. Went (assigned_places program.now (below program.now levels) frame slot name.now list.now v) (at memory.old (W.log world.old)) gained (at memory.new (W.log world.new))) }
    ensures err { (x : Halt) → result ≡ Err x → Halts (assigned_places program.now (below program.now levels) frame slot name.now list.now v) (at memory.old (W.log world.old)) x (at memory.new (W.log world.new)) }
    ensures keeps { Keeps (at memory.old (W.log world.old)) (at memory.new (W.log world.new)) }
{
    match slot {
        None => Err(fail(alloc, ErrKind::NoValue, name.place)),
        Some(slot) => assign_places(
            alloc, program, levels, frame, memory, world, slot, name, list, v,
        ),
    }
}

/// A part of a variable gets a value: the index list, then the write.
#[cycle(running)]
fn assign_places<W: World>(
    alloc: Global,
    program: &Resolved,
    levels: u32,
    frame: Frame,
    memory: &mut Memory<'_>,
    world: &mut W,
    slot: u32,
    name: &Name,
    list: &[Expr],
    v: Value,
) -> Result<(), Halt>
    ensures ok { IfOk result (λ gained. Went (assigned_places program.now (below program.now levels) frame (Some slot) name.now list.now v) (at memory.old (W.log world.old)) gained (at memory.new (W.log world.new))) }
    ensures err { (x : Halt) → result ≡ Err x → Halts (assigned_places program.now (below program.now levels) frame (Some slot) name.now list.now v) (at memory.old (W.log world.old)) x (at memory.new (W.log world.new)) }
    ensures keeps { Keeps (at memory.old (W.log world.old)) (at memory.new (W.log world.new)) }
{
    let list = places(alloc, program, levels, frame, memory, world, slot, list)?;
    write_part(alloc, memory, world, slot, name.place, list.as_slice(), &v)
}

/// An assignment of several outputs.
#[cycle(running)]
#[tactic(auto, unfolding(pl_meaning::specs::Parts::list_assignment))]
pub(crate) fn list_assignment<W: World>(
    alloc: Global,
    program: &Resolved,
    levels: u32,
    frame: Frame,
    memory: &mut Memory<'_>,
    world: &mut W,
    place: Place,
    show: bool,
    targets: &[Option<Target>],
    e: &Expr,
) -> Result<Exit, Halt>
    ensures ok { IfOk result (λ gained. Went (list_part program.now (below program.now levels) frame place show targets.now e.now) (at memory.old (W.log world.old)) gained (at memory.new (W.log world.new))) }
    ensures err { (x : Halt) → result ≡ Err x → Halts (list_part program.now (below program.now levels) frame place show targets.now e.now) (at memory.old (W.log world.old)) x (at memory.new (W.log world.new)) }
    ensures keeps { Keeps (at memory.old (W.log world.old)) (at memory.new (W.log world.new)) }
{
    let values = listed(
        alloc,
        program,
        levels,
        frame,
        memory,
        world,
        targets.len(),
        e,
    )?;
    assign_all(
        alloc, program, levels, frame, memory, world, place, targets, values,
    )?;
    show_targets(alloc, program, frame, memory, world, show, targets)?;
    Ok(Exit::Onward)
}

/// The targets from the left, each with its value.
#[cycle(running)]
fn assign_all<W: World>(
    alloc: Global,
    program: &Resolved,
    levels: u32,
    frame: Frame,
    memory: &mut Memory<'_>,
    world: &mut W,
    place: Place,
    targets: &[Option<Target>],
    values: Vec<Value>,
) -> Result<(), Halt>
    ensures ok { IfOk result (λ gained. Went (targets_from program.now (below program.now levels) frame place targets.now values.items) (at memory.old (W.log world.old)) gained (at memory.new (W.log world.new))) }
    ensures err { (x : Halt) → result ≡ Err x → Halts (targets_from program.now (below program.now levels) frame place targets.now values.items) (at memory.old (W.log world.old)) x (at memory.new (W.log world.new)) }
    ensures keeps { Keeps (at memory.old (W.log world.old)) (at memory.new (W.log world.new)) }
{
    let mut left = values.into_iter();
    for target in targets {
        let Some(v) = left.next() else {
            return Err(fail(alloc, ErrKind::ArgCount, place));
        };
        assign_each(alloc, program, levels, frame, memory, world, target, v)?;
    }
    Ok(())
}

/// A target of a list gets its value; one without a name lets it go.
#[cycle(running)]
fn assign_each<W: World>(
    alloc: Global,
    program: &Resolved,
    levels: u32,
    frame: Frame,
    memory: &mut Memory<'_>,
    world: &mut W,
    target: &Option<Target>,
    v: Value,
) -> Result<(), Halt>
    ensures ok { IfOk result (λ gained. Went (target_of program.now (below program.now levels) frame target.now v) (at memory.old (W.log world.old)) gained (at memory.new (W.log world.new))) }
    ensures err { (x : Halt) → result ≡ Err x → Halts (target_of program.now (below program.now levels) frame target.now v) (at memory.old (W.log world.old)) x (at memory.new (W.log world.new)) }
    ensures keeps { Keeps (at memory.old (W.log world.old)) (at memory.new (W.log world.new)) }
{
    match target {
        None => Ok(()),
        Some(target) => assign(alloc, program, levels, frame, memory, world, target, v),
    }
}
