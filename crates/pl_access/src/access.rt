//! The accesses to the workspace and the turns. Each takes the world only because its promise speaks of the
//! world's log; none speaks to it.

ghost use Rattle.std.specs.Prelude.{◌≡◌, ℕ, IfOk, Result, Ok, Err};
ghost use Rattle.pl_meaning.specs.declared.halt.Halt.{Halt};
ghost use Rattle.pl_values.specs.declared.value.Value.{Value as Held};
ghost use Rattle.pl_meaning.specs.Promises.{Went, Halts, at};
ghost use Rattle.pl_meaning.specs.Accesses.{take_turn as taking_turn, read as reading, write as writing, check as checking, read_part as reading_part, read_end as reading_end, write_part as writing_part, erase_part as erasing_part};

use crate::failing::fail;
use crate::storing::{assign_in, delete_in, shared};
use crate::{decided, settled};
use pl_base::{ErrKind, Place};
use pl_meaning::{Ends, Halt, Memory, World};
use pl_operators::{Argument, extent, select_value};
use pl_values::Value;
use std::alloc::Global;

/// Takes a turn.
#[tactic(auto, unfolding(pl_meaning::specs::Accesses::take_turn))]
pub fn take_turn<W: World>(
    alloc: Global,
    memory: &mut Memory<'_>,
    _world: &W,
    place: Place,
) -> Result<(), Halt>
    ensures ok { IfOk result (λ v. Went (taking_turn place) (at memory.old (W.log _world.now)) v (at memory.new (W.log _world.now))) }
    ensures err { (x : Halt) → result ≡ Err x → Halts (taking_turn place) (at memory.old (W.log _world.now)) x (at memory.new (W.log _world.now)) }
{
    if memory.turns == 0 {
        return Err(fail(alloc, ErrKind::Spent, place));
    }
    memory.turns -= 1;
    Ok(())
}

/// The value of a variable.
#[tactic(auto, unfolding(pl_meaning::specs::Accesses::read))]
pub fn read<W: World>(
    alloc: Global,
    memory: &Memory<'_>,
    _world: &W,
    slot: u32,
    place: Place,
) -> Result<Value, Halt>
    ensures ok { IfOk result (λ v. Went (reading slot place) (at memory.now (W.log _world.now)) v (at memory.now (W.log _world.now))) }
    ensures err { (x : Halt) → result ≡ Err x → Halts (reading slot place) (at memory.now (W.log _world.now)) x (at memory.now (W.log _world.now)) }
{
    match memory.env.get(slot) {
        None => Err(fail(alloc, ErrKind::NoValue, place)),
        Some(value) => Ok(value.copy(alloc)?),
    }
}

/// Gives a variable a value.
#[tactic(auto, unfolding(pl_meaning::specs::Accesses::write))]
pub fn write<W: World>(
    alloc: Global,
    memory: &mut Memory<'_>,
    _world: &W,
    slot: u32,
    value: Value,
) -> Result<(), Halt>
    ensures ok { IfOk result (λ v. Went (writing slot value) (at memory.old (W.log _world.now)) v (at memory.new (W.log _world.now))) }
    ensures err { (x : Halt) → result ≡ Err x → Halts (writing slot value) (at memory.old (W.log _world.now)) x (at memory.new (W.log _world.now)) }
{
    memory.env.set(slot, shared(alloc, value))?;
    Ok(())
}

/// That a variable has a value.
#[tactic(auto, unfolding(pl_meaning::specs::Accesses::check))]
pub fn check<W: World>(
    alloc: Global,
    memory: &Memory<'_>,
    _world: &W,
    slot: u32,
    place: Place,
) -> Result<(), Halt>
    ensures ok { IfOk result (λ v. Went (checking slot place) (at memory.now (W.log _world.now)) v (at memory.now (W.log _world.now))) }
    ensures err { (x : Halt) → result ≡ Err x → Halts (checking slot place) (at memory.now (W.log _world.now)) x (at memory.now (W.log _world.now)) }
{
    match memory.env.get(slot) {
        None => Err(fail(alloc, ErrKind::NoValue, place)),
        Some(_) => Ok(()),
    }
}

/// What an index selects of a variable.
#[tactic(auto, unfolding(pl_meaning::specs::Accesses::read_part))]
pub fn read_part<W: World>(
    alloc: Global,
    memory: &Memory<'_>,
    _world: &W,
    slot: u32,
    place: Place,
    list: &[Argument],
) -> Result<Value, Halt>
    ensures ok { IfOk result (λ gained. Went (reading_part slot place list.now) (at memory.now (W.log _world.now)) gained (at memory.now (W.log _world.now))) }
    ensures err { (x : Halt) → result ≡ Err x → Halts (reading_part slot place list.now) (at memory.now (W.log _world.now)) x (at memory.now (W.log _world.now)) }
{
    match memory.env.get(slot) {
        None => Err(fail(alloc, ErrKind::NoValue, place)),
        Some(v) => settled!(alloc, place, select_value(alloc, v, list)),
    }
}

/// The number that `end` stands for.
#[tactic(auto, unfolding(pl_meaning::specs::Accesses::read_end))]
pub fn read_end<W: World>(
    alloc: Global,
    memory: &Memory<'_>,
    _world: &W,
    ends: Ends,
    place: Place,
) -> Result<u64, Halt>
    ensures ok { IfOk result (λ gained. Went (reading_end ends place) (at memory.now (W.log _world.now)) gained (at memory.now (W.log _world.now))) }
    ensures err { (x : Halt) → result ≡ Err x → Halts (reading_end ends place) (at memory.now (W.log _world.now)) x (at memory.now (W.log _world.now)) }
{
    decided!(
        alloc,
        place,
        extent(memory.env.get(ends.slot), ends.position, ends.count)
    )
}

/// Writes a part of a variable.
#[tactic(auto, unfolding(pl_meaning::specs::Accesses::write_part))]
pub fn write_part<W: World>(
    alloc: Global,
    memory: &mut Memory<'_>,
    _world: &W,
    slot: u32,
    place: Place,
    list: &[Argument],
    v: &Value,
) -> Result<(), Halt>
    ensures ok { IfOk result (λ gained. Went (writing_part slot place list.now v.now) (at memory.old (W.log _world.now)) gained (at memory.new (W.log _world.now))) }
    ensures err { (x : Halt) → result ≡ Err x → Halts (writing_part slot place list.now v.now) (at memory.old (W.log _world.now)) x (at memory.new (W.log _world.now)) }
{
    settled!(
        alloc,
        place,
        assign_in(alloc, &mut memory.env, slot, list, v)
    )
}

/// Deletes a part of a variable.
#[tactic(auto, unfolding(pl_meaning::specs::Accesses::erase_part))]
pub fn erase_part<W: World>(
    alloc: Global,
    memory: &mut Memory<'_>,
    _world: &W,
    slot: u32,
    place: Place,
    list: &[Argument],
) -> Result<(), Halt>
    ensures ok { IfOk result (λ gained. Went (erasing_part slot place list.now) (at memory.old (W.log _world.now)) gained (at memory.new (W.log _world.now))) }
    ensures err { (x : Halt) → result ≡ Err x → Halts (erasing_part slot place list.now) (at memory.old (W.log _world.now)) x (at memory.new (W.log _world.now)) }
{
    settled!(alloc, place, delete_in(alloc, &mut memory.env, slot, list))
}
