//! Slots in a list of their own.

ghost use Rattle.std.specs.Prelude.{◌≡◌, None, replicate, slice_set, IfOk};
ghost use Rattle.std.specs.Option.{option_copied};
ghost use Rattle.pl_values.specs.Workspaces.{value_at};

use crate::value::Value;
use pl_base::NoMemory;
use std::alloc::Global;

/// Slots without values.
pub(crate) fn empty_slots(alloc: Global, count: u32) -> Result<Vec<Option<Value>>, NoMemory>
    ensures { IfOk result (λ v. v.items ≡ replicate count None) }
{
    let mut slots = Vec::with_capacity(alloc, count as usize)?;
    for _slot in 0..count {
        slots.push(None)?;
    }
    Ok(slots)
}

/// What a slot holds.
pub(crate) fn value_in(slots: &[Option<Value>], slot: usize) -> Option<&Value>
    ensures { option_copied result ≡ value_at slots.now slot }
{
    match slots.get(slot) {
        Some(Some(value)) => Some(value),
        _ => None,
    }
}

/// Writes a slot.
pub(crate) fn put_in(slots: &mut Vec<Option<Value>>, slot: usize, held: Option<Value>)
    ensures { slots.new.items ≡ slice_set slots.old.items slot held }
{
    if let Some(place) = slots.get_mut(slot) {
        *place = held;
    }
}

/// Moves a value out of its slot.
pub(crate) fn take_from(slots: &mut Vec<Option<Value>>, slot: usize) -> Option<Value>
    ensures value { result ≡ value_at slots.old.items slot }
    ensures rest { slots.new.items ≡ slice_set slots.old.items slot None }
{
    match slots.get_mut(slot) {
        Some(place) => place.take(),
        None => None,
    }
}
