//! How the slots of a workspace are kept.

ghost use Rattle.std.specs.Prelude.{◌≡◌, length, None, Some, slice_set, IfOk, OnOk, OnErr};
ghost use Rattle.std.specs.Option.{option_copied};
ghost use Rattle.pl_values.specs.Workspaces.{value_at};
ghost use Rattle.pl_values.specs.Inner.{slots_of};

use crate::layers::Layers;
use crate::plain::{put_in, take_from, value_in};
use crate::value::Value;
use pl_base::NoMemory;
use std::alloc::Global;

/// The slots.
#[derive(Drop)]
pub(crate) enum Slots<'b> {
    /// Of its own.
    Own(Vec<Option<Value>>),
    /// Changes over a base.
    Over(Layers<'b>),
}

impl<'b> Slots<'b> {
    /// The same slots, with no changes yet over these.
    pub(crate) fn over<'s>(alloc: Global, under: &'s Slots<'b>) -> Result<Slots<'s>, NoMemory>
        ensures { IfOk result (λ s. slots_of s ≡ slots_of under.now) }
    {
        let layers = match under {
            Slots::Own(slots) => Layers::on(alloc, slots.as_slice())?,
            Slots::Over(layers) => Layers::over(alloc, layers)?,
        };
        Ok(Slots::Over(layers))
    }

    pub(crate) fn len(&self) -> usize
        ensures { result ≡ length (slots_of self.now) }
    {
        match self {
            Slots::Own(slots) => slots.len(),
            Slots::Over(layers) => layers.len(),
        }
    }

    pub(crate) fn get(&self, slot: usize) -> Option<&Value>
        ensures { option_copied result ≡ value_at (slots_of self.now) slot }
    {
        match self {
            Slots::Own(slots) => value_in(slots.as_slice(), slot),
            Slots::Over(layers) => layers.get(slot),
        }
    }

    pub(crate) fn set(&mut self, slot: usize, value: Value) -> Result<(), NoMemory>
        ensures ok { OnOk result (slots_of self.new ≡ slice_set (slots_of self.old) slot (Some value)) }
        ensures err { OnErr result (slots_of self.new ≡ slots_of self.old) }
    {
        match self {
            Slots::Own(slots) => {
                put_in(slots, slot, Some(value));
                Ok(())
            }
            Slots::Over(layers) => {
                layers.set(slot, value)?;
                Ok(())
            }
        }
    }

    pub(crate) fn clear(&mut self, slot: usize)
        ensures { slots_of self.new ≡ slice_set (slots_of self.old) slot None }
    {
        match self {
            Slots::Own(slots) => put_in(slots, slot, None),
            Slots::Over(layers) => layers.clear(slot),
        }
    }

    pub(crate) fn take(&mut self, alloc: Global, slot: usize) -> Result<Option<Value>, NoMemory>
        ensures ok { IfOk result (λ v. v ≡ value_at (slots_of self.old) slot) }
        ensures rest { OnOk result (slots_of self.new ≡ slice_set (slots_of self.old) slot None) }
        ensures err { OnErr result (slots_of self.new ≡ slots_of self.old) }
    {
        match self {
            Slots::Own(slots) => Ok(take_from(slots, slot)),
            Slots::Over(layers) => {
                let taken = layers.take(alloc, slot)?;
                Ok(taken)
            }
        }
    }
}
