//! Workspaces.

ghost use Rattle.std.specs.Prelude.{◌≡◌, None, Some, length, slice_set, replicate, IfOk, OnOk, OnErr};
ghost use Rattle.std.specs.Option.{option_copied};
ghost use Rattle.pl_values.specs.Workspaces.{value_at};

use crate::plain::empty_slots;
use crate::slots::Slots;
use crate::value::{Value, copy_held};
use pl_base::NoMemory;
use std::alloc::Global;
use std::marker::Model;

/// A workspace: a slot for each variable of its scope, empty or with a value.
#[derive(Drop)]
pub struct Env<'b> {
    slots: Slots<'b>,
}

impl<'b> Model for Env<'b> {
    ghost use Rattle.std.specs.Prelude.{List, Option};
    ghost use Rattle.std.specs.Coded.{codes};
    ghost use Rattle.pl_values.specs.contracts.value.Value as value;
    ghost use Rattle.pl_values.specs.declared.value.Value.{Value as Held};

    ghost Value = { List (Option Held) };

    ghost coded = { Prim.hlevel (codes, value.the_row.coded) };

    ghost use Rattle.pl_values.specs.Inner.{slots_of};

    ghost view = { λ e. slots_of e.slots };
}

impl<'b> Env<'b> {
    /// A workspace of so many empty slots.
    pub fn new(alloc: Global, slots: u32) -> Result<Env<'b>, NoMemory>
        ensures { IfOk result (λ e. e ≡ replicate slots None) }
    {
        let slots = empty_slots(alloc, slots)?;
        Ok(Env {
            slots: Slots::Own(slots),
        })
    }

    /// How many slots there are.
    pub fn len(&self) -> usize
        ensures { result ≡ length self.now }
    {
        self.slots.len()
    }

    /// The value of a slot; `None` also where there is no such slot.
    pub fn get(&self, slot: u32) -> Option<&Value>
        ensures { option_copied result ≡ value_at self.now slot }
    {
        self.slots.get(slot as usize)
    }

    /// Gives a slot a value. Where there is no such slot nothing changes, and without memory neither. A
    /// workspace that isn't over a base needs no memory.
    pub fn set(&mut self, slot: u32, value: Value) -> Result<(), NoMemory>
        ensures ok { OnOk result (self.new ≡ slice_set self.old slot (Some value)) }
        ensures err { OnErr result (self.new ≡ self.old) }
    {
        self.slots.set(slot as usize, value)
    }

    /// Empties a slot.
    pub fn clear(&mut self, slot: u32)
        ensures { self.new ≡ slice_set self.old slot None }
    {
        self.slots.clear(slot as usize);
    }

    /// Moves a value out of its slot, which is empty then. Only a value of the base is copied, and without
    /// memory for that nothing changes.
    pub fn take(&mut self, alloc: Global, slot: u32) -> Result<Option<Value>, NoMemory>
        ensures ok { IfOk result (λ v. v ≡ value_at self.old slot) }
        ensures rest { OnOk result (self.new ≡ slice_set self.old slot None) }
        ensures err { OnErr result (self.new ≡ self.old) }
    {
        self.slots.take(alloc, slot as usize)
    }

    /// An equal workspace that borrows nothing.
    pub fn copy<'c>(&self, alloc: Global) -> Result<Env<'c>, NoMemory>
        ensures { IfOk result (λ e. e ≡ self.now) }
    {
        let mut slots = Vec::with_capacity(alloc, self.len())?;
        for slot in 0..self.len() {
            slots.push(copy_held(alloc, self.slots.get(slot))?)?;
        }
        Ok(Env {
            slots: Slots::Own(slots),
        })
    }

    /// An equal workspace that borrows this one and keeps its own changes alone; this one never changes by
    /// them.
    pub fn over<'s>(alloc: Global, base: &'s Env<'b>) -> Result<Env<'s>, NoMemory>
        ensures { IfOk result (λ e. e ≡ base.now) }
    {
        let slots = Slots::over(alloc, &base.slots)?;
        Ok(Env { slots })
    }
}
