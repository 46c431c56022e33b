//! Changes over a base that is only read.

ghost use Rattle.std.specs.Prelude.{◌≡◌, is_some, List, [], Option, None, Some, false, length, map, nat_eq, replicate, slice_set, IfOk, OnOk, OnErr};
ghost use Rattle.std.specs.Map.{lookup};
ghost use Rattle.std.specs.Option.{option_copied};
ghost use Rattle.pl_values.specs.declared.value.Value.{Value as Held};
ghost use Rattle.pl_values.specs.Workspaces.{value_at};
ghost use Rattle.pl_values.specs.Inner.{laid, stacked, below_of, shows_at};

use crate::plain::value_in;
use crate::value::{Value, copy_held};
use indexmap::IndexMap;
use pl_base::NoMemory;
use std::alloc::Global;

/// One layer of changes: the values that were set, in order of first assignment, and a mark for each slot
/// that was emptied.
#[derive(Drop)]
pub(crate) struct Layer {
    values: IndexMap<usize, Value>,
    cleared: Vec<bool>,
}

/// A base, the layers over it that others own, the highest first, and the layer of this workspace.
#[derive(Drop)]
pub(crate) struct Layers<'b> {
    base: &'b [Option<Value>],
    below: Vec<&'b Layer>,
    own: Layer,
}

/// What a slot holds under some layers.
fn value_below<'s>(below: &[&'s Layer], base: &'s [Option<Value>], slot: usize) -> Option<&'s Value>
    ensures { option_copied result ≡ value_at (stacked (map (λ layer. layer.now) below.now) base.now) slot }
{
    let Some((layer, rest)) = below.split_first() else {
        return value_in(base, slot);
    };
    if !layer.shows(slot) {
        return None;
    }
    match layer.values.get(&slot) {
        Some(value) => Some(value),
        None => value_below(rest, base, slot),
    }
}

impl Layer {
    /// No changes of so many slots.
    fn fresh(alloc: Global, slots: usize) -> Result<Layer, NoMemory>
        ensures values { IfOk result (λ l. l.values.entries ≡ []) }
        ensures cleared { IfOk result (λ l. l.cleared.items ≡ replicate slots false) }
    {
        let cleared = vec![in alloc; false; slots]?;
        Ok(Layer {
            values: IndexMap::new(alloc),
            cleared,
        })
    }

    /// Whether there is such a slot, and it isn't emptied.
    fn shows(&self, slot: usize) -> bool
        ensures { result ≡ shows_at self.now.cleared.items slot }
    {
        matches!(self.cleared.get(slot), Some(false))
    }

    /// Marks a slot as emptied or not.
    fn mark(&mut self, slot: usize, cleared: bool)
        ensures values { self.new.values ≡ self.old.values }
        ensures cleared { self.new.cleared.items ≡ slice_set self.old.cleared.items slot cleared }
    {
        if let Some(mark) = self.cleared.get_mut(slot) {
            *mark = cleared;
        }
    }

    /// Gives a slot a value.
    fn set(&mut self, slot: usize, value: Value) -> Result<(), NoMemory>
        ensures ok { OnOk result ((below : List (Option Held)) → laid self.new below ≡ slice_set (laid self.old below) slot (Some value)) }
        ensures err { OnErr result ((below : List (Option Held)) → laid self.new below ≡ laid self.old below) }
    {
        let old = self.values.insert(slot, value)?;
        let_go(old);
        self.mark(slot, false);
        Ok(())
    }

    /// Whether it has a value of its own for a slot.
    fn has(&self, slot: usize) -> bool
        ensures { result ≡ is_some (lookup (nat_eq slot) self.now.values.entries) }
    {
        self.values.contains_key(&slot)
    }

    /// Empties a slot, and gives the layer's own value of it.
    fn empty(&mut self, slot: usize) -> Option<Value>
        ensures value { result ≡ lookup (nat_eq slot) self.old.values.entries }
        ensures rest { (below : List (Option Held)) → laid self.new below ≡ slice_set (laid self.old below) slot None }
    {
        let old = self.values.swap_remove(&slot);
        self.mark(slot, true);
        old
    }

    /// Empties a slot of which it has no value.
    fn hide(&mut self, slot: usize)
        ensures { (below : List (Option Held)) → laid self.new below ≡ slice_set (laid self.old below) slot None }
    {
        self.mark(slot, true);
    }
}

/// Ends a value.
fn let_go(_old: Option<Value>) {}

impl<'b> Layers<'b> {
    /// No changes yet over these slots.
    pub(crate) fn on(alloc: Global, base: &'b [Option<Value>]) -> Result<Layers<'b>, NoMemory>
        ensures { IfOk result (λ l. laid l.own (below_of l) ≡ base.now) }
    {
        let own = Layer::fresh(alloc, base.len())?;
        Ok(Layers {
            base,
            below: Vec::new(alloc),
            own,
        })
    }

    pub(crate) fn len(&self) -> usize
        ensures { result ≡ length (laid self.now.own (below_of self.now)) }
    {
        self.own.cleared.len()
    }

    pub(crate) fn get(&self, slot: usize) -> Option<&Value>
        ensures { option_copied result ≡ value_at (laid self.now.own (below_of self.now)) slot }
    {
        if !self.own.shows(slot) {
            return None;
        }
        match self.own.values.get(&slot) {
            Some(value) => Some(value),
            None => value_below(self.below.as_slice(), self.base, slot),
        }
    }
}

impl<'b> Layers<'b> {
    /// The same slots, with no changes yet over these.
    pub(crate) fn over<'s>(alloc: Global, under: &'s Layers<'b>) -> Result<Layers<'s>, NoMemory>
        ensures { IfOk result (λ l. laid l.own (below_of l) ≡ laid under.now.own (below_of under.now)) }
    {
        let mut below = Vec::with_capacity(alloc, under.below.len() + 1)?;
        below.push(&under.own)?;
        below.extend_from_slice(under.below.as_slice())?;
        let own = Layer::fresh(alloc, under.own.cleared.len())?;
        Ok(Layers {
            base: under.base,
            below,
            own,
        })
    }

    pub(crate) fn set(&mut self, slot: usize, value: Value) -> Result<(), NoMemory>
        ensures ok { OnOk result (laid self.new.own (below_of self.new) ≡ slice_set (laid self.old.own (below_of self.old)) slot (Some value)) }
        ensures err { OnErr result (laid self.new.own (below_of self.new) ≡ laid self.old.own (below_of self.old)) }
    {
        self.own.set(slot, value)
    }

    pub(crate) fn clear(&mut self, slot: usize)
        ensures { laid self.new.own (below_of self.new) ≡ slice_set (laid self.old.own (below_of self.old)) slot None }
    {
        let old = self.own.empty(slot);
        let_go(old);
    }

    /// Moves a value out where it is the layer's own, and copies one of the base.
    pub(crate) fn take(&mut self, alloc: Global, slot: usize) -> Result<Option<Value>, NoMemory>
        ensures ok { IfOk result (λ v. v ≡ value_at (laid self.old.own (below_of self.old)) slot) }
        ensures rest { OnOk result (laid self.new.own (below_of self.new) ≡ slice_set (laid self.old.own (below_of self.old)) slot None) }
        ensures err { OnErr result (laid self.new.own (below_of self.new) ≡ laid self.old.own (below_of self.old)) }
    {
        if !self.own.shows(slot) {
            return Ok(None);
        }
        if self.own.has(slot) {
            return Ok(self.own.empty(slot));
        }
        let taken = copy_held(alloc, value_below(self.below.as_slice(), self.base, slot))?;
        self.own.hide(slot);
        Ok(taken)
    }
}
