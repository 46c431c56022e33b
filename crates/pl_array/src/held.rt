//! How the cells of an array are kept: one number takes no memory, more stand in a vector of the
//! array's own, or in one that several arrays share until one of them is written.
//!
//! Promised: whichever form it is, the calls see and change the list of cells alone. A write to cells
//! that nobody else holds is in place; where memory is wanting, nothing has changed.

ghost use Rattle.std.specs.Prelude.{◌≡◌, ℕ, ◌-◌, ◌<◌, ◌≤◌, ℤ, pos, ◌++◌, length, slice_set, replicate, IfOk, MatchResult};
ghost use Rattle.std.specs.Arc.{arc_value};
ghost use Rattle.std.specs.List.{All};
ghost use Rattle.pl_array.specs.Inner.{cells_of};
ghost use Rattle.pl_array.specs.Arrays.{filled, written};

use pl_base::NoMemory;
use std::alloc::Global;
use std::slice;
use std::sync::Arc;

#[derive(Debug, Drop)]
pub(crate) enum Cells {
    One(i64),
    Own(Vec<i64>),
    Shared(Arc<Vec<i64>, Global>),
}

impl Cells {
    /// These cells, moved; takes no memory.
    pub(crate) fn of(items: Vec<i64>) -> Cells
        ensures { cells_of result ≡ items.items }
    {
        if let [v] = items.as_slice() {
            return Cells::One(*v);
        }
        Cells::Own(items)
    }

    pub(crate) fn items(&self) -> &[i64]
        ensures { result.now ≡ cells_of self.now }
    {
        match self {
            Cells::One(v) => slice::from_ref(v),
            Cells::Own(items) => items.as_slice(),
            Cells::Shared(items) => items.as_slice(),
        }
    }

    pub(crate) fn copy(&self, alloc: Global) -> Result<Cells, NoMemory>
        ensures { IfOk result (λ c. cells_of c ≡ cells_of self.now) }
    {
        match self {
            Cells::One(v) => Ok(Cells::One(*v)),
            Cells::Own(items) => Ok(Cells::Own(Vec::from_slice(alloc, items.as_slice())?)),
            Cells::Shared(items) => Ok(Cells::Shared(items.clone()?)),
        }
    }

    /// From now on a copy costs no memory. Without memory for that, nothing changes.
    pub(crate) fn share(self, alloc: Global) -> Cells
        ensures { cells_of result ≡ cells_of self }
    {
        match self {
            Cells::Own(items) => match Arc::new(alloc, items) {
                Ok(shared) => Cells::Shared(shared),
                Err(failed) => Cells::Own(failed.value),
            },
            other => other,
        }
    }

    pub(crate) fn set(&mut self, alloc: Global, place: usize, v: i64) -> Result<(), NoMemory>
        requires { place < length (cells_of self.old) }
        ensures { MatchResult result (λ _. cells_of self.new ≡ slice_set (cells_of self.old) place v) (λ _. cells_of self.new ≡ cells_of self.old) }
    {
        match self {
            Cells::One(cell) => {
                *cell = v;
                Ok(())
            }
            Cells::Own(items) => {
                items[place] = v;
                Ok(())
            }
            Cells::Shared(shared) => set_shared(alloc, shared, place, v),
        }
    }

    /// Fills up to a count, and then writes each number to its place.
    pub(crate) fn put(
        &mut self,
        alloc: Global,
        count: usize,
        places: &[u32],
        values: &[i64],
    ) -> Result<(), NoMemory>
        requires room { length (cells_of self.old) ≤ count }
        requires places { All (λ place. place < count) places.now }
        requires pairs { length places.now ≡ length values.now }
        ensures { MatchResult result (λ _. cells_of self.new ≡ written (filled (cells_of self.old) count) places.now values.now) (λ _. cells_of self.new ≡ cells_of self.old) }
    {
        match self {
            Cells::One(v) => {
                let mut items = Vec::from_slice(alloc, slice::from_ref(v))?;
                put_own(&mut items, count, places, values)?;
                *self = Cells::of(items).share(alloc);
                Ok(())
            }
            Cells::Own(items) => put_own(items, count, places, values),
            Cells::Shared(shared) => put_shared(alloc, shared, count, places, values),
        }
    }
}

fn set_shared(
    alloc: Global,
    shared: &mut Arc<Vec<i64>, Global>,
    place: usize,
    v: i64,
) -> Result<(), NoMemory>
    requires { place < length (arc_value shared.old).items }
    ensures { MatchResult result (λ _. (arc_value shared.new).items ≡ slice_set (arc_value shared.old).items place v) (λ _. (arc_value shared.new).items ≡ (arc_value shared.old).items) }
{
    if let Some(items) = Arc::get_mut(shared) {
        items[place] = v;
        return Ok(());
    }
    let mut items = Vec::from_slice(alloc, shared.as_slice())?;
    items[place] = v;
    *shared = Arc::new(alloc, items)?;
    Ok(())
}

fn put_shared(
    alloc: Global,
    shared: &mut Arc<Vec<i64>, Global>,
    count: usize,
    places: &[u32],
    values: &[i64],
) -> Result<(), NoMemory>
    requires room { length (arc_value shared.old).items ≤ count }
    requires places { All (λ place. place < count) places.now }
    requires pairs { length places.now ≡ length values.now }
    ensures { MatchResult result (λ _. (arc_value shared.new).items ≡ written (filled (arc_value shared.old).items count) places.now values.now) (λ _. (arc_value shared.new).items ≡ (arc_value shared.old).items) }
{
    if let Some(items) = Arc::get_mut(shared) {
        return put_own(items, count, places, values);
    }
    let mut items = Vec::from_slice(alloc, shared.as_slice())?;
    put_own(&mut items, count, places, values)?;
    *shared = Arc::new(alloc, items)?;
    Ok(())
}

fn put_own(
    items: &mut Vec<i64>,
    count: usize,
    places: &[u32],
    values: &[i64],
) -> Result<(), NoMemory>
    requires room { length items.old.items ≤ count }
    requires places { All (λ place. place < count) places.now }
    requires pairs { length places.now ≡ length values.now }
    ensures { MatchResult result (λ _. items.new.items ≡ written (filled items.old.items count) places.now values.now) (λ _. items.new.items ≡ items.old.items) }
{
    items.resize(count, 0)?;
    write_each(items.as_mut_slice(), places, values);
    Ok(())
}

fn write_each(cells: &mut [i64], places: &[u32], values: &[i64])
    requires places { All (λ place. place < length cells.old) places.now }
    requires pairs { length places.now ≡ length values.now }
    ensures { cells.new ≡ written cells.old places.now values.now }
{
    for k in 0..places.len() {
        cells[places[k] as usize] = values[k];
    }
}
