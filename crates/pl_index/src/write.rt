//! Writing values to places of an array that may have to grow.
//!
//! Promised: each cell is the last value written to it, else the old cell, else 0. Where the cells keep their
//! order it is done in place, and else on a new array, which takes the old one's place at the end.

ghost use Rattle.std.specs.Prelude.{◌≡◌, ◌⊎◌, ◌*◌, ◌/◌, ◌%◌, ◌<◌, ◌≤◌, pos, length, replicate, slice_index_or, IfOk, MatchResult, OnErr, OnOk};
ghost use Rattle.std.specs.List.{All};
ghost use Rattle.pl_array.specs.Arrays.{IsCell};
ghost use Rattle.pl_array.specs.Joining.{by_places, convert_of};
ghost use Rattle.pl_index.specs.Writing.{Grows, old_at, regrown, stored, spread_over, store_by};

use pl_array::{Arr, Shape, convert};
use pl_base::{ErrKind, NoMemory, Or};
use std::alloc::Global;

/// Stores a value at places, in the class of the array.
pub(crate) fn store(
    alloc: Global,
    a: &mut Arr,
    s: Shape,
    places: &[u32],
    value: &Arr,
) -> Result<(), Or<ErrKind>>
    requires grows { Grows a.old s }
    requires places { All (λ place. place < s.rows * s.cols) places.now }
    requires fits { (length value.now.cells ≡ 1) ⊎ (length value.now.cells ≡ length places.now) }
    ensures ok { OnOk result (store_by (convert_of value.now a.old.class) a.old s places.now ≡ Ok a.new) }
    ensures err { (kind : ErrKind) → result ≡ Err (Or.Is kind) → store_by (convert_of value.now a.old.class) a.old s places.now ≡ Err kind }
    ensures kept { OnErr result (a.new ≡ a.old) }
{
    let converted = convert(alloc, value, a.class())?;
    write_spread(alloc, a, s, places, converted.cells())?;
    Ok(())
}

fn write_spread(
    alloc: Global,
    a: &mut Arr,
    s: Shape,
    places: &[u32],
    cells: &[i64],
) -> Result<(), NoMemory>
    requires grows { Grows a.old s }
    requires places { All (λ place. place < s.rows * s.cols) places.now }
    requires fits { (length cells.now ≡ 1) ⊎ (length cells.now ≡ length places.now) }
    requires of_class { All (IsCell a.old.class) cells.now }
    ensures { MatchResult result (λ _. a.new ≡ stored a.old s places.now (spread_over cells.now (length places.now))) (λ _. a.new ≡ a.old) }
{
    if cells.len() == places.len() {
        return write(alloc, a, s, places, cells);
    }
    let values = repeated(alloc, cells, places.len())?;
    write(alloc, a, s, places, values.as_slice())
}

/// The first cell, so many times.
fn repeated(alloc: Global, cells: &[i64], count: usize) -> Result<Vec<i64>, NoMemory>
    ensures { IfOk result (λ v. v.items ≡ replicate count (slice_index_or cells.now 0 (pos 0))) }
{
    let first = cells.first().copied().unwrap_or(0);
    let mut values = Vec::new(alloc);
    values.resize(count, first)?;
    Ok(values)
}

fn write(
    alloc: Global,
    a: &mut Arr,
    s: Shape,
    places: &[u32],
    values: &[i64],
) -> Result<(), NoMemory>
    requires grows { Grows a.old s }
    requires places { All (λ place. place < s.rows * s.cols) places.now }
    requires pairs { length places.now ≡ length values.now }
    requires of_class { All (IsCell a.old.class) values.now }
    ensures { MatchResult result (λ _. a.new ≡ stored a.old s places.now values.now) (λ _. a.new ≡ a.old) }
{
    let old = a.shape();
    if old.rows == s.rows || old.rows == 0 || old.cols <= 1 {
        return write_in_place(alloc, a, s, places, values);
    }
    let mut moved = regrow(alloc, a, s)?;
    write_in_place(alloc, &mut moved, s, places, values)?;
    *a = moved;
    Ok(())
}

/// Where the old cells keep their order.
fn write_in_place(
    alloc: Global,
    a: &mut Arr,
    s: Shape,
    places: &[u32],
    values: &[i64],
) -> Result<(), NoMemory>
    requires grows { Grows a.old s }
    requires order { (a.old.rows ≡ s.rows) ⊎ ((a.old.rows ≡ 0) ⊎ (a.old.cols ≤ 1)) }
    requires places { All (λ place. place < s.rows * s.cols) places.now }
    requires pairs { length places.now ≡ length values.now }
    requires of_class { All (IsCell a.old.class) values.now }
    ensures { MatchResult result (λ _. a.new ≡ stored a.old s places.now values.now) (λ _. a.new ≡ a.old) }
{
    let _valid = a.shape();
    a.put(alloc, s, places, values)
}

/// The array in a greater shape, with zeros in the new cells.
fn regrow(alloc: Global, a: &Arr, s: Shape) -> Result<Arr, NoMemory>
    requires { Grows a.now s }
    ensures { IfOk result (λ o. o ≡ regrown a.now s) }
{
    let _valid = a.shape();
    let cells = regrow_cells(alloc, a, s)?;
    Ok(Arr::new(a.class(), s, cells))
}

fn regrow_cells(alloc: Global, a: &Arr, s: Shape) -> Result<Vec<i64>, NoMemory>
    requires { Grows a.now s }
    ensures { IfOk result (λ v. v.items ≡ by_places (s.rows * s.cols) (old_at a.now s.rows)) }
{
    if s.rows == 0 {
        return Ok(Vec::new(alloc));
    }
    regrow_by_place(alloc, a, s.rows, s.rows * s.cols)
}

fn regrow_by_place(alloc: Global, a: &Arr, rows: u32, count: u32) -> Result<Vec<i64>, NoMemory>
    requires { 0 < rows }
    ensures { IfOk result (λ v. v.items ≡ by_places count (old_at a.now rows)) }
{
    let cells = (0..count).map(|k| old_cell(a, rows, k)).collect(alloc)?;
    Ok(cells)
}

/// The old cell at place k of an array with so many rows, and 0 where there was none.
fn old_cell(a: &Arr, rows: u32, k: u32) -> i64
    requires { 0 < rows }
    ensures { result ≡ old_at a.now rows k }
{
    let s = a.shape();
    if k % rows < s.rows && k / rows < s.cols {
        a.cell(k % rows, k / rows)
    } else {
        0
    }
}
