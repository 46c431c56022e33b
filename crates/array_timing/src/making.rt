//! Rows of equal numbers, and the two smallest writes.
//!
//! Promised: a row has so many cells, each the number; a write changes its place alone, and an append
//! leaves the cells and puts one behind them. An array that such a write doesn't fit stays as it was.

ghost use Rattle.std.specs.Prelude.{◌≡◌, ◌≢◌, ◌+◌, ◌<◌, ◌≤◌, [], ◌∷◌, length, replicate, slice_set, IfOk, IsErr};
ghost use Rattle.pl_array.specs.Arrays.{most, with_cells, put_of};
ghost use Rattle.pl_array.specs.declared.class.Class.{Class};

use pl_array::{Arr, Class, Shape};
use pl_base::NoMemory;
use std::alloc::Global;

/// A row of so many equal numbers.
pub(crate) fn row(alloc: Global, number: i64, count: u32) -> Result<Arr, NoMemory>
    requires { count ≤ most }
    ensures { IfOk result (λ a. a ≡ record { class = Class.Int; rows = 1; cols = count; cells = replicate count number }) }
{
    let cells = vec![in alloc; number; count as usize]?;
    let shape = Shape {
        rows: 1,
        cols: count,
    };
    Ok(Arr::new(Class::Int, shape, cells))
}

/// Writes one number to a place that an int64 array has. Any other array stays as it is, and so does each
/// without memory.
pub(crate) fn write_one(
    alloc: Global,
    a: &mut Arr,
    place: usize,
    number: i64,
) -> Result<(), NoMemory>
    ensures written { a.old.class ≡ Class.Int → place < length a.old.cells → IfOk result (λ _. a.new ≡ with_cells a.old (slice_set a.old.cells place number)) }
    ensures other_class { a.old.class ≢ Class.Int → a.new ≡ a.old }
    ensures no_place { length a.old.cells ≤ place → a.new ≡ a.old }
    ensures no_memory { IsErr result → a.new ≡ a.old }
{
    if a.class() == Class::Int && place < a.cells().len() {
        a.set_cell(alloc, place, number)?;
    }
    Ok(())
}

/// Puts one number behind an int64 row of less than a million. Any other array stays as it is, and so
/// does each without memory.
pub(crate) fn append(alloc: Global, a: &mut Arr, number: i64) -> Result<(), NoMemory>
    ensures appended { a.old.class ≡ Class.Int → a.old.rows ≡ 1 → a.old.cols < most → IfOk result (λ _. a.new ≡ put_of a.old 1 (a.old.cols + 1) (a.old.cols ∷ []) (number ∷ [])) }
    ensures other_class { a.old.class ≢ Class.Int → a.new ≡ a.old }
    ensures no_row { a.old.rows ≢ 1 → a.new ≡ a.old }
    ensures full { most ≤ a.old.cols → a.new ≡ a.old }
    ensures no_memory { IsErr result → a.new ≡ a.old }
{
    let shape = a.shape();
    if a.class() == Class::Int && shape.rows == 1 && shape.cols < 1_000_000 {
        let longer = Shape {
            rows: 1,
            cols: shape.cols + 1,
        };
        a.put(alloc, longer, &[shape.cols], &[number])?;
    }
    Ok(())
}
