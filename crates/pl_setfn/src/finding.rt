//! The places of true cells, and how many there are.

ghost use Rattle.std.specs.Prelude.{◌≡◌, ℕ, ◌+◌, ◌≤◌, ℤ, pos, map, length, slice_index_or, count_by, IfOk};
ghost use Rattle.std.specs.List.{range_with_len, filter, All};
ghost use Rattle.pl_array.specs.Arrays.{IsCell, most};
ghost use Rattle.pl_array.specs.Cellwise.{is_true};
ghost use Rattle.pl_setfn.specs.Finding.{lined_up, true_places, find_of, nnz_of};

use pl_array::{Arr, Class, Shape};
use pl_base::NoMemory;
use std::alloc::Global;

/// The places of the true cells, in a row where the array is one row, else in a column.
pub(crate) fn find(alloc: Global, a: &Arr) -> Result<Arr, NoMemory>
    ensures { IfOk result (λ o. o ≡ find_of a.now) }
{
    let places = list_true(alloc, a.cells())?;
    Ok(line_up(Class::Int, a.shape(), places))
}

/// These cells in a row where this shape is one row, else in a column.
pub(crate) fn line_up(class: Class, s: Shape, cells: Vec<i64>) -> Arr
    requires few { length cells.items ≤ most }
    requires of_class { All (IsCell class) cells.items }
    ensures { result ≡ lined_up class s cells.items }
{
    let count = cells.len() as u32;
    let shape = if s.rows == 1 {
        Shape {
            rows: 1,
            cols: count,
        }
    } else {
        Shape {
            rows: count,
            cols: 1,
        }
    };
    Arr::new(class, shape, cells)
}

fn list_true(alloc: Global, cells: &[i64]) -> Result<Vec<i64>, NoMemory>
    requires { length cells.now ≤ most }
    ensures places { IfOk result (λ v. v.items ≡ true_places cells.now) }
    ensures few { IfOk result (λ v. length v.items ≤ length cells.now) }
{
    let places = (0..cells.len() as u32)
        .filter(|k| is_set(cells, *k))
        .map(|k| to_number(k))
        .collect(alloc)?;
    Ok(places)
}

fn is_set(cells: &[i64], k: u32) -> bool
    ensures { result ≡ is_true (slice_index_or cells.now k (pos 0)) }
{
    cells.get(k as usize).copied().unwrap_or(0) != 0
}

/// The number of a place, which counts from 1.
pub(crate) fn to_number(k: u32) -> i64
    ensures { result ≡ pos (k + 1) }
{
    i64::from(k) + 1
}

/// How many cells are true.
pub(crate) fn nnz(a: &Arr) -> Arr
    ensures { result ≡ nnz_of a.now }
{
    Arr::scalar(i64::from(count_true(a.cells())))
}

fn count_true(cells: &[i64]) -> u32
    requires { length cells.now ≤ most }
    ensures { result ≡ count_by is_true cells.now }
{
    cells.iter().filter(|z| **z != 0).count() as u32
}
