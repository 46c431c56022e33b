//! The functions that make arrays from extents.
//!
//! Promised: the array of the definition, and the refusal where it would be too large, before any memory is taken.

ghost use Rattle.std.specs.Prelude.{◌≡◌, ◌*◌, ◌/◌, ◌%◌, ◌<◌, ◌≤◌, ◌==◌, IfOk};
ghost use Rattle.pl_array.specs.Arrays.{most};
ghost use Rattle.pl_array.specs.Cellwise.{truth};
ghost use Rattle.pl_array.specs.Joining.{by_places};
ghost use Rattle.pl_builtin.specs.Making.{uniform, identity, filled, made, shape_for, square_of, block_of};

use crate::arguments::{extent, one_number};
use pl_array::{Arr, Class, Shape};
use pl_base::{ErrKind, NoMemory, Or};
use std::alloc::Global;

/// What an array is filled with.
#[derive(Clone, Copy, Debug, PartialEq, Eq)]
pub(crate) enum Fill {
    Zeros,
    Ones,
    True,
    False,
    /// 1 where the row is the column, else 0.
    Eye,
}

/// One argument: as many rows as columns.
pub(crate) fn square(alloc: Global, fill: Fill, a: &Arr) -> Result<Arr, Or<ErrKind>>
    ensures ok { IfOk result (λ o. square_of fill a.now ≡ Ok o) }
    ensures err { (kind : ErrKind) → result ≡ Err (Or.Is kind) → square_of fill a.now ≡ Err kind }
{
    match one_number(a) {
        Ok(n) => make(alloc, fill, n, n),
        Err(kind) => Err(Or::Is(kind)),
    }
}

/// Two arguments: the rows and the columns.
pub(crate) fn block(alloc: Global, fill: Fill, a: &Arr, b: &Arr) -> Result<Arr, Or<ErrKind>>
    ensures ok { IfOk result (λ o. block_of fill a.now b.now ≡ Ok o) }
    ensures err { (kind : ErrKind) → result ≡ Err (Or.Is kind) → block_of fill a.now b.now ≡ Err kind }
{
    match one_number(a) {
        Ok(rows) => match one_number(b) {
            Ok(cols) => make(alloc, fill, rows, cols),
            Err(kind) => Err(Or::Is(kind)),
        },
        Err(kind) => Err(Or::Is(kind)),
    }
}

/// An array of so many rows and columns, of which a number below 0 asks for none.
pub(crate) fn make(alloc: Global, fill: Fill, rows: i64, cols: i64) -> Result<Arr, Or<ErrKind>>
    ensures ok { IfOk result (λ o. made fill (shape_for rows cols) ≡ Ok o) }
    ensures err { (kind : ErrKind) → result ≡ Err (Or.Is kind) → made fill (shape_for rows cols) ≡ Err kind }
{
    let height = extent(rows);
    let width = extent(cols);
    if height > 1_000_000 || width > 1_000_000 || height * width > 1_000_000 {
        return Err(Or::Is(ErrKind::SizeLimit));
    }
    let s = Shape {
        rows: height as u32,
        cols: width as u32,
    };
    Ok(fill_shape(alloc, fill, s)?)
}

fn fill_shape(alloc: Global, fill: Fill, s: Shape) -> Result<Arr, NoMemory>
    requires limit { s.rows * s.cols ≤ most }
    requires row_limit { s.rows ≤ most }
    requires col_limit { s.cols ≤ most }
    ensures { IfOk result (λ o. o ≡ filled fill s) }
{
    match fill {
        Fill::Zeros => numbers(alloc, 0, s),
        Fill::Ones => numbers(alloc, 1, s),
        Fill::True => truths(alloc, true, s),
        Fill::False => truths(alloc, false, s),
        Fill::Eye => eye(alloc, s),
    }
}

fn numbers(alloc: Global, z: i64, s: Shape) -> Result<Arr, NoMemory>
    requires limit { s.rows * s.cols ≤ most }
    requires row_limit { s.rows ≤ most }
    requires col_limit { s.cols ≤ most }
    ensures { IfOk result (λ o. o ≡ uniform Class.Int z s) }
{
    let cells = vec![in alloc; z; (s.rows * s.cols) as usize]?;
    Ok(Arr::new(Class::Int, s, cells))
}

fn truths(alloc: Global, b: bool, s: Shape) -> Result<Arr, NoMemory>
    requires limit { s.rows * s.cols ≤ most }
    requires row_limit { s.rows ≤ most }
    requires col_limit { s.cols ≤ most }
    ensures { IfOk result (λ o. o ≡ uniform Class.Logical (truth b) s) }
{
    let cells = vec![in alloc; i64::from(b); (s.rows * s.cols) as usize]?;
    Ok(Arr::new(Class::Logical, s, cells))
}

fn eye(alloc: Global, s: Shape) -> Result<Arr, NoMemory>
    requires limit { s.rows * s.cols ≤ most }
    requires row_limit { s.rows ≤ most }
    requires col_limit { s.cols ≤ most }
    ensures { IfOk result (λ o. o ≡ identity s) }
{
    let cells = diagonal(alloc, s)?;
    Ok(Arr::new(Class::Int, s, cells))
}

fn diagonal(alloc: Global, s: Shape) -> Result<Vec<i64>, NoMemory>
    requires { s.rows * s.cols ≤ most }
    ensures { IfOk result (λ v. v.items ≡ by_places (s.rows * s.cols) (λ k. truth (k % s.rows == k / s.rows))) }
{
    if s.rows == 0 {
        return Ok(Vec::new(alloc));
    }
    diagonal_by_place(alloc, s.rows, s.cols)
}

fn diagonal_by_place(alloc: Global, rows: u32, cols: u32) -> Result<Vec<i64>, NoMemory>
    requires rows { 0 < rows }
    requires limit { rows * cols ≤ most }
    ensures { IfOk result (λ v. v.items ≡ by_places (rows * cols) (λ k. truth (k % rows == k / rows))) }
{
    let cells = (0..rows * cols)
        .map(|k| i64::from(k % rows == k / rows))
        .collect(alloc)?;
    Ok(cells)
}
