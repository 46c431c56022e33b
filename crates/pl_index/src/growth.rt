//! How an array grows under an assignment, and whether a value fits the places.
//!
//! Promised: the shape after the assignment, or the refusal: past the limits, or no way to grow that is clear.

ghost use Rattle.std.specs.Prelude.{◌≡◌, ◌⊎◌, ◌*◌, ◌<◌, ◌≤◌, true, length, IfOk};
ghost use Rattle.pl_array.specs.Arrays.{most};
ghost use Rattle.pl_array.specs.Joining.{is_nil};
ghost use Rattle.pl_index.specs.Places.{Inside};
ghost use Rattle.pl_index.specs.Writing.{line_grown, block_grown, fits_line, fits_block, extent_for};

use crate::places::reach_of;
use crate::selecting::{column, row};
use pl_array::{Arr, Shape};
use pl_base::ErrKind;

/// No rows and no columns.
pub(crate) fn is_nothing(s: Shape) -> bool
    ensures { result ≡ is_nil s }
{
    s.rows == 0 && s.cols == 0
}

/// The shape that reaches a subscript among all cells.
pub(crate) fn grow_line(s: Shape, top: u64) -> Result<Shape, ErrKind>
    ensures shape { result ≡ line_grown s top }
    ensures reached { IfOk result (λ o. top ≤ o.rows * o.cols) }
{
    if top <= s.rows as u64 * s.cols as u64 {
        return Ok(s);
    }
    if top > 1_000_000 {
        return Err(ErrKind::SizeLimit);
    }
    grow_clearly(s, top as u32)
}

fn grow_clearly(s: Shape, top: u32) -> Result<Shape, ErrKind>
    requires more { s.rows * s.cols < top }
    requires limit { top ≤ most }
    ensures shape { result ≡ line_grown s top }
    ensures reached { IfOk result (λ o. top ≤ o.rows * o.cols) }
{
    if s.rows == 1 || is_nothing(s) {
        Ok(row(top))
    } else if s.cols == 1 && s.rows > 1 {
        Ok(column(top))
    } else {
        Err(ErrKind::GrowAmbiguous)
    }
}

/// The shape that reaches rows and columns.
pub(crate) fn grow_block(s: Shape, rows: &[u32], cols: &[u32]) -> Result<Shape, ErrKind>
    requires few_rows { length rows.now ≤ most }
    requires few_cols { length cols.now ≤ most }
    ensures shape { result ≡ block_grown s rows.now cols.now }
    ensures inside { IfOk result (λ o. 0 < length rows.now * length cols.now → Inside o rows.now cols.now) }
{
    if rows.len() * cols.len() == 0 {
        return Ok(s);
    }
    let height = reach_of(rows).max(s.rows as u64);
    let width = reach_of(cols).max(s.cols as u64);
    if height > 1_000_000 || width > 1_000_000 || height * width > 1_000_000 {
        return Err(ErrKind::SizeLimit);
    }
    Ok(Shape {
        rows: height as u32,
        cols: width as u32,
    })
}

/// One cell, or as many as places.
pub(crate) fn line_takes(value: &Arr, count: usize) -> bool
    ensures { result ≡ fits_line value.now count }
{
    let cells = value.cells().len();
    cells == 1 || cells == count
}

/// One cell, the shape of the places, or for a line of places a vector of as many cells.
pub(crate) fn block_takes(value: &Arr, rows: usize, cols: usize) -> bool
    requires few_rows { rows ≤ most }
    requires few_cols { cols ≤ most }
    ensures fits { result ≡ fits_block value.now rows cols }
    ensures counts { result ≡ true → (length value.now.cells ≡ 1) ⊎ (length value.now.cells ≡ rows * cols) }
{
    let s = value.shape();
    let cells = value.cells().len();
    let has_shape = s.rows as usize == rows && s.cols as usize == cols;
    let lines = (rows == 1 || cols == 1) && (s.rows == 1 || s.cols == 1);
    cells == 1 || has_shape || lines && cells == rows * cols
}

/// How many places a colon stands for.
pub(crate) fn colon_extent(s: Shape, own: u32, others: u32) -> u32
    ensures { result ≡ extent_for s own others }
{
    if is_nothing(s) { others } else { own }
}
