//! The cells of an array in another shape, repeated, or turned over.
//!
//! Promised: the size of an answer is tested before memory is taken.

ghost use Rattle.std.specs.Prelude.{◌≡◌, ℕ, ◌+◌, ◌-◌, ◌*◌, ◌/◌, ◌%◌, ◌<◌, ◌≤◌, ◌^◌, ℤ, pos, slice_index_or, length, IfOk};
ghost use Rattle.std.specs.Option.{SomeIff};
ghost use Rattle.pl_array.specs.Arrays.{IsValid, most, cell_at};
ghost use Rattle.pl_array.specs.Joining.{by_places, is_within};
ghost use Rattle.pl_array.specs.declared.class.Shape.{Shape};
ghost use Rattle.pl_setfn.specs.Arguments.{with_number};
ghost use Rattle.pl_setfn.specs.Layout.{laid_out, reshaped, reshape_to, reshape_of, times, tiled, repmat_of, fliplr_of, flipud_of};

use pl_array::{Arr, Shape};
use pl_base::{ErrKind, NoMemory, Or};
use std::alloc::Global;

/// The cells in their order in a shape of m rows and n columns.
pub(crate) fn reshape(alloc: Global, a: &Arr, m: &Arr, n: &Arr) -> Result<Arr, Or<ErrKind>>
    ensures ok { IfOk result (λ o. reshape_of a.now m.now n.now ≡ Ok o) }
    ensures err { (kind : ErrKind) → result ≡ Err (Or.Is kind) → reshape_of a.now m.now n.now ≡ Err kind }
{
    match m.single() {
        Some(r) => reshape_rows(alloc, a, r, n),
        None => Err(Or::Is(ErrKind::NotScalar)),
    }
}

fn reshape_rows(alloc: Global, a: &Arr, r: i64, n: &Arr) -> Result<Arr, Or<ErrKind>>
    ensures ok { IfOk result (λ o. with_number n.now (λ c. reshape_to a.now r c) ≡ Ok o) }
    ensures err { (kind : ErrKind) → result ≡ Err (Or.Is kind) → with_number n.now (λ c. reshape_to a.now r c) ≡ Err kind }
{
    match n.single() {
        Some(c) => reshape_by(alloc, a, r, c),
        None => Err(Or::Is(ErrKind::NotScalar)),
    }
}

fn reshape_by(alloc: Global, a: &Arr, r: i64, c: i64) -> Result<Arr, Or<ErrKind>>
    ensures ok { IfOk result (λ o. reshape_to a.now r c ≡ Ok o) }
    ensures err { (kind : ErrKind) → result ≡ Err (Or.Is kind) → reshape_to a.now r c ≡ Err kind }
{
    if r < 0 || c < 0 {
        return Err(Or::Is(ErrKind::ArgRange));
    }
    shape_anew(alloc, a, r.unsigned_abs(), c.unsigned_abs())
}

fn shape_anew(alloc: Global, a: &Arr, rows: u64, cols: u64) -> Result<Arr, Or<ErrKind>>
    ensures ok { IfOk result (λ o. reshaped a.now (record { rows = rows; cols = cols }) ≡ Ok o) }
    ensures err { (kind : ErrKind) → result ≡ Err (Or.Is kind) → reshaped a.now (record { rows = rows; cols = cols }) ≡ Err kind }
{
    if rows.checked_mul(cols) != Some(a.cells().len() as u64) {
        return Err(Or::Is(ErrKind::SizeMismatch));
    }
    if rows > 1_000_000 || cols > 1_000_000 {
        return Err(Or::Is(ErrKind::SizeLimit));
    }
    let shape = Shape {
        rows: rows as u32,
        cols: cols as u32,
    };
    let cells = Vec::from_slice(alloc, a.cells())?;
    Ok(Arr::new(a.class(), shape, cells))
}

/// The array, m times downwards and n times to the right.
pub(crate) fn repmat(alloc: Global, a: &Arr, m: &Arr, n: &Arr) -> Result<Arr, Or<ErrKind>>
    ensures ok { IfOk result (λ o. repmat_of a.now m.now n.now ≡ Ok o) }
    ensures err { (kind : ErrKind) → result ≡ Err (Or.Is kind) → repmat_of a.now m.now n.now ≡ Err kind }
{
    match m.single() {
        Some(r) => repeat_rows(alloc, a, how_often(r), n),
        None => Err(Or::Is(ErrKind::NotScalar)),
    }
}

fn repeat_rows(alloc: Global, a: &Arr, down: u64, n: &Arr) -> Result<Arr, Or<ErrKind>>
    ensures ok { IfOk result (λ o. with_number n.now (λ c. tiled a.now (record { rows = a.now.rows * down; cols = a.now.cols * times c })) ≡ Ok o) }
    ensures err { (kind : ErrKind) → result ≡ Err (Or.Is kind) → with_number n.now (λ c. tiled a.now (record { rows = a.now.rows * down; cols = a.now.cols * times c })) ≡ Err kind }
{
    match n.single() {
        Some(c) => tile(alloc, a, down, how_often(c)),
        None => Err(Or::Is(ErrKind::NotScalar)),
    }
}

fn how_often(z: i64) -> u64
    ensures { result ≡ times z }
{
    if z < 0 { 0 } else { z.unsigned_abs() }
}

fn tile(alloc: Global, a: &Arr, down: u64, across: u64) -> Result<Arr, Or<ErrKind>>
    ensures ok { IfOk result (λ o. tiled a.now (record { rows = a.now.rows * down; cols = a.now.cols * across }) ≡ Ok o) }
    ensures err { (kind : ErrKind) → result ≡ Err (Or.Is kind) → tiled a.now (record { rows = a.now.rows * down; cols = a.now.cols * across }) ≡ Err kind }
{
    let s = a.shape();
    if let Some(rows) = extent_of(s.rows, down)
        && let Some(cols) = extent_of(s.cols, across)
        && rows as u64 * cols as u64 <= 1_000_000
    {
        return Ok(tile_to(alloc, a, Shape { rows, cols })?);
    }
    Err(Or::Is(ErrKind::SizeLimit))
}

/// The extent so often, if it is within the limit.
fn extent_of(extent: u32, often: u64) -> Option<u32>
    ensures { SomeIff result (extent * often ≤ most) (extent * often) }
{
    match u64::from(extent).checked_mul(often) {
        Some(n) => if n <= 1_000_000 { Some(n as u32) } else { None },
        None => None,
    }
}

fn tile_to(alloc: Global, a: &Arr, s: Shape) -> Result<Arr, NoMemory>
    requires valid { IsValid a.now }
    requires limit { s.rows * s.cols ≤ most }
    requires row_limit { s.rows ≤ most }
    requires col_limit { s.cols ≤ most }
    requires some_rows { 0 < s.rows → 0 < a.now.rows }
    requires some_cols { 0 < s.cols → 0 < a.now.cols }
    ensures { IfOk result (λ o. o ≡ laid_out a.now s (λ i j. cell_at a.now (i % a.now.rows) (j % a.now.cols))) }
{
    let cells = tile_any(alloc, a, s)?;
    Ok(Arr::new(a.class(), s, cells))
}

fn tile_any(alloc: Global, a: &Arr, s: Shape) -> Result<Vec<i64>, NoMemory>
    requires limit { s.rows * s.cols ≤ most }
    requires some_rows { 0 < s.rows → 0 < a.now.rows }
    requires some_cols { 0 < s.cols → 0 < a.now.cols }
    ensures { IfOk result (λ v. v.items ≡ (laid_out a.now s (λ i j. cell_at a.now (i % a.now.rows) (j % a.now.cols))).cells) }
{
    if s.rows == 0 || s.cols == 0 {
        return Ok(Vec::new(alloc));
    }
    tile_cells(alloc, a, s)
}

fn tile_cells(alloc: Global, a: &Arr, s: Shape) -> Result<Vec<i64>, NoMemory>
    requires limit { s.rows * s.cols ≤ most }
    requires rows { 0 < s.rows }
    requires own_rows { 0 < a.now.rows }
    requires own_cols { 0 < a.now.cols }
    ensures { IfOk result (λ v. v.items ≡ (laid_out a.now s (λ i j. cell_at a.now (i % a.now.rows) (j % a.now.cols))).cells) }
{
    let own = a.shape();
    let cells = (0..s.rows * s.cols)
        .map(|k| read(a, k % s.rows % own.rows, k / s.rows % own.cols))
        .collect(alloc)?;
    Ok(cells)
}

/// The number at the place of row r and column c, and 0 behind the cells.
fn read(a: &Arr, r: u32, c: u32) -> i64
    ensures { result ≡ cell_at a.now r c }
{
    let place = c as usize * a.shape().rows as usize + r as usize;
    a.cells().get(place).copied().unwrap_or(0)
}

/// The columns in the opposite order.
pub(crate) fn fliplr(alloc: Global, a: &Arr) -> Result<Arr, NoMemory>
    ensures { IfOk result (λ o. o ≡ fliplr_of a.now) }
{
    let cells = columns_back(alloc, a)?;
    Ok(Arr::new(a.class(), a.shape(), cells))
}

fn columns_back(alloc: Global, a: &Arr) -> Result<Vec<i64>, NoMemory>
    ensures { IfOk result (λ v. v.items ≡ (fliplr_of a.now).cells) }
{
    let s = a.shape();
    if s.rows == 0 || s.cols == 0 {
        return Ok(Vec::new(alloc));
    }
    columns_by_place(alloc, a, s)
}

fn columns_by_place(alloc: Global, a: &Arr, s: Shape) -> Result<Vec<i64>, NoMemory>
    requires shape { s ≡ record { rows = a.now.rows; cols = a.now.cols } }
    requires limit { s.rows * s.cols ≤ most }
    requires rows { 0 < s.rows }
    requires cols { 0 < s.cols }
    ensures { IfOk result (λ v. v.items ≡ (fliplr_of a.now).cells) }
{
    let cells = (0..s.rows * s.cols)
        .map(|k| read(a, k % s.rows, (s.cols - 1).saturating_sub(k / s.rows)))
        .collect(alloc)?;
    Ok(cells)
}

/// The rows in the opposite order.
pub(crate) fn flipud(alloc: Global, a: &Arr) -> Result<Arr, NoMemory>
    ensures { IfOk result (λ o. o ≡ flipud_of a.now) }
{
    let cells = rows_back(alloc, a)?;
    Ok(Arr::new(a.class(), a.shape(), cells))
}

fn rows_back(alloc: Global, a: &Arr) -> Result<Vec<i64>, NoMemory>
    ensures { IfOk result (λ v. v.items ≡ (flipud_of a.now).cells) }
{
    let s = a.shape();
    if s.rows == 0 {
        return Ok(Vec::new(alloc));
    }
    rows_by_place(alloc, a, s)
}

fn rows_by_place(alloc: Global, a: &Arr, s: Shape) -> Result<Vec<i64>, NoMemory>
    requires shape { s ≡ record { rows = a.now.rows; cols = a.now.cols } }
    requires limit { s.rows * s.cols ≤ most }
    requires rows { 0 < s.rows }
    ensures { IfOk result (λ v. v.items ≡ (flipud_of a.now).cells) }
{
    let cells = (0..s.rows * s.cols)
        .map(|k| read(a, (s.rows - 1).saturating_sub(k % s.rows), k / s.rows))
        .collect(alloc)?;
    Ok(cells)
}
