//! Passes over the cells of two operands: a number for each cell of the result, or whether a test holds for
//! some cell of it.
//!
//! Promised: each is the plain definition, cell by cell. Operands of the result's shape and single cells, which
//! are nearly all operands, are gone through slice by slice; others by the place of each cell.

ghost use Rattle.std.specs.Prelude.{◌≡◌, ℕ, ◌+◌, ◌*◌, ◌<◌, ◌≤◌, ◌↔◌, ℤ, pos, Bool, map, length, slice_index_or, IfOk, IsTrue};
ghost use Rattle.std.specs.List.{list_any, zip};
ghost use Rattle.pl_array.specs.Arrays.{IsValid, most};
ghost use Rattle.pl_array.specs.Cellwise.{number, operand, each_cell, some_cell};

use crate::arr::Arr;
use crate::class::Shape;
use crate::rules::Rule;
use pl_base::NoMemory;
use std::alloc::Global;

/// The number of each cell.
pub(crate) fn computed<R: Rule>(
    alloc: Global,
    rule: &R,
    a: &Arr,
    b: &Arr,
    s: Shape,
) -> Result<Vec<i64>, NoMemory>
    requires { s.rows * s.cols ≤ most }
    ensures { IfOk result (λ v. v.items ≡ each_cell (number (R.op rule.now)) a.now b.now s) }
{
    let a_is_whole = is_whole(a, s);
    let b_is_whole = is_whole(b, s);
    if a_is_whole && b_is_whole {
        whole(alloc, rule, a, b, s)
    } else if a_is_whole && is_one(b) {
        right(alloc, rule, a, b, s)
    } else if b_is_whole && is_one(a) {
        left(alloc, rule, a, b, s)
    } else {
        stretched(alloc, rule, a, b, s)
    }
}

pub(crate) fn is_whole(a: &Arr, s: Shape) -> bool
    ensures { IsTrue result ↔ ((a.now.rows ≡ s.rows) × (a.now.cols ≡ s.cols)) }
{
    a.shape() == s
}

pub(crate) fn is_one(a: &Arr) -> bool
    ensures { IsTrue result ↔ (length a.now.cells ≡ 1) }
{
    a.cells().len() == 1
}

fn whole<R: Rule>(alloc: Global, rule: &R, a: &Arr, b: &Arr, s: Shape) -> Result<Vec<i64>, NoMemory>
    requires left { (a.now.rows ≡ s.rows) × (a.now.cols ≡ s.cols) }
    requires right { (b.now.rows ≡ s.rows) × (b.now.cols ≡ s.cols) }
    ensures { IfOk result (λ v. v.items ≡ each_cell (number (R.op rule.now)) a.now b.now s) }
{
    pairs(alloc, rule, a.cells(), b.cells())
}

fn pairs<R: Rule>(alloc: Global, rule: &R, xs: &[i64], ys: &[i64]) -> Result<Vec<i64>, NoMemory>
    ensures { IfOk result (λ v. v.items ≡ map (λ p. number (R.op rule.now) p.0 p.1) (zip xs.now ys.now)) }
{
    let cells = xs
        .iter()
        .zip(ys.iter())
        .map(|(x, y)| rule.number(*x, *y))
        .collect(alloc)?;
    Ok(cells)
}

fn right<R: Rule>(alloc: Global, rule: &R, a: &Arr, b: &Arr, s: Shape) -> Result<Vec<i64>, NoMemory>
    requires left { (a.now.rows ≡ s.rows) × (a.now.cols ≡ s.cols) }
    requires right { length b.now.cells ≡ 1 }
    ensures { IfOk result (λ v. v.items ≡ each_cell (number (R.op rule.now)) a.now b.now s) }
{
    with_right(alloc, rule, a.cells(), b.cells()[0])
}

fn with_right<R: Rule>(alloc: Global, rule: &R, xs: &[i64], y: i64) -> Result<Vec<i64>, NoMemory>
    ensures { IfOk result (λ v. v.items ≡ map (λ x. number (R.op rule.now) x y) xs.now) }
{
    let cells = xs.iter().map(|x| rule.number(*x, y)).collect(alloc)?;
    Ok(cells)
}

fn left<R: Rule>(alloc: Global, rule: &R, a: &Arr, b: &Arr, s: Shape) -> Result<Vec<i64>, NoMemory>
    requires left { length a.now.cells ≡ 1 }
    requires right { (b.now.rows ≡ s.rows) × (b.now.cols ≡ s.cols) }
    ensures { IfOk result (λ v. v.items ≡ each_cell (number (R.op rule.now)) a.now b.now s) }
{
    with_left(alloc, rule, a.cells()[0], b.cells())
}

fn with_left<R: Rule>(alloc: Global, rule: &R, x: i64, ys: &[i64]) -> Result<Vec<i64>, NoMemory>
    ensures { IfOk result (λ v. v.items ≡ map (λ y. number (R.op rule.now) x y) ys.now) }
{
    let cells = ys.iter().map(|y| rule.number(x, *y)).collect(alloc)?;
    Ok(cells)
}

fn stretched<R: Rule>(
    alloc: Global,
    rule: &R,
    a: &Arr,
    b: &Arr,
    s: Shape,
) -> Result<Vec<i64>, NoMemory>
    requires { s.rows * s.cols ≤ most }
    ensures { IfOk result (λ v. v.items ≡ each_cell (number (R.op rule.now)) a.now b.now s) }
{
    if s.rows == 0 {
        return Ok(Vec::new(alloc));
    }
    by_place(alloc, rule, a, b, s)
}

fn by_place<R: Rule>(
    alloc: Global,
    rule: &R,
    a: &Arr,
    b: &Arr,
    s: Shape,
) -> Result<Vec<i64>, NoMemory>
    requires rows { 0 < s.rows }
    requires limit { s.rows * s.cols ≤ most }
    ensures { IfOk result (λ v. v.items ≡ each_cell (number (R.op rule.now)) a.now b.now s) }
{
    let rows = s.rows;
    let cells = (0..rows * s.cols)
        .map(|k| number_at(rule, a, b, rows, k))
        .collect(alloc)?;
    Ok(cells)
}

fn number_at<R: Rule>(rule: &R, a: &Arr, b: &Arr, rows: u32, k: u32) -> i64
    requires { 0 < rows }
    ensures { result ≡ number (R.op rule.now) (operand a.now rows k) (operand b.now rows k) }
{
    rule.number(cell_for(a, rows, k), cell_for(b, rows, k))
}

/// The operand's cell for cell k of a result with so many rows.
pub(crate) fn cell_for(a: &Arr, rows: u32, k: u32) -> i64
    requires { 0 < rows }
    ensures { result ≡ operand a.now rows k }
{
    let shape = a.shape();
    let r = if shape.rows == 1 { 0 } else { k % rows };
    let c = if shape.cols == 1 { 0 } else { k / rows };
    a.read(r, c)
}
