//! Arrays side by side and one below the other.
//!
//! Promised: the refusals in their order (shapes that can't be joined, a result past the limits, a number that is no
//! char among chars), and else each cell of both at its place, in the later class of the two. An operand
//! without rows and columns gives its class alone.

ghost use Rattle.std.specs.Prelude.{◌≡◌, ◌+◌, ◌*◌, ◌<◌, ◌≤◌, ◌++◌, length, true, IfOk, MatchOption};
ghost use Rattle.pl_array.specs.Arrays.{most};
ghost use Rattle.pl_array.specs.Cellwise.{shape_of};
ghost use Rattle.pl_array.specs.Joining.{Joins, greater_class, has_no_char, by_places, is_nil, across, down, is_within, below_at, concat_h_of, concat_v_of};

use crate::arr::Arr;
use crate::class::{Class, Shape};
use crate::conversion::has_no_char;
use pl_base::{ErrKind, NoMemory, Or};
use std::alloc::Global;

/// b to the right of a.
pub fn concat_h(alloc: Global, a: &Arr, b: &Arr) -> Result<Arr, Or<ErrKind>>
    ensures ok { IfOk result (λ o. concat_h_of a.now b.now ≡ Ok o) }
    ensures err { (kind : ErrKind) → result ≡ Err (Or.Is kind) → concat_h_of a.now b.now ≡ Err kind }
{
    let Some(s) = beside(a, b) else {
        return Err(Or::Is(ErrKind::ConcatMismatch));
    };
    if !fits(s) {
        return Err(Or::Is(ErrKind::SizeLimit));
    }
    let Some(class) = class_for(a, b) else {
        return Err(Or::Is(ErrKind::CharRange));
    };
    let cells = appended(alloc, a, b)?;
    Ok(Arr::new(class, s, cells))
}

/// b below a.
pub fn concat_v(alloc: Global, a: &Arr, b: &Arr) -> Result<Arr, Or<ErrKind>>
    ensures ok { IfOk result (λ o. concat_v_of a.now b.now ≡ Ok o) }
    ensures err { (kind : ErrKind) → result ≡ Err (Or.Is kind) → concat_v_of a.now b.now ≡ Err kind }
{
    let Some(s) = under(a, b) else {
        return Err(Or::Is(ErrKind::ConcatMismatch));
    };
    if !fits(s) {
        return Err(Or::Is(ErrKind::SizeLimit));
    }
    let Some(class) = class_for(a, b) else {
        return Err(Or::Is(ErrKind::CharRange));
    };
    let cells = stacked(alloc, a, b, s)?;
    Ok(Arr::new(class, s, cells))
}

fn is_empty(s: Shape) -> bool
    ensures { result ≡ is_nil s }
{
    s.rows == 0 && s.cols == 0
}

fn fits(s: Shape) -> bool
    ensures { result ≡ is_within s }
{
    s.rows as u64 * s.cols as u64 <= 1_000_000 && s.rows <= 1_000_000 && s.cols <= 1_000_000
}

/// The shape of b to the right of a.
fn beside(a: &Arr, b: &Arr) -> Option<Shape>
    ensures { result ≡ across (shape_of a.now) (shape_of b.now) }
{
    let left = a.shape();
    let right = b.shape();
    if is_empty(left) {
        Some(right)
    } else if is_empty(right) {
        Some(left)
    } else if left.rows == right.rows {
        Some(Shape {
            rows: left.rows,
            cols: left.cols + right.cols,
        })
    } else {
        None
    }
}

/// The shape of b below a.
fn under(a: &Arr, b: &Arr) -> Option<Shape>
    ensures { result ≡ down (shape_of a.now) (shape_of b.now) }
{
    let upper = a.shape();
    let lower = b.shape();
    if is_empty(upper) {
        Some(lower)
    } else if is_empty(lower) {
        Some(upper)
    } else if upper.cols == lower.cols {
        Some(Shape {
            rows: upper.rows + lower.rows,
            cols: upper.cols,
        })
    } else {
        None
    }
}

/// The later class of the two, if it is not char or all numbers are chars.
fn class_for(a: &Arr, b: &Arr) -> Option<Class>
    ensures { MatchOption result (has_no_char (greater_class a.now.class b.now.class) a.now b.now ≡ true) (Joins a.now b.now) }
{
    let class = a.class().greater(b.class());
    if has_no_char(class, a.cells()) || has_no_char(class, b.cells()) {
        return None;
    }
    Some(class)
}

fn appended(alloc: Global, a: &Arr, b: &Arr) -> Result<Vec<i64>, NoMemory>
    ensures { IfOk result (λ v. v.items ≡ a.now.cells ++ b.now.cells) }
{
    let xs = a.cells();
    let ys = b.cells();
    let mut cells = Vec::with_capacity(alloc, xs.len() + ys.len())?;
    cells.extend_from_slice(xs)?;
    cells.extend_from_slice(ys)?;
    Ok(cells)
}

fn stacked(alloc: Global, a: &Arr, b: &Arr, s: Shape) -> Result<Vec<i64>, NoMemory>
    requires { s.rows * s.cols ≤ most }
    ensures { IfOk result (λ v. v.items ≡ by_places (s.rows * s.cols) (below_at a.now b.now s.rows)) }
{
    if s.rows == 0 {
        return Ok(Vec::new(alloc));
    }
    stacked_by_place(alloc, a, b, s)
}

fn stacked_by_place(alloc: Global, a: &Arr, b: &Arr, s: Shape) -> Result<Vec<i64>, NoMemory>
    requires rows { 0 < s.rows }
    requires limit { s.rows * s.cols ≤ most }
    ensures { IfOk result (λ v. v.items ≡ by_places (s.rows * s.cols) (below_at a.now b.now s.rows)) }
{
    let rows = s.rows;
    let cells = (0..rows * s.cols)
        .map(|k| stacked_at(a, b, rows, k))
        .collect(alloc)?;
    Ok(cells)
}

/// Cell k of b below a, where both together have so many rows.
fn stacked_at(a: &Arr, b: &Arr, rows: u32, k: u32) -> i64
    requires { 0 < rows }
    ensures { result ≡ below_at a.now b.now rows k }
{
    let r = k % rows;
    let above = a.shape().rows;
    if r < above {
        a.read(r, k / rows)
    } else {
        b.read(r - above, k / rows)
    }
}
