//! Whether a test holds for some cell of the result of two operands.
//!
//! Promised: the plain definition, cell by cell; the search ends at the first such cell.

ghost use Rattle.std.specs.Prelude.{◌≡◌, ◌*◌, ◌<◌, ◌≤◌, length};
ghost use Rattle.std.specs.List.{list_any, zip};
ghost use Rattle.pl_array.specs.Arrays.{most};
ghost use Rattle.pl_array.specs.Cellwise.{operand, some_cell};

use crate::arr::Arr;
use crate::class::Shape;
use crate::passes::{cell_for, is_one, is_whole};
use crate::refusals::Test;

pub(crate) fn some<T: Test>(test: &T, a: &Arr, b: &Arr, s: Shape) -> bool
    requires { s.rows * s.cols ≤ most }
    ensures { result ≡ some_cell (T.holds test.now) a.now b.now s }
{
    let a_is_whole = is_whole(a, s);
    let b_is_whole = is_whole(b, s);
    if a_is_whole && b_is_whole {
        some_whole(test, a, b, s)
    } else if a_is_whole && is_one(b) {
        some_right(test, a, b, s)
    } else if b_is_whole && is_one(a) {
        some_left(test, a, b, s)
    } else {
        some_stretched(test, a, b, s)
    }
}

fn some_whole<T: Test>(test: &T, a: &Arr, b: &Arr, s: Shape) -> bool
    requires left { (a.now.rows ≡ s.rows) × (a.now.cols ≡ s.cols) }
    requires right { (b.now.rows ≡ s.rows) × (b.now.cols ≡ s.cols) }
    ensures { result ≡ some_cell (T.holds test.now) a.now b.now s }
{
    some_pair(test, a.cells(), b.cells())
}

fn some_pair<T: Test>(test: &T, xs: &[i64], ys: &[i64]) -> bool
    ensures { result ≡ list_any (λ p. T.holds test.now p.0 p.1) (zip xs.now ys.now) }
{
    xs.iter().zip(ys.iter()).any(|(x, y)| test.holds(*x, *y))
}

fn some_right<T: Test>(test: &T, a: &Arr, b: &Arr, s: Shape) -> bool
    requires left { (a.now.rows ≡ s.rows) × (a.now.cols ≡ s.cols) }
    requires right { length b.now.cells ≡ 1 }
    ensures { result ≡ some_cell (T.holds test.now) a.now b.now s }
{
    some_with_right(test, a.cells(), b.cells()[0])
}

fn some_with_right<T: Test>(test: &T, xs: &[i64], y: i64) -> bool
    ensures { result ≡ list_any (λ x. T.holds test.now x y) xs.now }
{
    xs.iter().any(|x| test.holds(*x, y))
}

fn some_left<T: Test>(test: &T, a: &Arr, b: &Arr, s: Shape) -> bool
    requires left { length a.now.cells ≡ 1 }
    requires right { (b.now.rows ≡ s.rows) × (b.now.cols ≡ s.cols) }
    ensures { result ≡ some_cell (T.holds test.now) a.now b.now s }
{
    some_with_left(test, a.cells()[0], b.cells())
}

fn some_with_left<T: Test>(test: &T, x: i64, ys: &[i64]) -> bool
    ensures { result ≡ list_any (λ y. T.holds test.now x y) ys.now }
{
    ys.iter().any(|y| test.holds(x, *y))
}

fn some_stretched<T: Test>(test: &T, a: &Arr, b: &Arr, s: Shape) -> bool
    requires { s.rows * s.cols ≤ most }
    ensures { result ≡ some_cell (T.holds test.now) a.now b.now s }
{
    if s.rows == 0 {
        return false;
    }
    some_place(test, a, b, s)
}

fn some_place<T: Test>(test: &T, a: &Arr, b: &Arr, s: Shape) -> bool
    requires rows { 0 < s.rows }
    requires limit { s.rows * s.cols ≤ most }
    ensures { result ≡ some_cell (T.holds test.now) a.now b.now s }
{
    let rows = s.rows;
    (0..rows * s.cols).any(|k| holds_at(test, a, b, rows, k))
}

fn holds_at<T: Test>(test: &T, a: &Arr, b: &Arr, rows: u32, k: u32) -> bool
    requires { 0 < rows }
    ensures { result ≡ T.holds test.now (operand a.now rows k) (operand b.now rows k) }
{
    test.holds(cell_for(a, rows, k), cell_for(b, rows, k))
}
