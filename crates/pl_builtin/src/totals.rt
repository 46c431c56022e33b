//! Sums and products along a dimension.
//!
//! Promised: the left fold of each line, from 0 or from 1, in both modes. The array is only read, in one pass.

ghost use Rattle.std.specs.Prelude.{◌≡◌, pos, IfOk};
ghost use Rattle.pl_array.specs.declared.class.Class.TheVariants.{Int};
ghost use Rattle.pl_builtin.specs.Asking.{single};
ghost use Rattle.pl_builtin.specs.Along.{dimension, operator, start, step, total_along, total_of, total_by};

use crate::arguments::one_number;
use crate::asking::count;
use pl_array::{Arr, Class};
use pl_base::{ErrKind, Mode, Or, add_sat, mul_sat};
use pl_lines::{Dim, Fold, default_dim, fold_lines};
use std::alloc::Global;

/// What is folded.
#[derive(Clone, Copy, Debug, PartialEq, Eq)]
pub(crate) enum Total {
    Sum,
    Product,
}

/// A total in a mode.
#[derive(Clone, Copy)]
struct Totals {
    mode: Mode,
    total: Total,
}

impl Fold for Totals {
    ghost class = { λ _. Int };

    ghost start = { λ t. pos (start t.total) };

    ghost step = { λ t. step t.mode (operator t.total) };

    fn class(&self) -> Class {
        Class::Int
    }

    fn start(&self) -> i64 {
        match self.total {
            Total::Sum => 0,
            Total::Product => 1,
        }
    }

    fn step(&self, so_far: i64, cell: i64) -> Option<i64> {
        match self.total {
            Total::Sum => sum_step(self.mode, so_far, cell),
            Total::Product => product_step(self.mode, so_far, cell),
        }
    }
}

fn sum_step(mode: Mode, so_far: i64, cell: i64) -> Option<i64>
    ensures { result ≡ step mode (operator Total.Sum) so_far cell }
{
    match mode {
        Mode::Saturate => Some(add_sat(so_far, cell)),
        Mode::Strict => so_far.checked_add(cell),
    }
}

fn product_step(mode: Mode, so_far: i64, cell: i64) -> Option<i64>
    ensures { result ≡ step mode (operator Total.Product) so_far cell }
{
    match mode {
        Mode::Saturate => Some(mul_sat(so_far, cell)),
        Mode::Strict => so_far.checked_mul(cell),
    }
}

/// Along the default dimension; of 0x0 one number.
pub(crate) fn total_of(alloc: Global, mode: Mode, total: Total, a: &Arr) -> Result<Arr, Or<ErrKind>>
    ensures ok { IfOk result (λ o. total_of mode total a.now ≡ Ok o) }
    ensures err { (kind : ErrKind) → result ≡ Err (Or.Is kind) → total_of mode total a.now ≡ Err kind }
{
    let s = a.shape();
    if s.rows == 0 && s.cols == 0 {
        return Ok(beginning(total));
    }
    total_lines(alloc, mode, total, a, default_dim(s))
}

/// Where the fold begins.
fn beginning(total: Total) -> Arr
    ensures { result ≡ single (start total) }
{
    match total {
        Total::Sum => count(0),
        Total::Product => count(1),
    }
}

/// Along the dimension that an argument names.
pub(crate) fn total_by(
    alloc: Global,
    mode: Mode,
    total: Total,
    a: &Arr,
    b: &Arr,
) -> Result<Arr, Or<ErrKind>>
    ensures ok { IfOk result (λ o. total_by mode total a.now b.now ≡ Ok o) }
    ensures err { (kind : ErrKind) → result ≡ Err (Or.Is kind) → total_by mode total a.now b.now ≡ Err kind }
{
    match dimension(b) {
        Ok(d) => total_lines(alloc, mode, total, a, d),
        Err(kind) => Err(Or::Is(kind)),
    }
}

/// The dimension that an argument names.
fn dimension(a: &Arr) -> Result<Dim, ErrKind>
    ensures { result ≡ dimension a.now }
{
    match Dim::of(one_number(a)?) {
        Some(d) => Ok(d),
        None => Err(ErrKind::ArgRange),
    }
}

fn total_lines(alloc: Global, mode: Mode, total: Total, a: &Arr, d: Dim) -> Result<Arr, Or<ErrKind>>
    ensures ok { IfOk result (λ o. total_along mode total d a.now ≡ Ok o) }
    ensures err { (kind : ErrKind) → result ≡ Err (Or.Is kind) → total_along mode total d a.now ≡ Err kind }
{
    fold_lines(alloc, &Totals { mode, total }, a, d)
}
