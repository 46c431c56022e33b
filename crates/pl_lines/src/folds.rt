//! The left fold of each line.
//!
//! Promised: the fold of each line, in one pass over the cells, or the refusal of a step that is refused, which is an
//! overflow. The array is only read.

ghost use Rattle.std.specs.Prelude.{◌≡◌, ℕ, ◌<◌, ℤ, Option, map, IfOk, IfSome};
ghost use Rattle.pl_array.specs.Arrays.{IsCell};
ghost use Rattle.pl_array.specs.Cellwise.{shape_of};
ghost use Rattle.pl_array.specs.declared.class.Class.{Class};
ghost use Rattle.pl_lines.specs.Lines.{extent, line_count, cell_along, line, lines};
ghost use Rattle.pl_lines.specs.Folding.{onward, folded, all_of, fold_lines_of};
ghost use Rattle.pl_lines.specs.declared.dim.Dim.{Dim};

use crate::dim::Dim;
use crate::runs::{column_cells, only_row};
use pl_array::{Arr, Class, Shape};
use pl_base::{ErrKind, Or};
use std::alloc::Global;

/// A left fold: where it begins, and a step for each cell, which may be refused. What it comes to are cells of its
/// class.
pub trait Fold {
    ghost class: { Self → Class };

    ghost start: { Self → ℤ };

    ghost step: { Self → ℤ → ℤ → Option ℤ };

    fn class(&self) -> Class
        ensures { result ≡ class self.now };

    fn start(&self) -> i64
        ensures value { result ≡ start self.now }
        ensures cell { IsCell (class self.now) result };

    fn step(&self, so_far: i64, cell: i64) -> Option<i64>
        ensures value { result ≡ step self.now so_far cell }
        ensures cell { IfSome result (IsCell (class self.now)) };
}

/// The array of the folds of the lines along a dimension. The only refusal is Overflow, where a step is refused.
pub fn fold_lines<F: Fold>(alloc: Global, fold: &F, a: &Arr, d: Dim) -> Result<Arr, Or<ErrKind>>
    ensures ok { IfOk result (λ o. fold_lines_of (F.class fold.now) (F.step fold.now) (F.start fold.now) d a.now ≡ Ok o) }
    ensures err { (kind : ErrKind) → result ≡ Err (Or.Is kind) → fold_lines_of (F.class fold.now) (F.step fold.now) (F.start fold.now) d a.now ≡ Err kind }
{
    let s = a.shape();
    let count = d.line_count(s);
    let mut values = Vec::with_capacity(alloc, count as usize)?;
    for i in 0..count {
        match fold_line(fold, a, d, i) {
            Some(value) => values.push(value)?,
            None => return Err(Or::Is(ErrKind::Overflow)),
        }
    }
    Ok(Arr::new(fold.class(), d.with_extent(s, 1), values))
}

fn fold_line<F: Fold>(fold: &F, a: &Arr, d: Dim, i: u32) -> Option<i64>
    requires { i < line_count d (shape_of a.now) }
    ensures value { result ≡ folded (F.step fold.now) (F.start fold.now) (line d a.now i) }
    ensures cell { IfSome result (IsCell (F.class fold.now)) }
{
    match d {
        Dim::Down => fold_cells(fold, column_cells(a, i)),
        Dim::Across => fold_row(fold, a, i),
    }
}

fn fold_row<F: Fold>(fold: &F, a: &Arr, i: u32) -> Option<i64>
    requires { i < a.now.rows }
    ensures value { result ≡ folded (F.step fold.now) (F.start fold.now) (line Dim.Across a.now i) }
    ensures cell { IfSome result (IsCell (F.class fold.now)) }
{
    if a.shape().rows == 1 {
        fold_cells(fold, only_row(a, i))
    } else {
        fold_apart(fold, a, i)
    }
}

fn fold_cells<F: Fold>(fold: &F, cells: &[i64]) -> Option<i64>
    ensures value { result ≡ folded (F.step fold.now) (F.start fold.now) cells.now }
    ensures cell { IfSome result (IsCell (F.class fold.now)) }
{
    let mut so_far = fold.start();
    for cell in cells {
        so_far = fold.step(so_far, *cell)?;
    }
    Some(so_far)
}

/// The fold of a row whose cells stand apart.
fn fold_apart<F: Fold>(fold: &F, a: &Arr, i: u32) -> Option<i64>
    requires { i < a.now.rows }
    ensures value { result ≡ folded (F.step fold.now) (F.start fold.now) (line Dim.Across a.now i) }
    ensures cell { IfSome result (IsCell (F.class fold.now)) }
{
    let cols = a.shape().cols;
    let mut so_far = fold.start();
    for k in 0..cols {
        so_far = fold.step(so_far, a.cell(i, k))?;
    }
    Some(so_far)
}
