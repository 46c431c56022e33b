//! The elementwise operators on whole arrays.
//!
//! Promised: the answer is the definition's, in both modes. The refusals of the shapes come first, then an
//! exponent below 0, then what the strict mode refuses; else each cell has its number. The operands are only
//! read. Two single numbers take no memory.

ghost use Rattle.std.specs.Prelude.{◌≡◌, ◌*◌, ◌≤◌, [], ◌∷◌, Result, IfOk, IfErr};
ghost use Rattle.pl_array.specs.Arrays.{Array, most};
ghost use Rattle.pl_array.specs.Cellwise.{Fits, fitted, shape_of, sized, number, negative_power, overflows, each_cell, some_cell, single_by, map2_of};

use crate::arr::Arr;
use crate::class::Shape;
use crate::fitting::fit;
use crate::ops::{Op2, class_of};
use crate::passes::computed;
use crate::refusals::{Negative, Strictly, is_negative_power, is_overflow};
use crate::rules::{self, Rule};
use crate::searches::some;
use pl_base::{ErrKind, Mode, NoMemory, Or};
use std::alloc::Global;

/// An operator on the cells of two arrays that fit, each result clamped to 64 bits.
pub fn map2(alloc: Global, op: Op2, a: &Arr, b: &Arr) -> Result<Arr, Or<ErrKind>>
    ensures ok { IfOk result (λ o. map2_of Mode.Saturate op a.now b.now ≡ Ok o) }
    ensures err { (kind : ErrKind) → result ≡ Err (Or.Is kind) → map2_of Mode.Saturate op a.now b.now ≡ Err kind }
{
    map2_in(alloc, Mode::Saturate, op, a, b)
}

/// The same in a mode: the strict one refuses what the other clamps.
pub fn map2_in(alloc: Global, mode: Mode, op: Op2, a: &Arr, b: &Arr) -> Result<Arr, Or<ErrKind>>
    ensures ok { IfOk result (λ o. map2_of mode op a.now b.now ≡ Ok o) }
    ensures err { (kind : ErrKind) → result ≡ Err (Or.Is kind) → map2_of mode op a.now b.now ≡ Err kind }
{
    if let Some(x) = a.single()
        && let Some(y) = b.single()
    {
        return map_single(mode, op, x, y);
    }
    match shape_for(a, b) {
        Ok(s) => map_fitting(alloc, mode, op, a, b, s),
        Err(kind) => Err(Or::Is(kind)),
    }
}

fn map_single(mode: Mode, op: Op2, x: i64, y: i64) -> Result<Arr, Or<ErrKind>>
    ensures ok { IfOk result (λ o. single_by mode op x y ≡ Ok o) }
    ensures err { (kind : ErrKind) → result ≡ Err (Or.Is kind) → single_by mode op x y ≡ Err kind }
{
    if is_negative_power(op, x, y) {
        return Err(Or::Is(ErrKind::NegativePower));
    }
    if is_overflow(mode, op, x, y) {
        return Err(Or::Is(ErrKind::Overflow));
    }
    Ok(Arr::one(class_of(op), number_by(op, x, y)))
}

/// The shape for two arrays, or the refusal of their shapes.

fn shape_for(a: &Arr, b: &Arr) -> Result<Shape, ErrKind>
    ensures ok { IfOk result (Fits a.now b.now) }
    ensures err { IfErr result (λ kind. (answer : Shape → Result Array ErrKind) → sized (fitted (shape_of a.now) (shape_of b.now)) answer ≡ Err kind) }
{
    let Some(s) = fit(a.shape(), b.shape()) else {
        return Err(ErrKind::SizeMismatch);
    };
    if s.rows as u64 * s.cols as u64 > 1_000_000 {
        return Err(ErrKind::SizeLimit);
    }
    Ok(s)
}

fn map_fitting(
    alloc: Global,
    mode: Mode,
    op: Op2,
    a: &Arr,
    b: &Arr,
    s: Shape,
) -> Result<Arr, Or<ErrKind>>
    requires { Fits a.now b.now s }
    ensures ok { IfOk result (λ o. map2_of mode op a.now b.now ≡ Ok o) }
    ensures err { (kind : ErrKind) → result ≡ Err (Or.Is kind) → map2_of mode op a.now b.now ≡ Err kind }
{
    if has_negative(op, a, b, s) {
        return Err(Or::Is(ErrKind::NegativePower));
    }
    if has_overflow(mode, op, a, b, s) {
        return Err(Or::Is(ErrKind::Overflow));
    }
    let cells = cells_by(alloc, op, a, b, s)?;
    Ok(Arr::new(class_of(op), s, cells))
}

fn has_negative(op: Op2, a: &Arr, b: &Arr, s: Shape) -> bool
    requires { s.rows * s.cols ≤ most }
    ensures { result ≡ some_cell (negative_power op) a.now b.now s }
{
    match op {
        Op2::Pow => some(&Negative, a, b, s),
        _ => false,
    }
}

fn has_overflow(mode: Mode, op: Op2, a: &Arr, b: &Arr, s: Shape) -> bool
    requires { s.rows * s.cols ≤ most }
    ensures { result ≡ some_cell (overflows mode op) a.now b.now s }
{
    match mode {
        Mode::Saturate => false,
        Mode::Strict => some(&Strictly { op }, a, b, s),
    }
}

/// The number of each cell, by the pass that is compiled for the operator.
fn cells_by(alloc: Global, op: Op2, a: &Arr, b: &Arr, s: Shape) -> Result<Vec<i64>, NoMemory>
    requires { s.rows * s.cols ≤ most }
    ensures { IfOk result (λ v. v.items ≡ each_cell (number op) a.now b.now s) }
{
    match op {
        Op2::Add => computed(alloc, &rules::Add, a, b, s),
        Op2::Sub => computed(alloc, &rules::Sub, a, b, s),
        Op2::Mul => computed(alloc, &rules::Mul, a, b, s),
        Op2::Div => computed(alloc, &rules::Div, a, b, s),
        Op2::Pow => computed(alloc, &rules::Pow, a, b, s),
        Op2::Mod => computed(alloc, &rules::Mod, a, b, s),
        Op2::Rem => computed(alloc, &rules::Rem, a, b, s),
        Op2::Min => computed(alloc, &rules::Min, a, b, s),
        Op2::Max => computed(alloc, &rules::Max, a, b, s),
        Op2::Lt => computed(alloc, &rules::Lt, a, b, s),
        Op2::Le => computed(alloc, &rules::Le, a, b, s),
        Op2::Gt => computed(alloc, &rules::Gt, a, b, s),
        Op2::Ge => computed(alloc, &rules::Ge, a, b, s),
        Op2::Eq => computed(alloc, &rules::Eq, a, b, s),
        Op2::Ne => computed(alloc, &rules::Ne, a, b, s),
        Op2::And => computed(alloc, &rules::And, a, b, s),
        Op2::Or => computed(alloc, &rules::Or, a, b, s),
        Op2::Xor => computed(alloc, &rules::Xor, a, b, s),
    }
}

/// The number of one cell.
fn number_by(op: Op2, x: i64, y: i64) -> i64
    ensures { result ≡ number op x y }
{
    match op {
        Op2::Add => rules::Add.number(x, y),
        Op2::Sub => rules::Sub.number(x, y),
        Op2::Mul => rules::Mul.number(x, y),
        Op2::Div => rules::Div.number(x, y),
        Op2::Pow => rules::Pow.number(x, y),
        Op2::Mod => rules::Mod.number(x, y),
        Op2::Rem => rules::Rem.number(x, y),
        Op2::Min => rules::Min.number(x, y),
        Op2::Max => rules::Max.number(x, y),
        Op2::Lt => rules::Lt.number(x, y),
        Op2::Le => rules::Le.number(x, y),
        Op2::Gt => rules::Gt.number(x, y),
        Op2::Ge => rules::Ge.number(x, y),
        Op2::Eq => rules::Eq.number(x, y),
        Op2::Ne => rules::Ne.number(x, y),
        Op2::And => rules::And.number(x, y),
        Op2::Or => rules::Or.number(x, y),
        Op2::Xor => rules::Xor.number(x, y),
    }
}
