//! `idivide` and the functions of bits on whole arrays.
//!
//! Promised: the refusals in their order, and else the number of each cell, by the rule. The operands are only read.

ghost use Rattle.std.specs.Prelude.{◌≡◌, ◌*◌, ◌<◌, ◌≤◌, Result, IfOk, IfErr};
ghost use Rattle.std.specs.List.{list_any};
ghost use Rattle.pl_array.specs.Arrays.{Array, most};
ghost use Rattle.pl_array.specs.Cellwise.{Fits, fitted, shape_of, sized, operand, each_cell, some_cell};
ghost use Rattle.pl_builtin.specs.Rules.{number, overflows};
ghost use Rattle.pl_builtin.specs.Pairs.{pairs_of, is_negative, is_no_right, bits_of};

use crate::rules::{Bits, Rule};
use pl_array::{Arr, Class, Shape, fit};
use pl_base::{ErrKind, Mode, NoMemory, Or};
use std::alloc::Global;

/// A function of bits.
pub(crate) fn bits(
    alloc: Global,
    mode: Mode,
    bits: Bits,
    a: &Arr,
    b: &Arr,
) -> Result<Arr, Or<ErrKind>>
    ensures ok { IfOk result (λ o. bits_of mode bits a.now b.now ≡ Ok o) }
    ensures err { (kind : ErrKind) → result ≡ Err (Or.Is kind) → bits_of mode bits a.now b.now ≡ Err kind }
{
    let left = has_negative(a.cells());
    let right = has_no_right(bits, b.cells());
    if left || right {
        return Err(Or::Is(ErrKind::ArgRange));
    }
    pair(alloc, mode, Rule::Combine(bits), a, b)
}

fn has_negative(xs: &[i64]) -> bool
    ensures { result ≡ list_any is_negative xs.now }
{
    xs.iter().any(|x| *x < 0)
}

fn has_no_right(bits: Bits, xs: &[i64]) -> bool
    ensures { result ≡ list_any (is_no_right bits) xs.now }
{
    match bits {
        Bits::Shift => xs.iter().any(|x| *x < -63 || *x > 63),
        _ => has_negative(xs),
    }
}

/// A rule on the cells of two arrays that fit.
pub(crate) fn pair(
    alloc: Global,
    mode: Mode,
    rule: Rule,
    a: &Arr,
    b: &Arr,
) -> Result<Arr, Or<ErrKind>>
    ensures ok { IfOk result (λ o. pairs_of mode rule a.now b.now ≡ Ok o) }
    ensures err { (kind : ErrKind) → result ≡ Err (Or.Is kind) → pairs_of mode rule a.now b.now ≡ Err kind }
{
    match shape_for(a, b) {
        Ok(s) => pair_fitting(alloc, mode, rule, a, b, s),
        Err(kind) => Err(Or::Is(kind)),
    }
}

/// The shape for two arrays, or the refusal of their shapes.
fn shape_for(a: &Arr, b: &Arr) -> Result<Shape, ErrKind>
    ensures ok { IfOk result (Fits a.now b.now) }
    ensures err { IfErr result (λ kind. (answer : Shape → Result Array ErrKind) → sized (fitted (shape_of a.now) (shape_of b.now)) answer ≡ Err kind) }
{
    let Some(s) = fit(a.shape(), b.shape()) else {
        return Err(ErrKind::SizeMismatch);
    };
    if s.rows as u64 * s.cols as u64 > 1_000_000 {
        return Err(ErrKind::SizeLimit);
    }
    Ok(s)
}

fn pair_fitting(
    alloc: Global,
    mode: Mode,
    rule: Rule,
    a: &Arr,
    b: &Arr,
    s: Shape,
) -> Result<Arr, Or<ErrKind>>
    requires { Fits a.now b.now s }
    ensures ok { IfOk result (λ o. pairs_of mode rule a.now b.now ≡ Ok o) }
    ensures err { (kind : ErrKind) → result ≡ Err (Or.Is kind) → pairs_of mode rule a.now b.now ≡ Err kind }
{
    if has_past(mode, rule, a, b, s) {
        return Err(Or::Is(ErrKind::Overflow));
    }
    let cells = numbers(alloc, rule, a, b, s)?;
    Ok(Arr::new(Class::Int, s, cells))
}

fn has_past(mode: Mode, rule: Rule, a: &Arr, b: &Arr, s: Shape) -> bool
    requires { s.rows * s.cols ≤ most }
    ensures { result ≡ some_cell (overflows mode rule) a.now b.now s }
{
    match mode {
        Mode::Saturate => false,
        Mode::Strict => has_past_cell(rule, a, b, s),
    }
}

fn has_past_cell(rule: Rule, a: &Arr, b: &Arr, s: Shape) -> bool
    requires { s.rows * s.cols ≤ most }
    ensures { result ≡ some_cell (overflows Mode.Strict rule) a.now b.now s }
{
    if s.rows == 0 {
        return false;
    }
    let rows = s.rows;
    (0..rows * s.cols).any(|k| is_past_at(rule, a, b, rows, k))
}

fn is_past_at(rule: Rule, a: &Arr, b: &Arr, rows: u32, k: u32) -> bool
    requires { 0 < rows }
    ensures { result ≡ overflows Mode.Strict rule (operand a.now rows k) (operand b.now rows k) }
{
    rule.is_past(cell_for(a, rows, k), cell_for(b, rows, k))
}

/// The number of each cell.
fn numbers(alloc: Global, rule: Rule, a: &Arr, b: &Arr, s: Shape) -> Result<Vec<i64>, NoMemory>
    requires { s.rows * s.cols ≤ most }
    ensures { IfOk result (λ v. v.items ≡ each_cell (number rule) a.now b.now s) }
{
    if s.rows == 0 {
        return Ok(Vec::new(alloc));
    }
    by_place(alloc, rule, a, b, s)
}

fn by_place(alloc: Global, rule: Rule, a: &Arr, b: &Arr, s: Shape) -> Result<Vec<i64>, NoMemory>
    requires rows { 0 < s.rows }
    requires limit { s.rows * s.cols ≤ most }
    ensures { IfOk result (λ v. v.items ≡ each_cell (number rule) a.now b.now s) }
{
    let rows = s.rows;
    let cells = (0..rows * s.cols)
        .map(|k| number_at(rule, a, b, rows, k))
        .collect(alloc)?;
    Ok(cells)
}

fn number_at(rule: Rule, a: &Arr, b: &Arr, rows: u32, k: u32) -> i64
    requires { 0 < rows }
    ensures { result ≡ number rule (operand a.now rows k) (operand b.now rows k) }
{
    rule.number(cell_for(a, rows, k), cell_for(b, rows, k))
}

/// The operand's cell for cell k of a result with so many rows.
fn cell_for(a: &Arr, rows: u32, k: u32) -> i64
    requires { 0 < rows }
    ensures { result ≡ operand a.now rows k }
{
    let shape = a.shape();
    let r = if shape.rows == 1 { 0 } else { k % rows };
    let c = if shape.cols == 1 { 0 } else { k / rows };
    let place = c as usize * shape.rows as usize + r as usize;
    a.cells().get(place).copied().unwrap_or(0)
}
