//! The elementwise operators on one array.
//!
//! Promised: the answer is the definition's, in both modes; without the strict mode only memory can be
//! wanting. The operand is only read.

ghost use Rattle.std.specs.Prelude.{◌≡◌, map, IfOk};
ghost use Rattle.std.specs.List.{list_any};
ghost use Rattle.pl_array.specs.Cellwise.{number1, overflows1, class_by1, mapped1, map1_of};

use crate::arr::Arr;
use crate::class::Class;
use crate::ops::Op1;
use pl_base::{ErrKind, Mode, NoMemory, Or, neg_sat};
use std::alloc::Global;

/// An operator on the cells of one array, each result clamped to 64 bits.
pub fn map1(alloc: Global, op: Op1, a: &Arr) -> Result<Arr, NoMemory>
    ensures { IfOk result (λ o. map1_of Mode.Saturate op a.now ≡ Ok o) }
{
    let o = mapped(alloc, op, a)?;
    Ok(o)
}

/// The same in a mode: the strict one refuses what the other clamps.
pub fn map1_in(alloc: Global, mode: Mode, op: Op1, a: &Arr) -> Result<Arr, Or<ErrKind>>
    ensures ok { IfOk result (λ o. map1_of mode op a.now ≡ Ok o) }
    ensures err { (kind : ErrKind) → result ≡ Err (Or.Is kind) → map1_of mode op a.now ≡ Err kind }
{
    if has_overflow1(mode, op, a.cells()) {
        return Err(Or::Is(ErrKind::Overflow));
    }
    Ok(mapped(alloc, op, a)?)
}

fn mapped(alloc: Global, op: Op1, a: &Arr) -> Result<Arr, NoMemory>
    ensures { IfOk result (λ o. o ≡ mapped1 op a.now) }
{
    let shape = a.shape();
    if let Some(x) = a.single() {
        return Ok(Arr::one(class_of1(op), number_by1(op, x)));
    }
    let cells = cells_by1(alloc, op, a.cells())?;
    Ok(Arr::new(class_of1(op), shape, cells))
}

/// The class of the operator's results.
fn class_of1(op: Op1) -> Class
    ensures { result ≡ class_by1 op }
{
    match op {
        Op1::Not => Class::Logical,
        _ => Class::Int,
    }
}

fn number_by1(op: Op1, x: i64) -> i64
    ensures { result ≡ number1 op x }
{
    match op {
        Op1::Neg => neg_sat(x),
        Op1::Not => i64::from(x == 0),
        Op1::Abs => if x < 0 { neg_sat(x) } else { x },
        Op1::Sign => x.signum(),
    }
}

/// The number of each cell, with a pass of its own for each operator.
fn cells_by1(alloc: Global, op: Op1, xs: &[i64]) -> Result<Vec<i64>, NoMemory>
    ensures { IfOk result (λ v. v.items ≡ map (number1 op) xs.now) }
{
    match op {
        Op1::Neg => negatives(alloc, xs),
        Op1::Not => negations(alloc, xs),
        Op1::Abs => sizes(alloc, xs),
        Op1::Sign => signs(alloc, xs),
    }
}

fn negatives(alloc: Global, xs: &[i64]) -> Result<Vec<i64>, NoMemory>
    ensures { IfOk result (λ v. v.items ≡ map (number1 Op1.Neg) xs.now) }
{
    let cells = xs.iter().map(|x| number_by1(Op1::Neg, *x)).collect(alloc)?;
    Ok(cells)
}

fn negations(alloc: Global, xs: &[i64]) -> Result<Vec<i64>, NoMemory>
    ensures { IfOk result (λ v. v.items ≡ map (number1 Op1.Not) xs.now) }
{
    let cells = xs.iter().map(|x| number_by1(Op1::Not, *x)).collect(alloc)?;
    Ok(cells)
}

fn sizes(alloc: Global, xs: &[i64]) -> Result<Vec<i64>, NoMemory>
    ensures { IfOk result (λ v. v.items ≡ map (number1 Op1.Abs) xs.now) }
{
    let cells = xs.iter().map(|x| number_by1(Op1::Abs, *x)).collect(alloc)?;
    Ok(cells)
}

fn signs(alloc: Global, xs: &[i64]) -> Result<Vec<i64>, NoMemory>
    ensures { IfOk result (λ v. v.items ≡ map (number1 Op1.Sign) xs.now) }
{
    let cells = xs.iter().map(|x| number_by1(Op1::Sign, *x)).collect(alloc)?;
    Ok(cells)
}

fn has_overflow1(mode: Mode, op: Op1, xs: &[i64]) -> bool
    ensures { result ≡ list_any (overflows1 mode op) xs.now }
{
    match mode {
        Mode::Saturate => false,
        Mode::Strict => xs.iter().any(|x| is_overflow1(op, *x)),
    }
}

/// Only the least number has no 64-bit negative.
fn is_overflow1(op: Op1, x: i64) -> bool
    ensures { result ≡ overflows1 Mode.Strict op x }
{
    match op {
        Op1::Neg | Op1::Abs => x == i64::MIN,
        _ => false,
    }
}
