//! Ranges.
//!
//! Promised: the operands are tested for arrays from the left, then for 1x1, then the count, before any memory is
//! taken; number k of the row is first + k * step, exactly, also where the next one would be no 64-bit number.

ghost use Rattle.std.specs.Prelude.{◌≡◌, ℕ, ◌<◌, ◌+ℤ◌, ◌*ℤ◌, pos, Some, None, FitsSigned, IfOk, MatchResult};
ghost use Rattle.std.specs.Int.{w64};
ghost use Rattle.std.specs.Option.{option_copied};
ghost use Rattle.pl_operators.specs.Ranging.{steps_up, range_count, range_cells, range_row, range_by, step_in, range_of};

use crate::operands::operand;
use pl_array::{Arr, Class, Shape};
use pl_base::{ErrKind, NoMemory, Or};
use pl_values::Value;
use std::alloc::Global;

/// The most cells of an array.
const MOST: u128 = 1_000_000;

/// The row of the numbers from `first` on that don't pass `last`, in steps of 1 or of `step`; empty by a step of 0.
pub fn range(
    alloc: Global,
    first: &Value,
    step: Option<&Value>,
    last: &Value,
) -> Result<Value, Or<ErrKind>>
    ensures ok { IfOk result (λ o. range_of first.now (option_copied step.entry) last.now ≡ Ok o) }
    ensures err { (kind : ErrKind) → result ≡ Err (Or.Is kind) → range_of first.now (option_copied step.entry) last.now ≡ Err kind }
{
    let first = operand(first)?.single();
    let step = step_of(step)?;
    let last = operand(last)?.single();
    let o = between(alloc, first, step, last)?;
    Ok(Value::Array(o))
}

/// The step, 1 where none is written.
fn step_of(step: Option<&Value>) -> Result<Option<i64>, Or<ErrKind>>
    ensures { MatchResult result (λ s. step_in (option_copied step.entry) ≡ Ok s) (λ e. (e ≡ Or.Is ErrKind.BadKind) × (step_in (option_copied step.entry) ≡ Err ErrKind.BadKind)) }
{
    match step {
        None => Ok(Some(1)),
        Some(v) => Ok(operand(v)?.single()),
    }
}

fn between(
    alloc: Global,
    first: Option<i64>,
    step: Option<i64>,
    last: Option<i64>,
) -> Result<Arr, Or<ErrKind>>
    ensures ok { IfOk result (λ o. range_by first step last ≡ Ok o) }
    ensures err { (kind : ErrKind) → result ≡ Err (Or.Is kind) → range_by first step last ≡ Err kind }
{
    match (first, step, last) {
        (Some(first), Some(step), Some(last)) => row(alloc, first, step, last),
        _ => Err(Or::Is(ErrKind::RangeArg)),
    }
}

fn row(alloc: Global, first: i64, step: i64, last: i64) -> Result<Arr, Or<ErrKind>>
    ensures ok { IfOk result (λ o. range_row first step (range_count first step last) ≡ Ok o) }
    ensures err { (kind : ErrKind) → result ≡ Err (Or.Is kind) → range_row first step (range_count first step last) ≡ Err kind }
{
    let count = count_of(first, step, last);
    if count > MOST {
        return Err(Or::Is(ErrKind::SizeLimit));
    }
    let cells = cells_of(alloc, first, step, count as u32)?;
    let shape = Shape {
        rows: 1,
        cols: count as u32,
    };
    Ok(Arr::new(Class::Int, shape, cells))
}

/// How many numbers there are.
#[tactic(auto, using(crate::proofs::Ranges::count_none, crate::proofs::Ranges::count_more, crate::proofs::Ranges::count_less))]
fn count_of(first: i64, step: i64, last: i64) -> u128
    ensures { result ≡ range_count first step last }
{
    if step == 0 {
        0
    } else if step > 0 {
        count_up(first, step.unsigned_abs(), last)
    } else {
        count_up(last, step.unsigned_abs(), first)
    }
}

fn count_up(low: i64, size: u64, high: i64) -> u128
    requires { 0 < size }
    ensures { result ≡ steps_up low size high }
{
    if high < low {
        0
    } else {
        u128::from(high.abs_diff(low) / size) + 1
    }
}

/// The numbers, each from the one before it; the one behind the last isn't used.
fn cells_of(alloc: Global, first: i64, step: i64, count: u32) -> Result<Vec<i64>, NoMemory>
    requires { (k : ℕ) → k < count → FitsSigned w64 (first +ℤ step *ℤ pos k) }
    ensures { IfOk result (λ v. v.items ≡ range_cells first step count) }
{
    let mut cells = Vec::with_capacity(alloc, count as usize)?;
    let mut next = first;
    for _place in 0..count {
        cells.push(next)?;
        next = next.saturating_add(step);
    }
    Ok(cells)
}
