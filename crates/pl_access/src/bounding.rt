//! The index of a loop over workers: its first value, and how many it has.

ghost use Rattle.std.specs.Prelude.{◌≡◌, ℕ, IfOk, Result, Ok, Err};
ghost use Rattle.pl_operators.specs.Ranging.{steps_up};
ghost use Rattle.pl_meaning.specs.declared.halt.Halt.{Halt};
ghost use Rattle.pl_meaning.specs.Accesses.{settle as settling};
ghost use Rattle.pl_meaning.specs.Bounds.{bounds_of, counted};
ghost use Rattle.pl_meaning.specs.Logs.{Workspace, Log};
ghost use Rattle.pl_meaning.specs.Promises.{Halts, Went};

use crate::failing::{array_of, fail};
use pl_base::{ErrKind, Place};
use pl_meaning::{Bounds, Halt};
use pl_values::Value;
use std::alloc::Global;

/// The most iterations of a loop.
const MOST: u128 = 1_000_000;

/// How many numbers there are from one up to another.
fn count_up(first: i64, last: i64) -> u128
    ensures { result ≡ steps_up first 1 last }
{
    if last < first {
        0
    } else {
        u128::from(last.abs_diff(first)) + 1
    }
}

fn between(first: i64, last: i64) -> Result<Bounds, ErrKind>
    ensures { result ≡ counted first (steps_up first 1 last) }
{
    let count = count_up(first, last);
    if count > MOST {
        return Err(ErrKind::SizeLimit);
    }
    Ok(Bounds {
        first,
        count: count as u32,
    })
}

/// The index between two values: both are arrays, which is tested first, and 1x1.
fn bounds(first: &Value, last: &Value) -> Result<Bounds, ErrKind>
    ensures { result ≡ bounds_of first.now last.now }
{
    let first = array_of(first)?;
    let last = array_of(last)?;
    match (first.single(), last.single()) {
        (Some(first), Some(last)) => between(first, last),
        _ => Err(ErrKind::RangeArg),
    }
}

/// The index between two values; a refusal is an error at a place.
pub fn bounds_at(alloc: Global, place: Place, first: &Value, last: &Value) -> Result<Bounds, Halt>
    ensures ok { IfOk result (λ b. (env : Workspace) (turns calls : ℕ) (l : Log) → Went (settling place (bounds_of first.now last.now)) (record { env = env; turns = turns; calls = calls; log = l }) b (record { env = env; turns = turns; calls = calls; log = l })) }
    ensures err { (x : Halt) → result ≡ Err x → (env : Workspace) (turns calls : ℕ) (l : Log) → Halts (settling place (bounds_of first.now last.now)) (record { env = env; turns = turns; calls = calls; log = l }) x (record { env = env; turns = turns; calls = calls; log = l }) }
{
    match bounds(first, last) {
        Ok(bounds) => Ok(bounds),
        Err(kind) => Err(fail(alloc, kind, place)),
    }
}
