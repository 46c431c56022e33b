//! The variables that a loop writes, each with what the iterations so far wrote to it.

ghost use Rattle.std.specs.Prelude.{◌≡◌, map, IfOk};
ghost use Rattle.std.specs.Option.{option_copied};
ghost use Rattle.pl_values.specs.declared.value.Value.{out-Value};
ghost use Rattle.pl_operators.specs.Picking.{select_value};
ghost use Rattle.pl_meaning.specs.Loops.{is_mixed as mixed, is_mixed_with as mixed_with, own_places, kept_at};
ghost use Rattle.pl_loop.specs.Coming.{begun, joined, option_writes, put_one, outputs_by, no_writes};

use pl_base::{ErrKind, NoMemory, Or, Seq};
use pl_meaning::{Clash, Output};
use pl_operators::{Argument, assign_value, number, select_value as pick};
use pl_values::{Env, Value};
use std::alloc::Global;

/// A variable that a loop writes.
#[derive(Debug, Drop)]
pub(crate) struct Variable {
    pub(crate) slot: u32,
    /// It had no value before the loop.
    pub(crate) fresh: bool,
    /// What it has come to: a value, or none yet; or why the writes don't go together.
    pub(crate) come: Result<Option<Value>, ErrKind>,
}

/// A variable before the iterations.
fn begin(alloc: Global, env: &Env<'_>, slot: u32) -> Result<Variable, NoMemory>
    ensures { IfOk result (λ v. v ≡ begun env.now slot) }
{
    match env.get(slot) {
        Some(value) => Ok(Variable {
            slot,
            fresh: false,
            come: Ok(Some(value.copy(alloc)?)),
        }),
        None => Ok(Variable {
            slot,
            fresh: true,
            come: Ok(None),
        }),
    }
}

/// The variables of these slots before the iterations.
pub(crate) fn begin_all(
    alloc: Global,
    env: &Env<'_>,
    slots: &[u32],
) -> Result<Vec<Variable>, NoMemory>
    ensures { IfOk result (λ vs. vs.items ≡ map (begun env.now) slots.now) }
{
    let mut variables = Vec::new(alloc);
    for slot in slots {
        variables.push(begin(alloc, env, *slot)?)?;
    }
    Ok(variables)
}

/// Whether these are arrays of one class and another.
fn is_mixed_with(a: &Value, b: &Value) -> bool
    ensures { result ≡ mixed_with (out-Value a.now) (out-Value b.now) }
{
    match (a, b) {
        (Value::Array(a), Value::Array(b)) => a.class().number() != b.class().number(),
        _ => false,
    }
}

/// Whether a variable has an array of another class than this one.
pub(crate) fn is_mixed(held: Option<&Value>, value: &Value) -> bool
    ensures { result ≡ mixed (option_copied held.entry) value.now }
{
    match held {
        Some(old) => is_mixed_with(old, value),
        None => false,
    }
}

/// A variable behind one more write. One that is new with the loop takes cells of one class alone.
fn put(
    alloc: Global,
    fresh: bool,
    held: Option<Value>,
    places: &[Argument],
    value: &Value,
) -> Result<Result<Option<Value>, ErrKind>, NoMemory>
    ensures { IfOk result (λ c. c ≡ put_one fresh held (record { at = places.now; value = value.now })) }
{
    if fresh && is_mixed(held.as_ref(), value) {
        return Ok(Err(ErrKind::MixedClass));
    }
    let mut held = held;
    match assign_value(alloc, &mut held, places, value) {
        Ok(()) => Ok(Ok(held)),
        Err(Or::Is(kind)) => Ok(Err(kind)),
        Err(Or::Memory) => Err(NoMemory),
    }
}

/// A variable behind a write to the iteration's own place.
fn put_own(
    alloc: Global,
    slot: u32,
    fresh: bool,
    held: Option<Value>,
    i: i64,
    value: Value,
) -> Result<Variable, NoMemory>
    ensures { IfOk result (λ v. v ≡ record { slot = slot; fresh = fresh; come = put_one fresh held (record { at = own_places i; value = value }) }) }
{
    let places = [Argument::Given(number(i))];
    let come = put(alloc, fresh, held, &places, &value)?;
    Ok(Variable { slot, fresh, come })
}

/// What stands at the iteration's own place of a variable; none where the place is refused.
fn standing(alloc: Global, value: &Value, i: i64) -> Result<Option<Value>, NoMemory>
    ensures { IfOk result (λ found. option_writes i found ≡ kept_at (own_places i) (select_value value.now (own_places i))) }
{
    let places = [Argument::Given(number(i))];
    match pick(alloc, value, &places) {
        Ok(found) => Ok(Some(found)),
        Err(Or::Is(_)) => Ok(None),
        Err(Or::Memory) => Err(NoMemory),
    }
}

/// A variable behind an iteration that ended with this workspace: what stands there at the iteration's own place is
/// put into it.
fn join(alloc: Global, variable: Variable, end: &Env<'_>, i: i64) -> Result<Variable, NoMemory>
    ensures { IfOk result (λ v. v ≡ joined i end.now variable) }
{
    let Variable { slot, fresh, come } = variable;
    let held = match come {
        Ok(held) => held,
        Err(kind) => {
            return Ok(Variable {
                slot,
                fresh,
                come: Err(kind),
            });
        }
    };
    let Some(all) = end.get(slot) else {
        return Ok(Variable {
            slot,
            fresh,
            come: Ok(held),
        });
    };
    match standing(alloc, all, i)? {
        Some(value) => put_own(alloc, slot, fresh, held, i, value),
        None => Ok(Variable {
            slot,
            fresh,
            come: Ok(held),
        }),
    }
}

/// All variables behind an iteration that ended with this workspace.
pub(crate) fn join_all(
    alloc: Global,
    variables: Vec<Variable>,
    end: &Env<'_>,
    i: i64,
) -> Result<Vec<Variable>, NoMemory>
    ensures { IfOk result (λ vs. vs.items ≡ map (joined i end.now) variables.items) }
{
    let mut done = Vec::with_capacity(alloc, variables.len())?;
    for variable in variables {
        done.push(join(alloc, variable, end, i)?)?;
    }
    Ok(done)
}

/// The variables behind all iterations, but for those that have no value; or the first of which the writes don't go
/// together.
pub(crate) fn settle(
    alloc: Global,
    variables: Vec<Variable>,
) -> Result<Result<Seq<Output>, Clash>, NoMemory>
    ensures { IfOk result (λ r. r ≡ outputs_by no_writes variables.items) }
{
    let mut outputs = Seq::empty(alloc);
    for variable in variables {
        let Variable {
            slot,
            fresh: _,
            come,
        } = variable;
        match come {
            Ok(Some(value)) => outputs.push(Output { slot, value })?,
            Ok(None) => {}
            Err(kind) => return Ok(Err(Clash { slot, kind })),
        }
    }
    Ok(Ok(outputs))
}
