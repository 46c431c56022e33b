//! Assigning by an index.
//!
//! Promised: the pair of kinds is tested first, then the arguments from the left, then the index. A value that is
//! refused leaves the variable as it was, and so does want of memory. Where nobody else holds the cells of an
//! array, they are written in place.

ghost use Rattle.std.specs.Prelude.{◌≡◌, Ok, Err, Some, None, option_map, [], slice_set, IfOk, OnOk, OnErr};
ghost use Rattle.pl_values.specs.declared.value.Value.{out-Value};
ghost use Rattle.pl_values.specs.declared.value.Value.TheVariants as value_of;
ghost use Rattle.pl_operators.specs.Picking.{put_call, assign_future, assign_array, assign_to_array, assign_to_futures, assign_to_none, assign_at, assign_value as assigns};

use crate::argument::Argument;
use crate::indexing::{index, single};
use pl_array::Arr;
use pl_base::{ErrKind, Or, Seq};
use pl_index::{assign, assign_new};
use pl_values::Value;
use std::alloc::Global;
use std::mem;

/// Assigns a value to the places of an index of a variable, which has a value then. After a refusal the
/// variable is as it was.
pub fn assign_value(
    alloc: Global,
    old: &mut Option<Value>,
    arguments: &[Argument],
    value: &Value,
) -> Result<(), Or<ErrKind>>
    ensures ok { OnOk result (option_map Ok old.new ≡ Some (assigns old.old arguments.now value.now)) }
    ensures err { (kind : ErrKind) → result ≡ Err (Or.Is kind) → assigns old.old arguments.now value.now ≡ Err kind }
    ensures kept { OnErr result (old.new ≡ old.old) }
{
    match old {
        Some(held) => assign_into(alloc, held, arguments, value),
        None => {
            let new = first_value(alloc, arguments, value)?;
            *old = Some(new);
            Ok(())
        }
    }
}

/// The value of a variable that had none.
fn first_value(alloc: Global, arguments: &[Argument], value: &Value) -> Result<Value, Or<ErrKind>>
    ensures ok { IfOk result (λ o. assign_to_none arguments.now (out-Value value.now) ≡ Ok o) }
    ensures err { (kind : ErrKind) → result ≡ Err (Or.Is kind) → assign_to_none arguments.now (out-Value value.now) ≡ Err kind }
{
    match value {
        Value::Array(v) => first_array(alloc, arguments, v),
        Value::Futures(calls) => first_future(alloc, arguments, calls.items()),
        _ => Err(Or::Is(ErrKind::BadKind)),
    }
}

fn first_array(alloc: Global, arguments: &[Argument], v: &Arr) -> Result<Value, Or<ErrKind>>
    ensures ok { IfOk result (λ o. assign_array None arguments.now v.now ≡ Ok o) }
    ensures err { (kind : ErrKind) → result ≡ Err (Or.Is kind) → assign_array None arguments.now v.now ≡ Err kind }
{
    let at = index(alloc, arguments)?;
    let a = assign_new(alloc, &at, v)?;
    Ok(Value::Array(a))
}

fn first_future(alloc: Global, arguments: &[Argument], more: &[u32]) -> Result<Value, Or<ErrKind>>
    ensures ok { IfOk result (λ o. assign_future [] arguments.now more.now ≡ Ok o) }
    ensures err { (kind : ErrKind) → result ≡ Err (Or.Is kind) → assign_future [] arguments.now more.now ≡ Err kind }
{
    let mut calls = Seq::empty(alloc);
    put_future(alloc, &mut calls, arguments, more)?;
    Ok(Value::Futures(calls))
}

fn assign_into(
    alloc: Global,
    held: &mut Value,
    arguments: &[Argument],
    value: &Value,
) -> Result<(), Or<ErrKind>>
    ensures ok { OnOk result (assign_at (out-Value held.old) arguments.now value.now ≡ Ok held.new) }
    ensures err { (kind : ErrKind) → result ≡ Err (Or.Is kind) → assign_at (out-Value held.old) arguments.now value.now ≡ Err kind }
    ensures kept { OnErr result (held.new ≡ held.old) }
{
    match held {
        Value::Array(a) => assign_cells(alloc, a, arguments, value),
        Value::Futures(calls) => assign_calls(alloc, calls, arguments, value),
        _ => Err(Or::Is(ErrKind::BadKind)),
    }
}

fn assign_cells(
    alloc: Global,
    a: &mut Arr,
    arguments: &[Argument],
    value: &Value,
) -> Result<(), Or<ErrKind>>
    ensures ok { OnOk result (assign_to_array (Some a.old) arguments.now (out-Value value.now) ≡ Ok (value_of.Array a.new)) }
    ensures err { (kind : ErrKind) → result ≡ Err (Or.Is kind) → assign_to_array (Some a.old) arguments.now (out-Value value.now) ≡ Err kind }
    ensures kept { OnErr result (a.new ≡ a.old) }
{
    match value {
        Value::Array(v) => {
            let at = index(alloc, arguments)?;
            assign(alloc, a, &at, v)
        }
        _ => Err(Or::Is(ErrKind::BadKind)),
    }
}

fn assign_calls(
    alloc: Global,
    calls: &mut Seq<u32>,
    arguments: &[Argument],
    value: &Value,
) -> Result<(), Or<ErrKind>>
    ensures ok { OnOk result (assign_to_futures calls.old arguments.now (out-Value value.now) ≡ Ok (value_of.Futures calls.new)) }
    ensures err { (kind : ErrKind) → result ≡ Err (Or.Is kind) → assign_to_futures calls.old arguments.now (out-Value value.now) ≡ Err kind }
    ensures kept { OnErr result (calls.new ≡ calls.old) }
{
    match value {
        Value::Futures(more) => put_future(alloc, calls, arguments, more.items()),
        _ => Err(Or::Is(ErrKind::BadKind)),
    }
}

/// Puts one future to its place of a row.
fn put_future(
    alloc: Global,
    calls: &mut Seq<u32>,
    arguments: &[Argument],
    more: &[u32],
) -> Result<(), Or<ErrKind>>
    ensures ok { OnOk result (assign_future calls.old arguments.now more.now ≡ Ok (value_of.Futures calls.new)) }
    ensures err { (kind : ErrKind) → result ≡ Err (Or.Is kind) → assign_future calls.old arguments.now more.now ≡ Err kind }
    ensures kept { OnErr result (calls.new ≡ calls.old) }
{
    let [call] = more else {
        return Err(Or::Is(ErrKind::BadKind));
    };
    let at = index(alloc, arguments)?;
    match single(&at) {
        Ok(k) => put(alloc, calls, *call, k),
        Err(kind) => Err(Or::Is(kind)),
    }
}

fn put(alloc: Global, calls: &mut Seq<u32>, call: u32, k: u64) -> Result<(), Or<ErrKind>>
    ensures ok { OnOk result (put_call calls.old call k ≡ Ok (value_of.Futures calls.new)) }
    ensures err { (kind : ErrKind) → result ≡ Err (Or.Is kind) → put_call calls.old call k ≡ Err kind }
    ensures kept { OnErr result (calls.new ≡ calls.old) }
{
    let count = calls.items().len() as u64;
    if k > count {
        if k - count > 1 {
            return Err(Or::Is(ErrKind::IndexRange));
        }
        calls.push(call)?;
        return Ok(());
    }
    replace(alloc, calls, call, k.saturating_sub(1) as usize);
    Ok(())
}

/// Writes a place of a row in place; takes no memory.
fn replace(alloc: Global, calls: &mut Seq<u32>, call: u32, place: usize)
    ensures { calls.new ≡ slice_set calls.old place call }
{
    let mut items = mem::replace(calls, Seq::empty(alloc)).into_vec();
    if let Some(held) = items.get_mut(place) {
        *held = call;
    }
    *calls = Seq::of(items);
}
