//! What an index selects of a value, and what a deletion leaves.
//!
//! Promised: of an array what the array's index selects, of a row of futures one future. The kind of the value
//! is tested first, then the arguments from the left, then the index. After a refusal a value is as it was.

ghost use Rattle.std.specs.Prelude.{◌≡◌, [], ◌∷◌, IfOk, OnOk, OnErr};
ghost use Rattle.pl_values.specs.declared.value.Value.TheOpen.{Value-F};
ghost use Rattle.pl_values.specs.declared.value.Value.TheVariants as value_of;
ghost use Rattle.pl_operators.specs.Picking.{pick_call, select_at, select_value as selects, delete_at, delete_value as deletes};

use crate::argument::Argument;
use crate::indexing::{index, single};
use pl_array::Arr;
use pl_base::{ErrKind, NoMemory, Or, Seq};
use pl_index::{delete, select};
use pl_values::Value;
use std::alloc::Global;

/// What an index selects of a value.
pub fn select_value(alloc: Global, v: &Value, arguments: &[Argument]) -> Result<Value, Or<ErrKind>>
    ensures ok { IfOk result (λ o. selects v.now arguments.now ≡ Ok o) }
    ensures err { (kind : ErrKind) → result ≡ Err (Or.Is kind) → selects v.now arguments.now ≡ Err kind }
{
    match v {
        Value::Array(a) => select_array(alloc, a, arguments),
        Value::Futures(calls) => select_future(alloc, calls.items(), arguments),
        _ => Err(Or::Is(ErrKind::BadKind)),
    }
}

fn select_array(alloc: Global, a: &Arr, arguments: &[Argument]) -> Result<Value, Or<ErrKind>>
    ensures ok { IfOk result (λ o. select_at (Value-F.Array a.now) arguments.now ≡ Ok o) }
    ensures err { (kind : ErrKind) → result ≡ Err (Or.Is kind) → select_at (Value-F.Array a.now) arguments.now ≡ Err kind }
{
    let at = index(alloc, arguments)?;
    let o = select(alloc, a, &at)?;
    Ok(Value::Array(o))
}

fn select_future(alloc: Global, calls: &[u32], arguments: &[Argument]) -> Result<Value, Or<ErrKind>>
    ensures ok { IfOk result (λ o. select_at (Value-F.Futures calls.now) arguments.now ≡ Ok o) }
    ensures err { (kind : ErrKind) → result ≡ Err (Or.Is kind) → select_at (Value-F.Futures calls.now) arguments.now ≡ Err kind }
{
    let at = index(alloc, arguments)?;
    match single(&at) {
        Ok(k) => pick(alloc, calls, k),
        Err(kind) => Err(Or::Is(kind)),
    }
}

/// The future at a subscript.
fn pick(alloc: Global, calls: &[u32], k: u64) -> Result<Value, Or<ErrKind>>
    ensures ok { IfOk result (λ o. pick_call calls.now k ≡ Ok o) }
    ensures err { (kind : ErrKind) → result ≡ Err (Or.Is kind) → pick_call calls.now k ≡ Err kind }
{
    if k > calls.len() as u64 {
        return Err(Or::Is(ErrKind::IndexRange));
    }
    let call = calls
        .get(k.saturating_sub(1) as usize)
        .copied()
        .unwrap_or(0);
    let one = one_call(alloc, call)?;
    Ok(Value::Futures(one))
}

/// A row of one future.
pub(crate) fn one_call(alloc: Global, call: u32) -> Result<Seq<u32>, NoMemory>
    ensures { IfOk result (λ s. s ≡ call ∷ []) }
{
    let mut calls = Seq::empty(alloc);
    calls.push(call)?;
    Ok(calls)
}

/// Deletes the places of an index. After a refusal the value is as it was.
pub fn delete_value(alloc: Global, v: &mut Value, arguments: &[Argument]) -> Result<(), Or<ErrKind>>
    ensures ok { OnOk result (deletes v.old arguments.now ≡ Ok v.new) }
    ensures err { (kind : ErrKind) → result ≡ Err (Or.Is kind) → deletes v.old arguments.now ≡ Err kind }
    ensures kept { OnErr result (v.new ≡ v.old) }
{
    match v {
        Value::Array(a) => delete_array(alloc, a, arguments),
        _ => Err(Or::Is(ErrKind::BadKind)),
    }
}

fn delete_array(alloc: Global, a: &mut Arr, arguments: &[Argument]) -> Result<(), Or<ErrKind>>
    ensures ok { OnOk result (delete_at (Value-F.Array a.old) arguments.now ≡ Ok (value_of.Array a.new)) }
    ensures err { (kind : ErrKind) → result ≡ Err (Or.Is kind) → delete_at (Value-F.Array a.old) arguments.now ≡ Err kind }
    ensures kept { OnErr result (a.new ≡ a.old) }
{
    let at = index(alloc, arguments)?;
    delete(alloc, a, &at)
}
