//! Changes of a part of a slot's value, in place: the value is taken out of its slot, changed there, and put back.

ghost use Rattle.std.specs.Prelude.{◌≡◌, Ok, Err, Some, option_map, slice_set, OnOk, OnErr};
ghost use Rattle.pl_values.specs.Workspaces.{value_at};
ghost use Rattle.pl_operators.specs.Picking.{assign_value as assigned_of};
ghost use Rattle.pl_access.specs.Storing.{Stores, deleted_of};

use pl_base::{ErrKind, NoMemory, Or};
use pl_operators::{Argument, assign_value, delete_value};
use pl_values::{Env, Value};
use std::alloc::Global;

/// Assigns to a part of a slot's value. After a refusal the workspace is as it was.
#[tactic(auto, using(crate::proofs::Slots::stores))]
pub fn assign_in(
    alloc: Global,
    env: &mut Env<'_>,
    slot: u32,
    list: &[Argument],
    v: &Value,
) -> Result<(), Or<ErrKind>>
    ensures { Stores env.old slot (assigned_of (value_at env.old slot) list.now v.now) result env.new }
{
    let mut held = env.take(alloc, slot)?;
    let answer = assign_value(alloc, &mut held, list, v);
    put_back(alloc, env, slot, held)?;
    answer
}

/// Deletes a part of a slot's value. After a refusal the workspace is as it was.
#[tactic(auto, using(crate::proofs::Slots::stores))]
pub(crate) fn delete_in(
    alloc: Global,
    env: &mut Env<'_>,
    slot: u32,
    list: &[Argument],
) -> Result<(), Or<ErrKind>>
    ensures { Stores env.old slot (deleted_of list.now (value_at env.old slot)) result env.new }
{
    let mut held = env.take(alloc, slot)?;
    let answer = delete_held(alloc, &mut held, list);
    put_back(alloc, env, slot, held)?;
    answer
}

fn delete_held(
    alloc: Global,
    held: &mut Option<Value>,
    list: &[Argument],
) -> Result<(), Or<ErrKind>>
    ensures ok { OnOk result (option_map Ok held.new ≡ Some (deleted_of list.now held.old)) }
    ensures err { (kind : ErrKind) → result ≡ Err (Or.Is kind) → deleted_of list.now held.old ≡ Err kind }
    ensures kept { OnErr result (held.new ≡ held.old) }
{
    match held {
        Some(value) => delete_value(alloc, value, list),
        None => Err(Or::Is(ErrKind::NoValue)),
    }
}

/// The same value as a variable holds it: a copy of an array takes no memory from now on.
pub fn shared(alloc: Global, value: Value) -> Value
    ensures { result ≡ value }
{
    match value {
        Value::Array(a) => Value::Array(a.share(alloc)),
        other => other,
    }
}

/// Gives a slot what it is to hold, or empties it.
fn put_back(
    alloc: Global,
    env: &mut Env<'_>,
    slot: u32,
    held: Option<Value>,
) -> Result<(), NoMemory>
    ensures { OnOk result (env.new ≡ slice_set env.old slot held) }
{
    match held {
        Some(value) => env.set(slot, shared(alloc, value)),
        None => {
            env.clear(slot);
            Ok(())
        }
    }
}
