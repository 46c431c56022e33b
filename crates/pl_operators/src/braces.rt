//! Braces behind a Composite: the value of one worker.
//!
//! Promised: the kind of what stands before the braces is tested first, then the subscript, then the value.

ghost use Rattle.std.specs.Prelude.{◌≡◌, ◌<◌, Ok, Err, MatchResult, OnOk, OnErr};
ghost use Rattle.pl_values.specs.declared.value.Value.{out-Value};
ghost use Rattle.pl_values.specs.declared.value.Value.TheOpen.{Value-F};
ghost use Rattle.pl_values.specs.declared.value.Value.TheVariants as value_of;
ghost use Rattle.pl_operators.specs.Picking.{readable_at, brace_at, brace_value, is_keepable as can_keep, put_worker, assign_brace_at, assign_brace as assigns_brace};

use crate::indexing::subscript;
use crate::operands::array_of;
use pl_base::ErrKind;
use pl_values::Value;
use sqlite_items::Items;

/// The value of worker k in a Composite. `BadIndex` for a k that is no worker, `CompositeUnset` where the worker
/// has no value, `BadKind` where it has a part, or anything but a Composite stands before the braces.
pub fn brace<'v>(c: &'v Value, k: &Value) -> Result<&'v Value, ErrKind>
    ensures { MatchResult result (λ v. brace_value c.now k.now ≡ Ok v.now) (λ kind. brace_value c.now k.now ≡ Err kind) }
{
    match c {
        Value::Composite(held) => held_by(held.as_slice(), k),
        _ => Err(ErrKind::BadKind),
    }
}

fn held_by<'v>(held: &'v [Option<Value>], k: &Value) -> Result<&'v Value, ErrKind>
    ensures { MatchResult result (λ v. brace_at (Value-F.Composite held.now) k.now ≡ Ok v.now) (λ kind. brace_at (Value-F.Composite held.now) k.now ≡ Err kind) }
{
    let a = array_of(k)?;
    let worker = subscript(a.single())?;
    match held.get(worker.saturating_sub(1) as usize) {
        None => Err(ErrKind::BadIndex),
        Some(None) => Err(ErrKind::CompositeUnset),
        Some(Some(v)) => readable(v),
    }
}

fn readable(v: &Value) -> Result<&Value, ErrKind>
    ensures { MatchResult result (λ o. readable_at v.now (out-Value v.now) ≡ Ok o.now) (λ kind. readable_at v.now (out-Value v.now) ≡ Err kind) }
{
    match v {
        Value::Part(_) => Err(ErrKind::BadKind),
        _ => Ok(v),
    }
}

/// Gives worker k another value. `BadIndex` for a k that is no worker, else `BadKind` for a Composite and for what is
/// codistributed. After a refusal the Composite is as it was; takes no memory.
pub fn assign_brace(c: &mut Value, k: &Value, v: Value) -> Result<(), ErrKind>
    ensures ok { OnOk result (assigns_brace c.old k.now v ≡ Ok c.new) }
    ensures err { (kind : ErrKind) → result ≡ Err kind → assigns_brace c.old k.now v ≡ Err kind }
    ensures kept { OnErr result (c.new ≡ c.old) }
{
    match c {
        Value::Composite(held) => assign_held(held, k, v),
        _ => Err(ErrKind::BadKind),
    }
}

fn assign_held(held: &mut Items<Option<Value>>, k: &Value, v: Value) -> Result<(), ErrKind>
    ensures ok { OnOk result (assign_brace_at (Value-F.Composite held.old) k.now v ≡ Ok (value_of.Composite held.new)) }
    ensures err { (kind : ErrKind) → result ≡ Err kind → assign_brace_at (Value-F.Composite held.old) k.now v ≡ Err kind }
    ensures kept { OnErr result (held.new ≡ held.old) }
{
    let a = array_of(k)?;
    let worker = subscript(a.single())?;
    put(held, worker, v)
}

fn put(held: &mut Items<Option<Value>>, worker: u64, v: Value) -> Result<(), ErrKind>
    requires { 0 < worker }
    ensures ok { OnOk result (put_worker held.old v worker ≡ Ok (value_of.Composite held.new)) }
    ensures err { (kind : ErrKind) → result ≡ Err kind → put_worker held.old v worker ≡ Err kind }
    ensures kept { OnErr result (held.new ≡ held.old) }
{
    if worker > held.len() as u64 {
        return Err(ErrKind::BadIndex);
    }
    if !is_keepable(&v) {
        return Err(ErrKind::BadKind);
    }
    held.set(worker as usize - 1, Some(v));
    Ok(())
}

fn is_keepable(v: &Value) -> bool
    ensures { result ≡ can_keep v.now }
{
    match v {
        Value::Part(_) | Value::Composite(_) | Value::Whole(_) => false,
        _ => true,
    }
}
