//! The arrays of arguments, moved out of them.

ghost use Rattle.std.specs.Prelude.{◌≡◌, Ok, Err, IfOk};
ghost use Rattle.pl_operators.specs.Operands.{array_in, arrays_in};
ghost use Rattle.pl_meaning.specs.Library.{one_array as one_array_of};

use pl_array::Arr;
use pl_base::{ErrKind, Or};
use pl_values::Value;
use std::alloc::Global;

/// The array of a value; any other kind of value is refused.
fn array_of(v: Value) -> Result<Arr, ErrKind>
    ensures { result ≡ array_in v }
{
    match v {
        Value::Array(a) => Ok(a),
        _ => Err(ErrKind::BadKind),
    }
}

/// The one argument, an array.
#[tactic(auto, using(crate::proofs::Given::alone, crate::proofs::Given::not_alone))]
pub(crate) fn one_array(mut given: Vec<Value>) -> Result<Arr, Or<ErrKind>>
    ensures ok { IfOk result (λ a. one_array_of given.items ≡ Ok a) }
    ensures err { (kind : ErrKind) → result ≡ Err (Or.Is kind) → one_array_of given.items ≡ Err kind }
{
    if given.len() != 1 {
        return Err(Or::Is(ErrKind::ArgCount));
    }
    let Some(v) = given.pop() else {
        return Err(Or::Is(ErrKind::ArgCount));
    };
    match array_of(v) {
        Ok(a) => Ok(a),
        Err(kind) => Err(Or::Is(kind)),
    }
}

/// The arrays of the arguments, tested from the left.
#[tactic(auto, using(crate::proofs::Given::arrays_more, crate::proofs::Given::arrays_refused, crate::proofs::Given::none_done, crate::proofs::Given::none_left))]
pub(crate) fn arrays_of(alloc: Global, given: Vec<Value>) -> Result<Vec<Arr>, Or<ErrKind>>
    ensures ok { IfOk result (λ v. arrays_in given.items ≡ Ok v.items) }
    ensures err { (kind : ErrKind) → result ≡ Err (Or.Is kind) → arrays_in given.items ≡ Err kind }
{
    let mut arrays = Vec::with_capacity(alloc, given.len())?;
    let mut left = given.into_iter();
    while let Some(v) = left.next() {
        match array_of(v) {
            Ok(a) => arrays.push(a)?,
            Err(kind) => return Err(Or::Is(kind)),
        }
    }
    Ok(arrays)
}
