//! Errors at their places.

ghost use Rattle.std.specs.Prelude.{◌≡◌, ℕ, IfOk, Result, Ok, Err};
ghost use Rattle.pl_base.specs.declared.errors.ErrKind.{ErrKind};
ghost use Rattle.pl_errors.specs.Errors.{error_of};
ghost use Rattle.pl_operators.specs.Operands.{array_in};
ghost use Rattle.pl_meaning.specs.declared.halt.Halt.{Halt};
ghost use Rattle.pl_meaning.specs.Accesses.{settle as settling};
ghost use Rattle.pl_meaning.specs.Logs.{Workspace, Log};
ghost use Rattle.pl_meaning.specs.Promises.{Fails, Halts, Went};

use pl_array::Arr;
use pl_base::{ErrKind, Place};
use pl_errors::raise;
use pl_meaning::Halt;
use pl_values::Value;
use std::alloc::Global;

/// The halt of an error of a kind at a place.
#[tactic(auto, using(crate::proofs::Cuts::cut))]
pub fn fail(alloc: Global, kind: ErrKind, place: Place) -> Halt
    ensures { Fails (error_of kind place) result }
{
    match raise(alloc, kind, place) {
        Ok(error) => Halt::Raise(error),
        Err(_) => Halt::Memory,
    }
}

/// The value of an operation that may want memory; its refusal is an error at a place.
#[macro_export]
macro_rules! settled {
    ($alloc:expr, $place:expr, $answer:expr) => {
        match $answer {
            Ok(value) => Ok(value),
            Err($crate::Or::Memory) => Err($crate::Halt::Memory),
            Err($crate::Or::Is(kind)) => Err($crate::fail($alloc, kind, $place)),
        }
    };
}

/// The answer of a test; its refusal is an error at a place.
#[macro_export]
macro_rules! decided {
    ($alloc:expr, $place:expr, $answer:expr) => {
        match $answer {
            Ok(value) => Ok(value),
            Err(kind) => Err($crate::fail($alloc, kind, $place)),
        }
    };
}

/// The array of a value; any other value is an error at a place.
pub fn array_at(alloc: Global, place: Place, v: &Value) -> Result<&Arr, Halt>
    ensures ok { IfOk result (λ a. (env : Workspace) (turns calls : ℕ) (l : Log) → Went (settling place (array_in v.now)) (record { env = env; turns = turns; calls = calls; log = l }) a.now (record { env = env; turns = turns; calls = calls; log = l })) }
    ensures err { (x : Halt) → result ≡ Err x → (env : Workspace) (turns calls : ℕ) (l : Log) → Halts (settling place (array_in v.now)) (record { env = env; turns = turns; calls = calls; log = l }) x (record { env = env; turns = turns; calls = calls; log = l }) }
{
    match array_of(v) {
        Ok(a) => Ok(a),
        Err(kind) => Err(fail(alloc, kind, place)),
    }
}

/// The array of a value.
pub(crate) fn array_of(v: &Value) -> Result<&Arr, ErrKind>
    ensures ok { IfOk result (λ a. array_in v.now ≡ Ok a.now) }
    ensures err { (kind : ErrKind) → result ≡ Err kind → array_in v.now ≡ Err kind }
{
    match v {
        Value::Array(a) => Ok(a),
        _ => Err(ErrKind::BadKind),
    }
}
