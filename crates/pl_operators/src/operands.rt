//! The arrays of values.

ghost use Rattle.std.specs.Prelude.{◌≡◌, MatchResult};
ghost use Rattle.pl_base.specs.declared.errors.ErrKind.{ErrKind};
ghost use Rattle.pl_operators.specs.Operands.{array_in};

use pl_array::Arr;
use pl_base::{ErrKind, Or};
use pl_values::Value;

/// The array of a value; any other kind is `BadKind`.
pub(crate) fn array_of(v: &Value) -> Result<&Arr, ErrKind>
    ensures { MatchResult result (λ a. array_in v.now ≡ Ok a.now) (λ kind. array_in v.now ≡ Err kind) }
{
    match v {
        Value::Array(a) => Ok(a),
        _ => Err(ErrKind::BadKind),
    }
}

/// The same, for a call that may want memory.
pub(crate) fn operand(v: &Value) -> Result<&Arr, Or<ErrKind>>
    ensures { MatchResult result (λ a. array_in v.now ≡ Ok a.now) (λ e. (e ≡ Or.Is ErrKind.BadKind) × (array_in v.now ≡ Err ErrKind.BadKind)) }
{
    match v {
        Value::Array(a) => Ok(a),
        _ => Err(Or::Is(ErrKind::BadKind)),
    }
}
