//! What stands between the parentheses behind a value.

ghost use Rattle.std.specs.Prelude.{◌≡◌};
ghost use Rattle.pl_operators.specs.declared.argument.Argument.{Argument};

use pl_values::Value;
use std::alloc::Global;

/// One position of an index.
#[derive(Debug, Drop)]
pub enum Argument {
    /// A colon alone.
    Colon,
    Given(Value),
}

/// A value as an argument. The cells of an array are shared from now on, if memory for that is found, so that an
/// index is made of it without copying them.
pub fn given(alloc: Global, v: Value) -> Argument
    ensures { result ≡ Argument.Given v }
{
    match v {
        Value::Array(a) => Argument::Given(Value::Array(a.share(alloc))),
        other => Argument::Given(other),
    }
}
