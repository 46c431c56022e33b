//! What a name stands for.

ghost use Rattle.std.specs.Prelude.{◌≡◌, List, pos};
ghost use Rattle.std.specs.Option.{option_copied};
ghost use Rattle.pl_base.specs.Numbers.{clamp};
ghost use Rattle.pl_operators.specs.Bracketing.{number_of};
ghost use Rattle.pl_meaning.specs.Names.{callee_of as callee_named, arguments_of as arguments_named};

use pl_meaning::{Frame, slot_of};
use pl_operators::number;
use pl_resolve::Resolved;
use pl_syntax::{Expr, ExprKind, Name};
use pl_values::Value;

/// The name of the function that an expression calls, if it is a call.
pub(crate) fn callee_of<'e>(program: &Resolved, frame: Frame, e: &'e Expr) -> Option<&'e Name>
    ensures { option_copied result ≡ callee_named program.now frame e.now }
{
    let name = match &e.kind {
        ExprKind::Var(name) | ExprKind::Apply(name, _) => name,
        _ => return None,
    };
    match slot_of(program, frame, &name.text) {
        Some(_) => None,
        None => Some(name),
    }
}

/// The arguments of a call.
pub(crate) fn arguments_of(e: &Expr) -> &[Expr]
    ensures { result.now ≡ arguments_named e.now }
{
    match &e.kind {
        ExprKind::Apply(_, list) => list.as_slice(),
        _ => &[],
    }
}

/// A count as a number of the language.
pub(crate) fn count_value(n: u64) -> Value
    ensures { result ≡ number_of (clamp (pos n)) }
{
    number(i64::try_from(n).unwrap_or(i64::MAX))
}
