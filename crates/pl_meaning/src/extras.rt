//! The doors of the language: which operations of a program ask the world of its run for an extra.
//!
//! A value is remote where it lies outside of the client: a whole codistributed array, or a value that no other kind
//! names. On the client an operator, a function and an indexed read with a remote operand ask for the extra with their
//! text, if the program's table has it; a function that stands in that table alone asks with any operands. Everything
//! else is what the language says.

ghost use Rattle.std.specs.Prelude.{◌≡◌, [], ◌∷◌, IfOk};
ghost use Rattle.std.specs.List.{list_any};
ghost use Rattle.std.specs.Option.{option_copied};
ghost use Rattle.pl_syntax.specs.Signs.{unary_sign, binary_sign};
ghost use Rattle.pl_meaning.specs.Known.{known_of};
ghost use Rattle.pl_meaning.specs.Extras as spec;

use crate::known::Known;
use pl_base::NoMemory;
use pl_operators::Argument;
use pl_resolve::{Resolved, is_function_name};
use pl_syntax::{Bin, Un};
use pl_values::Value;
use std::alloc::Global;

/// Whether a value lies outside of the client.
pub fn is_remote(v: &Value) -> bool
    ensures { result ≡ spec.is_remote v.now }
{
    matches!(v, Value::Whole(_) | Value::Opaque(_, _))
}

/// Whether one of these values does.
pub fn any_remote(values: &[Value]) -> bool
    ensures { result ≡ spec.any_remote values.now }
{
    values.iter().any(is_remote)
}

/// The number of the extra with this text.
pub fn extra_of(program: &Resolved, text: &[u8]) -> Option<usize>
    ensures { result ≡ spec.extra_of program.now text.now }
{
    let extras = program.extras.items();
    extras.iter().position(|extra| text == extra.bytes())
}

/// The extra that an operator of one operand asks for, if it asks.
pub fn unary_door(program: &Resolved, client: bool, op: Un, x: &Value) -> Option<usize>
    ensures { result ≡ spec.operator_door program.now client (unary_sign op) (x.now ∷ []) }
{
    match client && is_remote(x) {
        true => extra_of(program, op.sign()),
        false => None,
    }
}

/// The extra that an operator of two operands asks for, if it asks.
pub fn binary_door(program: &Resolved, client: bool, op: Bin, x: &Value, y: &Value) -> Option<usize>
    ensures { result ≡ spec.operator_door program.now client (binary_sign op) (x.now ∷ y.now ∷ []) }
{
    match client && (is_remote(x) || is_remote(y)) {
        true => extra_of(program, op.sign()),
        false => None,
    }
}

/// Whether a name stands for a function of the table of extras alone.
fn is_lone(name: &[u8], known: Option<Known>) -> bool
    ensures { result ≡ spec.is_lone name.now known }
{
    match known {
        Some(_) => false,
        None => !is_function_name(name),
    }
}

/// The extra that a function of this name asks for, if it asks; `known` is the function of the library with that name.
pub fn function_door(
    program: &Resolved,
    client: bool,
    name: &[u8],
    known: Option<Known>,
    operands: &[Value],
) -> Option<usize>
    requires { known ≡ known_of name.now }
    ensures { result ≡ spec.function_door program.now client name.now operands.now }
{
    let number = extra_of(program, name)?;
    match client && (is_lone(name, known) || any_remote(operands)) {
        true => Some(number),
        false => None,
    }
}

/// Whether a position of an index is a colon.
fn is_colon(a: &Argument) -> bool
    ensures { result ≡ spec.is_colon a.now }
{
    matches!(a, Argument::Colon)
}

fn any_colon(list: &[Argument]) -> bool
    ensures { result ≡ list_any spec.is_colon list.now }
{
    list.iter().any(is_colon)
}

/// Whether one of these positions is a remote value.
fn any_remote_position(list: &[Argument]) -> bool
    ensures { result ≡ spec.any_remote (spec.given_in list.now) }
{
    match list {
        [] => false,
        [Argument::Colon, more @ ..] => any_remote_position(more),
        [Argument::Given(v), more @ ..] => is_remote(v) || any_remote_position(more),
    }
}

/// Whether no position is a colon, and the variable's value or a position is remote.
fn is_remote_read(v: &Value, list: &[Argument]) -> bool
    ensures { result ≡ spec.is_remote_read v.now list.now }
{
    !any_colon(list) && (is_remote(v) || any_remote_position(list))
}

/// The extra that an indexed read asks for, if it asks: by the variable's value and the positions.
pub fn read_door(
    program: &Resolved,
    client: bool,
    value: Option<&Value>,
    list: &[Argument],
) -> Option<usize>
    ensures { result ≡ spec.read_door program.now client (option_copied value.entry) list.now }
{
    let number = extra_of(program, b"()")?;
    let v = value?;
    match client && is_remote_read(v, list) {
        true => Some(number),
        false => None,
    }
}

/// The operands of an indexed read: the variable's value, if it has one, and the positions.
pub fn read_operands(
    alloc: Global,
    value: Option<&Value>,
    list: &[Argument],
) -> Result<Vec<Value>, NoMemory>
    ensures { IfOk result (λ v. v.items ≡ spec.read_operands (option_copied value.entry) list.now) }
{
    let mut operands = Vec::new(alloc);
    if let Some(v) = value {
        operands.push(v.copy(alloc)?)?;
    }
    for position in list {
        if let Argument::Given(v) = position {
            operands.push(v.copy(alloc)?)?;
        }
    }
    Ok(operands)
}
