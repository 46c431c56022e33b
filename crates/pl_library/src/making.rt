//! Functions that make arrays of characters.

ghost use Rattle.std.specs.Prelude.{◌≡◌, ◌∷◌, [], IfOk, Result, Ok, Err};
ghost use Rattle.pl_array.specs.Arrays.{Array};
ghost use Rattle.pl_base.specs.declared.errors.ErrKind.{ErrKind};
ghost use Rattle.pl_text.specs.Literal.{mat2str_of};
ghost use Rattle.pl_text.specs.Numerals.{num2str_of};
ghost use Rattle.pl_values.specs.declared.value.Value.TheVariants as value_of;
ghost use Rattle.pl_operators.specs.Operands.{and_then};
ghost use Rattle.pl_meaning.specs.declared.halt.Halt.{Halt};
ghost use Rattle.pl_meaning.specs.declared.known.Own.{Own};
ghost use Rattle.pl_meaning.specs.Promises.{At, Answers, Went, Halts};
ghost use Rattle.pl_meaning.specs.Library.{own_of, one_array as one_array_of, text_by as text_by_arguments, text_row as text_row_of};
ghost use Rattle.pl_library.specs.Answering.{giving};

use crate::arguments::one_array;
use crate::texts::{text_array, text_by};
use pl_access::fail;
use pl_array::Arr;
use pl_base::{ErrKind, NoMemory, Or, Place};
use pl_meaning::Halt;
use pl_text::{mat2str, num2str};
use pl_values::Value;
use std::alloc::Global;

/// `sprintf`: a text by a pattern, as a row of characters.
pub(crate) fn make_text(
    alloc: Global,
    place: Place,
    wanted: usize,
    given: Vec<Value>,
) -> Result<Vec<Value>, Halt>
    ensures ok { IfOk result (λ v. (m : At) → Went (own_of place Own.Sprintf wanted given.items) m v.items m) }
    ensures err { (x : Halt) → result ≡ Err x → (m : At) → Halts (own_of place Own.Sprintf wanted given.items) m x m }
{
    match wanted > 1 {
        true => Err(fail(alloc, ErrKind::ArgCount, place)),
        false => give(alloc, place, text_row(alloc, given)),
    }
}

fn text_row(alloc: Global, given: Vec<Value>) -> Result<Arr, Or<ErrKind>>
    ensures ok { IfOk result (λ a. and_then (text_by_arguments given.items) text_row_of ≡ Ok a) }
    ensures err { (kind : ErrKind) → result ≡ Err (Or.Is kind) → and_then (text_by_arguments given.items) text_row_of ≡ Err kind }
{
    let text = text_by(alloc, given)?;
    text_array(alloc, text.as_slice())
}

/// `num2str`: the display of an array, as characters.
pub(crate) fn make_number_text(
    alloc: Global,
    place: Place,
    wanted: usize,
    given: Vec<Value>,
) -> Result<Vec<Value>, Halt>
    ensures ok { IfOk result (λ v. (m : At) → Went (own_of place Own.NumToStr wanted given.items) m v.items m) }
    ensures err { (x : Halt) → result ≡ Err x → (m : At) → Halts (own_of place Own.NumToStr wanted given.items) m x m }
{
    match wanted > 1 {
        true => Err(fail(alloc, ErrKind::ArgCount, place)),
        false => give(alloc, place, number_rows(alloc, given)),
    }
}

fn number_rows(alloc: Global, given: Vec<Value>) -> Result<Arr, Or<ErrKind>>
    ensures ok { IfOk result (λ a. and_then (one_array_of given.items) num2str_of ≡ Ok a) }
    ensures err { (kind : ErrKind) → result ≡ Err (Or.Is kind) → and_then (one_array_of given.items) num2str_of ≡ Err kind }
{
    let a = one_array(given)?;
    num2str(alloc, &a)
}

/// `mat2str`: the text that makes an array again.
pub(crate) fn make_array_text(
    alloc: Global,
    place: Place,
    wanted: usize,
    given: Vec<Value>,
) -> Result<Vec<Value>, Halt>
    ensures ok { IfOk result (λ v. (m : At) → Went (own_of place Own.MatToStr wanted given.items) m v.items m) }
    ensures err { (x : Halt) → result ≡ Err x → (m : At) → Halts (own_of place Own.MatToStr wanted given.items) m x m }
{
    match wanted > 1 {
        true => Err(fail(alloc, ErrKind::ArgCount, place)),
        false => give(alloc, place, array_row(alloc, given)),
    }
}

fn array_row(alloc: Global, given: Vec<Value>) -> Result<Arr, Or<ErrKind>>
    ensures ok { IfOk result (λ a. and_then (one_array_of given.items) mat2str_of ≡ Ok a) }
    ensures err { (kind : ErrKind) → result ≡ Err (Or.Is kind) → and_then (one_array_of given.items) mat2str_of ≡ Err kind }
{
    let a = one_array(given)?;
    mat2str(alloc, &a)
}

/// An array as the one output; a refusal is an error.
fn give(alloc: Global, place: Place, answer: Result<Arr, Or<ErrKind>>) -> Result<Vec<Value>, Halt>
    ensures ok { IfOk result (λ v. (d : Result Array ErrKind) → Answers answer d → (m : At) → Went (giving place d) m v.items m) }
    ensures err { (x : Halt) → result ≡ Err x → (d : Result Array ErrKind) → Answers answer d → (m : At) → Halts (giving place d) m x m }
{
    match answer {
        Ok(a) => Ok(one_output(alloc, a)?),
        Err(Or::Memory) => Err(Halt::Memory),
        Err(Or::Is(kind)) => Err(fail(alloc, kind, place)),
    }
}

fn one_output(alloc: Global, a: Arr) -> Result<Vec<Value>, NoMemory>
    ensures { IfOk result (λ v. v.items ≡ value_of.Array a ∷ []) }
{
    let mut outputs = Vec::with_capacity(alloc, 1)?;
    outputs.push(Value::Array(a))?;
    Ok(outputs)
}
