//! Texts by a pattern.

ghost use Rattle.std.specs.Prelude.{◌≡◌, Ok, Err, length, map, pos, IfOk};
ghost use Rattle.std.specs.List.{All};
ghost use Rattle.pl_array.specs.Arrays.{IsCell};
ghost use Rattle.pl_text.specs.Displayed.{is_char};
ghost use Rattle.pl_text.specs.Literal.{char_row as char_row_of};
ghost use Rattle.pl_meaning.specs.Library.{text_by as text_by_arguments, text_row as text_row_of};
ghost use Rattle.pl_library.specs.Answering.{by_pattern};

use crate::arguments::arrays_of;
use pl_array::{Arr, Class, Shape};
use pl_base::{ErrKind, NoMemory, Or};
use pl_text::format;
use pl_values::Value;
use std::alloc::Global;

/// The most cells of an array.
const MOST_CELLS: usize = 1_000_000;

/// What the pattern in front makes of the other arguments.
#[tactic(auto, using(crate::proofs::Given::by_arrays))]
pub(crate) fn text_by(alloc: Global, given: Vec<Value>) -> Result<Vec<u8>, Or<ErrKind>>
    ensures ok { IfOk result (λ text. text_by_arguments given.items ≡ Ok text.items) }
    ensures err { (kind : ErrKind) → result ≡ Err (Or.Is kind) → text_by_arguments given.items ≡ Err kind }
{
    let arrays = arrays_of(alloc, given)?;
    text_of(alloc, arrays.as_slice())
}

fn text_of(alloc: Global, arrays: &[Arr]) -> Result<Vec<u8>, Or<ErrKind>>
    ensures ok { IfOk result (λ text. by_pattern arrays.now ≡ Ok text.items) }
    ensures err { (kind : ErrKind) → result ≡ Err (Or.Is kind) → by_pattern arrays.now ≡ Err kind }
{
    let Some((pattern, more)) = arrays.split_first() else {
        return Err(Or::Is(ErrKind::ArgCount));
    };
    match is_text(pattern) {
        true => format(alloc, pattern, more),
        false => Err(Or::Is(ErrKind::ArgClass)),
    }
}

fn is_text(a: &Arr) -> bool
    ensures { result ≡ is_char a.now.class }
{
    matches!(a.class(), Class::Char)
}

/// A text as an array, where it isn't too long: a row of its characters, and 0x0 where there are none.
pub(crate) fn text_array(alloc: Global, text: &[u8]) -> Result<Arr, Or<ErrKind>>
    ensures ok { IfOk result (λ a. text_row_of text.now ≡ Ok a) }
    ensures err { (kind : ErrKind) → result ≡ Err (Or.Is kind) → text_row_of text.now ≡ Err kind }
{
    match text {
        [] => Ok(Arr::new(Class::Char, Shape { rows: 0, cols: 0 }, Vec::new(alloc))),
        [_, ..] => char_row(alloc, text),
    }
}

/// A text as a row of characters, where it isn't too long.
fn char_row(alloc: Global, text: &[u8]) -> Result<Arr, Or<ErrKind>>
    ensures ok { IfOk result (λ a. char_row_of text.now ≡ Ok a) }
    ensures err { (kind : ErrKind) → result ≡ Err (Or.Is kind) → char_row_of text.now ≡ Err kind }
{
    if text.len() > MOST_CELLS {
        return Err(Or::Is(ErrKind::SizeLimit));
    }
    let cells = cells_of(alloc, text)?;
    let cols = text.len() as u32;
    Ok(Arr::new(Class::Char, Shape { rows: 1, cols }, cells))
}

/// The bytes as cells.
fn cells_of(alloc: Global, text: &[u8]) -> Result<Vec<i64>, NoMemory>
    ensures cells { IfOk result (λ v. v.items ≡ map (λ b. pos b) text.now) }
    ensures count { IfOk result (λ v. length v.items ≡ length text.now) }
    ensures of_class { IfOk result (λ v. All (IsCell Class.Char) v.items) }
{
    let cells: Vec<i64> = text.iter().map(|byte| i64::from(*byte)).collect(alloc)?;
    Ok(cells)
}
