//! The truth of a value, where the language asks for one.
//!
//! Promised: a value that is no array is `BadKind`; nothing here takes memory.

ghost use Rattle.std.specs.Prelude.{◌≡◌, pos};
ghost use Rattle.std.specs.List.{list_any};
ghost use Rattle.std.specs.Ordering.{int_eq};
ghost use Rattle.pl_text.specs.Displayed.{is_char};
ghost use Rattle.pl_array.specs.Arrays.{single_of};
ghost use Rattle.pl_operators.specs.Operating.{same_single as same_number, logical_value, switch_of, holds as holds_of, condition_of, same_text as same_text_of, case_fits as fits};

use crate::operands::array_of;
use pl_array::{Arr, Class};
use pl_base::ErrKind;
use pl_values::Value;

/// A 1x1 truth value; takes no memory.
pub fn logical(b: bool) -> Value
    ensures { result ≡ logical_value b }
{
    Value::Array(Arr::one(Class::Logical, i64::from(b)))
}

/// An operand of `&&` or `||`: whether its one number isn't 0.
pub fn switch(v: &Value) -> Result<bool, ErrKind>
    ensures { result ≡ switch_of v.now }
{
    let a = array_of(v)?;
    match a.single() {
        Some(z) => Ok(z != 0),
        None => Err(ErrKind::NotScalar),
    }
}

/// A condition: whether there are cells and none is 0.
pub fn condition(v: &Value) -> Result<bool, ErrKind>
    ensures { result ≡ condition_of v.now }
{
    let a = array_of(v)?;
    Ok(holds(a))
}

fn holds(a: &Arr) -> bool
    ensures { result ≡ holds_of a.now }
{
    let cells = a.cells();
    cells.len() != 0 && !has_zero(cells)
}

fn has_zero(cells: &[i64]) -> bool
    ensures { result ≡ list_any (λ z. int_eq z (pos 0)) cells.now }
{
    cells.iter().any(|z| *z == 0)
}

/// Whether a case fits the value of its switch: the same text, or the same 1x1 number.
pub fn case_fits(x: &Value, y: &Value) -> Result<bool, ErrKind>
    ensures { result ≡ fits x.now y.now }
{
    let a = array_of(x)?;
    let b = array_of(y)?;
    Ok(same_text(a, b) || same_single(a, b))
}

fn is_text(a: &Arr) -> bool
    ensures { result ≡ is_char a.now.class }
{
    matches!(a.class(), Class::Char)
}

fn same_text(a: &Arr, b: &Arr) -> bool
    ensures { result ≡ same_text_of a.now b.now }
{
    let s = a.shape();
    let t = b.shape();
    is_text(a) && is_text(b) && s.rows == t.rows && s.cols == t.cols && a.cells() == b.cells()
}

fn same_single(a: &Arr, b: &Arr) -> bool
    ensures { result ≡ same_number (single_of a.now) (single_of b.now) }
{
    match (a.single(), b.single()) {
        (Some(x), Some(y)) => x == y,
        _ => false,
    }
}
