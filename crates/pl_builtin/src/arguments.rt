//! What the arguments stand for: a number alone, an extent, a stated text.
//!
//! Promised: each is its definition, and the refusal comes exactly where the argument stands for nothing of its kind.

ghost use Rattle.std.specs.Prelude.{◌≡◌, map, pos};
ghost use Rattle.std.specs.List.{list_all, zip};
ghost use Rattle.std.specs.Ordering.{int_eq};
ghost use Rattle.std.specs.Cmp.Lexicographic.{pointwise};
ghost use Rattle.pl_builtin.specs.Arguments.{one_number, extent, is_of, is_text};

use pl_array::{Arr, Class};
use pl_base::ErrKind;

/// The number of a 1x1 argument of any class.
pub(crate) fn one_number(a: &Arr) -> Result<i64, ErrKind>
    ensures { result ≡ one_number a.now }
{
    match a.single() {
        Some(z) => Ok(z),
        None => Err(ErrKind::NotScalar),
    }
}

/// How many rows or columns a number asks for, and a number past all limits where it is far past them.
pub(crate) fn extent(z: i64) -> u64
    ensures { result ≡ extent z }
{
    if z < 0 { 0 } else { z.unsigned_abs() }
}

/// Whether the argument is of a class.
pub(crate) fn is_of(class: Class, a: &Arr) -> bool
    ensures { result ≡ is_of class a.now }
{
    a.class().number() == class.number()
}

/// Whether the argument is a char row of these bytes.
pub(crate) fn is_text(a: &Arr, text: &[u8]) -> bool
    ensures { result ≡ is_text text.now a.now }
{
    is_of(Class::Char, a) && a.shape().rows == 1 && has_bytes(a.cells(), text)
}

#[tactic(auto, using(crate::proofs::Cells::bytes_are))]
fn has_bytes(cells: &[i64], text: &[u8]) -> bool
    ensures { result ≡ pointwise int_eq (map pos text.now) cells.now }
{
    cells.len() == text.len() && agree(text, cells)
}

fn agree(text: &[u8], cells: &[i64]) -> bool
    ensures { result ≡ list_all (λ p. int_eq (pos p.0) p.1) (zip text.now cells.now) }
{
    text.iter()
        .zip(cells.iter())
        .all(|(b, z)| i64::from(*b) == *z)
}
