//! An array in another class.
//!
//! Promised: each cell keeps its number, but for a logical one, which tells whether it isn't 0. Only a number that
//! no char has is refused.

ghost use Rattle.std.specs.Prelude.{◌≡◌, map, IfOk};
ghost use Rattle.std.specs.List.{list_any};
ghost use Rattle.pl_array.specs.Cellwise.{truth, is_true};
ghost use Rattle.pl_array.specs.Joining.{is_no_char, convert_of};

use crate::arr::Arr;
use crate::class::Class;
use pl_base::{ErrKind, NoMemory, Or};
use std::alloc::Global;

pub fn convert(alloc: Global, a: &Arr, class: Class) -> Result<Arr, Or<ErrKind>>
    ensures ok { IfOk result (λ o. convert_of a.now class ≡ Ok o) }
    ensures err { (kind : ErrKind) → result ≡ Err (Or.Is kind) → convert_of a.now class ≡ Err kind }
{
    if has_no_char(class, a.cells()) {
        return Err(Or::Is(ErrKind::CharRange));
    }
    match class {
        Class::Logical => Ok(truths_of(alloc, a)?),
        _ => Ok(a.recast(alloc, class)?),
    }
}

/// Whether some number is no char, where the class is char.
pub(crate) fn has_no_char(class: Class, xs: &[i64]) -> bool
    ensures { result ≡ list_any (is_no_char class) xs.now }
{
    match class {
        Class::Char => xs.iter().any(|x| *x < 0 || *x > 255),
        _ => false,
    }
}

fn truths_of(alloc: Global, a: &Arr) -> Result<Arr, NoMemory>
    ensures { IfOk result (λ o. convert_of a.now Class.Logical ≡ Ok o) }
{
    let cells = truths(alloc, a.cells())?;
    Ok(Arr::new(Class::Logical, a.shape(), cells))
}

fn truths(alloc: Global, xs: &[i64]) -> Result<Vec<i64>, NoMemory>
    ensures { IfOk result (λ v. v.items ≡ map (λ z. truth (is_true z)) xs.now) }
{
    let cells = xs.iter().map(|x| i64::from(*x != 0)).collect(alloc)?;
    Ok(cells)
}
