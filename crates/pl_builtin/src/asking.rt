//! The functions that ask about arrays: their size, class and equality.
//!
//! Promised: the answer of the definition. Nothing but the answer is made.

ghost use Rattle.std.specs.Prelude.{◌≡◌, ◌==◌, ◌≤◌, [], ◌∷◌, length, map, if◌then◌else◌, pos, IfOk};
ghost use Rattle.pl_builtin.specs.Asking.{single, answer, length_of, size_of, extent_along, size_along, are_equal, is_vector, is_single, class_name, text_row};

use crate::arguments::one_number;
use pl_array::{Arr, Class, Shape};
use pl_base::{ErrKind, NoMemory, Or};
use std::alloc::Global;

/// One truth value; takes no memory.
pub(crate) fn answer(b: bool) -> Arr
    ensures { result ≡ answer b }
{
    Arr::one(Class::Logical, i64::from(b))
}

/// One count; takes no memory.
pub(crate) fn count(n: u32) -> Arr
    ensures { result ≡ single n }
{
    Arr::scalar(i64::from(n))
}

pub(crate) fn number_of_cells(a: &Arr) -> Arr
    ensures { result ≡ single (length a.now.cells) }
{
    count(a.cells().len() as u32)
}

pub(crate) fn length(a: &Arr) -> Arr
    ensures { result ≡ single (length_of a.now) }
{
    let s = a.shape();
    if a.cells().len() == 0 {
        count(0)
    } else {
        count(s.rows.max(s.cols))
    }
}

/// 1 for no cells, else 0.
pub(crate) fn is_empty(a: &Arr) -> Arr
    ensures { result ≡ single (if length a.now.cells == 0 then 1 else 0) }
{
    count(if a.cells().len() == 0 { 1 } else { 0 })
}

/// Both extents, as a row.
pub(crate) fn size(alloc: Global, a: &Arr) -> Result<Arr, NoMemory>
    ensures { IfOk result (λ o. o ≡ size_of a.now) }
{
    let s = a.shape();
    let cells = Vec::from_slice(alloc, &[i64::from(s.rows), i64::from(s.cols)])?;
    Ok(Arr::new(Class::Int, Shape { rows: 1, cols: 2 }, cells))
}

/// Both extents, each by itself.
pub(crate) fn both_extents(alloc: Global, a: &Arr) -> Result<Vec<Arr>, NoMemory>
    ensures { IfOk result (λ v. v.items ≡ single a.now.rows ∷ single a.now.cols ∷ []) }
{
    let s = a.shape();
    let mut answers = Vec::with_capacity(alloc, 2)?;
    answers.push(count(s.rows))?;
    answers.push(count(s.cols))?;
    Ok(answers)
}

/// The extent of the dimension that an argument names.
pub(crate) fn size_along(a: &Arr, d: &Arr) -> Result<Arr, Or<ErrKind>>
    ensures ok { IfOk result (λ o. size_along a.now d.now ≡ Ok o) }
    ensures err { (kind : ErrKind) → result ≡ Err (Or.Is kind) → size_along a.now d.now ≡ Err kind }
{
    match one_number(d) {
        Ok(z) => extent_along(a, z),
        Err(kind) => Err(Or::Is(kind)),
    }
}

fn extent_along(a: &Arr, d: i64) -> Result<Arr, Or<ErrKind>>
    ensures ok { IfOk result (λ o. extent_along a.now d ≡ Ok o) }
    ensures err { (kind : ErrKind) → result ≡ Err (Or.Is kind) → extent_along a.now d ≡ Err kind }
{
    match d {
        1 => Ok(count(a.shape().rows)),
        2 => Ok(count(a.shape().cols)),
        _ => Err(Or::Is(ErrKind::ArgRange)),
    }
}

/// Whether shapes and numbers are equal.
pub(crate) fn are_equal(a: &Arr, b: &Arr) -> bool
    ensures { result ≡ are_equal a.now b.now }
{
    a.shape() == b.shape() && a.cells() == b.cells()
}

/// Whether there is one row or one column.
pub(crate) fn is_vector(a: &Arr) -> bool
    ensures { result ≡ is_vector a.now }
{
    let s = a.shape();
    s.rows == 1 || s.cols == 1
}

/// Whether there is one cell.
pub(crate) fn is_single(a: &Arr) -> bool
    ensures { result ≡ is_single a.now }
{
    let s = a.shape();
    s.rows == 1 && s.cols == 1
}

/// The name of the array's class, as a char row.
pub(crate) fn class_text(alloc: Global, a: &Arr) -> Result<Arr, NoMemory>
    ensures { IfOk result (λ o. o ≡ text_row (class_name a.now.class)) }
{
    match a.class() {
        Class::Logical => text(alloc, b"logical"),
        Class::Int => text(alloc, b"int64"),
        Class::Char => text(alloc, b"char"),
    }
}

/// A char row of a text.
fn text(alloc: Global, bytes: &[u8]) -> Result<Arr, NoMemory>
    requires { length bytes.now ≤ 7 }
    ensures { IfOk result (λ o. o ≡ text_row bytes.now) }
{
    let cells = numbers(alloc, bytes)?;
    let s = Shape {
        rows: 1,
        cols: bytes.len() as u32,
    };
    Ok(Arr::new(Class::Char, s, cells))
}

fn numbers(alloc: Global, bytes: &[u8]) -> Result<Vec<i64>, NoMemory>
    ensures { IfOk result (λ v. v.items ≡ map pos bytes.now) }
{
    let cells = bytes.iter().map(|b| i64::from(*b)).collect(alloc)?;
    Ok(cells)
}
