//! The index that arguments make.

ghost use Rattle.std.specs.Prelude.{◌≡◌, [], ◌∷◌, ◌<◌, IfOk};
ghost use Rattle.std.specs.List.{list_any};
ghost use Rattle.pl_operators.specs.Picking.{position_of, is_no_position, index_refusal, index_of, subscript as subscript_of, single_index};

use crate::argument::Argument;
use crate::operands::{array_of, operand};
use pl_base::{ErrKind, Or};
use pl_index::{Index, Pos};
use std::alloc::Global;

/// The index that arguments make. `BadKind` where a value is no array, else `BadIndex` where there aren't one
/// or two positions. A 1x1 or shared array takes no memory.
pub fn index(alloc: Global, arguments: &[Argument]) -> Result<Index, Or<ErrKind>>
    ensures ok { IfOk result (λ o. index_of arguments.now ≡ Ok o) }
    ensures err { (kind : ErrKind) → result ≡ Err (Or.Is kind) → index_of arguments.now ≡ Err kind }
{
    match arguments {
        [] => Err(Or::Is(ErrKind::BadIndex)),
        [p] => index_one(alloc, p),
        [p, q] => index_two(alloc, p, q),
        [_, _, _, ..] => Err(Or::Is(refusal(arguments))),
    }
}

fn index_one(alloc: Global, p: &Argument) -> Result<Index, Or<ErrKind>>
    ensures ok { IfOk result (λ o. index_of (p.now ∷ []) ≡ Ok o) }
    ensures err { (kind : ErrKind) → result ≡ Err (Or.Is kind) → index_of (p.now ∷ []) ≡ Err kind }
{
    let p = position(alloc, p)?;
    Ok(Index::One(p))
}

fn index_two(alloc: Global, p: &Argument, q: &Argument) -> Result<Index, Or<ErrKind>>
    ensures ok { IfOk result (λ o. index_of (p.now ∷ q.now ∷ []) ≡ Ok o) }
    ensures err { (kind : ErrKind) → result ≡ Err (Or.Is kind) → index_of (p.now ∷ q.now ∷ []) ≡ Err kind }
{
    let p = position(alloc, p)?;
    let q = position(alloc, q)?;
    Ok(Index::Two(p, q))
}

fn position(alloc: Global, argument: &Argument) -> Result<Pos, Or<ErrKind>>
    ensures ok { IfOk result (λ p. position_of argument.now ≡ Ok p) }
    ensures err { (kind : ErrKind) → result ≡ Err (Or.Is kind) → position_of argument.now ≡ Err kind }
{
    match argument {
        Argument::Colon => Ok(Pos::All),
        Argument::Given(v) => {
            let a = operand(v)?;
            Ok(Pos::At(a.copy(alloc)?))
        }
    }
}

/// Why so many arguments make no index.
fn refusal(arguments: &[Argument]) -> ErrKind
    ensures { result ≡ index_refusal arguments.now }
{
    if has_no_array(arguments) {
        ErrKind::BadKind
    } else {
        ErrKind::BadIndex
    }
}

fn has_no_array(arguments: &[Argument]) -> bool
    ensures { result ≡ list_any is_no_position arguments.now }
{
    arguments.iter().any(|a| is_no_array(a))
}

fn is_no_array(argument: &Argument) -> bool
    ensures { result ≡ is_no_position argument.now }
{
    match argument {
        Argument::Colon => false,
        Argument::Given(v) => array_of(v).is_err(),
    }
}

/// The one subscript, from 1, of an index.
pub(crate) fn single(at: &Index) -> Result<u64, ErrKind>
    ensures { result ≡ single_index at.now }
{
    match at {
        Index::One(Pos::At(x)) => subscript(x.single()),
        _ => Err(ErrKind::BadIndex),
    }
}

/// A number as a subscript, from 1.
pub(crate) fn subscript(z: Option<i64>) -> Result<u64, ErrKind>
    ensures is { result ≡ subscript_of z }
    ensures from_one { IfOk result (λ k. 0 < k) }
{
    match z {
        Some(z) if z >= 1 => Ok(z.unsigned_abs()),
        _ => Err(ErrKind::BadIndex),
    }
}
