//! A call of a function, by its name's variant, its arguments and the count of its outputs.
//!
//! Promised: the answers of the one table that `specs/Calling.antt` is, or the refusal that it says. Refusals come in
//! one order everywhere: the count of arguments and outputs, a stated text, a number that doesn't stand alone, a number
//! out of its range, and then the function's own. The functions are those of the MATLAB documentation, narrowed to
//! arrays of two dimensions and three classes; docs/LANGUAGE.md says where this project's rules are its own.

ghost use Rattle.std.specs.Prelude.{◌≡◌, ◌&&◌, IfOk};
ghost use Rattle.pl_builtin.specs.Arguments.{is_of};
ghost use Rattle.pl_builtin.specs.Asking.{are_equal};
ghost use Rattle.pl_builtin.specs.Calling.{end_of, rounding_of, with_none, with_one, with_two, with_three, first_output, one_answer, two_answers, call_of};

use crate::arguments::{is_of, is_text};
use crate::asking::{self, answer, are_equal, is_single, is_vector};
use crate::extremes::{Extreme, both_extremes, extreme_cells};
use crate::making::{Fill, block, make, square};
use crate::name::Builtin;
use crate::pairs::{bits, pair};
use crate::rules::{Bits, Rounding, Rule};
use crate::totals::{Total, total_by, total_of};
use pl_array::{Arr, Class, Op1, Op2, convert, map1_in, map2_in};
use pl_base::{ErrKind, Mode, Or};
use std::alloc::Global;

/// A call in which each number is clamped to 64 bits. A call that asks for no output gives its first one.
pub fn call(alloc: Global, f: Builtin, args: &[Arr], nout: u32) -> Result<Vec<Arr>, Or<ErrKind>>
    ensures ok { IfOk result (λ v. call_of Mode.Saturate f args.now nout ≡ Ok v.items) }
    ensures err { (kind : ErrKind) → result ≡ Err (Or.Is kind) → call_of Mode.Saturate f args.now nout ≡ Err kind }
{
    call_in(alloc, Mode::Saturate, f, args, nout)
}

/// The same in a mode: the strict one refuses, where nothing else is refused, what the other one clamps.
pub fn call_in(
    alloc: Global,
    mode: Mode,
    f: Builtin,
    args: &[Arr],
    nout: u32,
) -> Result<Vec<Arr>, Or<ErrKind>>
    ensures ok { IfOk result (λ v. call_of mode f args.now nout ≡ Ok v.items) }
    ensures err { (kind : ErrKind) → result ≡ Err (Or.Is kind) → call_of mode f args.now nout ≡ Err kind }
{
    if nout <= 1 {
        give_one(alloc, mode, f, args)
    } else if nout == 2 {
        give_two(alloc, f, args)
    } else {
        Err(Or::Is(ErrKind::ArgCount))
    }
}

fn give_one(alloc: Global, mode: Mode, f: Builtin, args: &[Arr]) -> Result<Vec<Arr>, Or<ErrKind>>
    ensures ok { IfOk result (λ v. one_answer mode f args.now ≡ Ok v.items) }
    ensures err { (kind : ErrKind) → result ≡ Err (Or.Is kind) → one_answer mode f args.now ≡ Err kind }
{
    let first = answer_first(alloc, mode, f, args)?;
    let mut answers = Vec::new(alloc);
    answers.push(first)?;
    Ok(answers)
}

fn give_two(alloc: Global, f: Builtin, args: &[Arr]) -> Result<Vec<Arr>, Or<ErrKind>>
    ensures ok { IfOk result (λ v. two_answers f args.now ≡ Ok v.items) }
    ensures err { (kind : ErrKind) → result ≡ Err (Or.Is kind) → two_answers f args.now ≡ Err kind }
{
    let [a] = args else {
        return Err(Or::Is(ErrKind::ArgCount));
    };
    match f {
        Builtin::Min => both_extremes(alloc, Extreme::Least, a),
        Builtin::Max => both_extremes(alloc, Extreme::Greatest, a),
        Builtin::Size => Ok(asking::both_extents(alloc, a)?),
        _ => Err(Or::Is(ErrKind::ArgCount)),
    }
}

fn answer_first(alloc: Global, mode: Mode, f: Builtin, args: &[Arr]) -> Result<Arr, Or<ErrKind>>
    ensures ok { IfOk result (λ o. first_output mode f args.now ≡ Ok o) }
    ensures err { (kind : ErrKind) → result ≡ Err (Or.Is kind) → first_output mode f args.now ≡ Err kind }
{
    match args {
        [] => answer_none(alloc, f),
        [a] => answer_one(alloc, mode, f, a),
        [a, b] => answer_two(alloc, mode, f, a, b),
        [a, b, c] => answer_three(alloc, mode, f, a, b, c),
        _ => Err(Or::Is(ErrKind::ArgCount)),
    }
}

fn answer_none(alloc: Global, f: Builtin) -> Result<Arr, Or<ErrKind>>
    ensures ok { IfOk result (λ o. with_none f ≡ Ok o) }
    ensures err { (kind : ErrKind) → result ≡ Err (Or.Is kind) → with_none f ≡ Err kind }
{
    match f {
        Builtin::Zeros => make(alloc, Fill::Zeros, 1, 1),
        Builtin::Ones => make(alloc, Fill::Ones, 1, 1),
        Builtin::True => make(alloc, Fill::True, 1, 1),
        Builtin::False => make(alloc, Fill::False, 1, 1),
        Builtin::Eye => make(alloc, Fill::Eye, 1, 1),
        _ => Err(Or::Is(ErrKind::ArgCount)),
    }
}

fn answer_one(alloc: Global, mode: Mode, f: Builtin, a: &Arr) -> Result<Arr, Or<ErrKind>>
    ensures ok { IfOk result (λ o. with_one mode f a.now ≡ Ok o) }
    ensures err { (kind : ErrKind) → result ≡ Err (Or.Is kind) → with_one mode f a.now ≡ Err kind }
{
    match f {
        Builtin::Abs => map1_in(alloc, mode, Op1::Abs, a),
        Builtin::Sign => map1_in(alloc, mode, Op1::Sign, a),
        Builtin::Min => extreme_cells(alloc, Extreme::Least, a),
        Builtin::Max => extreme_cells(alloc, Extreme::Greatest, a),
        Builtin::Sum => total_of(alloc, mode, Total::Sum, a),
        Builtin::Prod => total_of(alloc, mode, Total::Product, a),
        Builtin::Numel => Ok(asking::number_of_cells(a)),
        Builtin::Length => Ok(asking::length(a)),
        Builtin::IsEmpty => Ok(asking::is_empty(a)),
        Builtin::Size => Ok(asking::size(alloc, a)?),
        Builtin::Zeros => square(alloc, Fill::Zeros, a),
        Builtin::Ones => square(alloc, Fill::Ones, a),
        Builtin::True => square(alloc, Fill::True, a),
        Builtin::False => square(alloc, Fill::False, a),
        Builtin::Eye => square(alloc, Fill::Eye, a),
        Builtin::ToInt => convert(alloc, a, Class::Int),
        Builtin::ToLogical => convert(alloc, a, Class::Logical),
        Builtin::ToChar => convert(alloc, a, Class::Char),
        Builtin::IntMax => end(i64::MAX, a),
        Builtin::IntMin => end(i64::MIN, a),
        Builtin::ClassOf => Ok(asking::class_text(alloc, a)?),
        Builtin::IsChar => Ok(answer(is_of(Class::Char, a))),
        Builtin::IsLogical => Ok(answer(is_of(Class::Logical, a))),
        Builtin::IsNumeric => Ok(answer(is_of(Class::Int, a))),
        Builtin::IsScalar => Ok(answer(is_single(a))),
        Builtin::IsVector => Ok(answer(is_vector(a))),
        _ => Err(Or::Is(ErrKind::ArgCount)),
    }
}

fn answer_two(alloc: Global, mode: Mode, f: Builtin, a: &Arr, b: &Arr) -> Result<Arr, Or<ErrKind>>
    ensures ok { IfOk result (λ o. with_two mode f a.now b.now ≡ Ok o) }
    ensures err { (kind : ErrKind) → result ≡ Err (Or.Is kind) → with_two mode f a.now b.now ≡ Err kind }
{
    match f {
        Builtin::Mod => map2_in(alloc, mode, Op2::Mod, a, b),
        Builtin::Rem => map2_in(alloc, mode, Op2::Rem, a, b),
        Builtin::Xor => map2_in(alloc, mode, Op2::Xor, a, b),
        Builtin::Min => map2_in(alloc, mode, Op2::Min, a, b),
        Builtin::Max => map2_in(alloc, mode, Op2::Max, a, b),
        Builtin::Sum => total_by(alloc, mode, Total::Sum, a, b),
        Builtin::Prod => total_by(alloc, mode, Total::Product, a, b),
        Builtin::Idivide => pair(alloc, mode, Rule::Divide(Rounding::Fix), a, b),
        Builtin::BitAnd => bits(alloc, mode, Bits::And, a, b),
        Builtin::BitOr => bits(alloc, mode, Bits::Or, a, b),
        Builtin::BitXor => bits(alloc, mode, Bits::Xor, a, b),
        Builtin::BitShift => bits(alloc, mode, Bits::Shift, a, b),
        Builtin::Size => asking::size_along(a, b),
        Builtin::IsEqual => Ok(answer(are_equal(a, b))),
        Builtin::Zeros => block(alloc, Fill::Zeros, a, b),
        Builtin::Ones => block(alloc, Fill::Ones, a, b),
        Builtin::True => block(alloc, Fill::True, a, b),
        Builtin::False => block(alloc, Fill::False, a, b),
        Builtin::Eye => block(alloc, Fill::Eye, a, b),
        Builtin::StrCmp => Ok(answer(is_same_text(a, b))),
        _ => Err(Or::Is(ErrKind::ArgCount)),
    }
}

fn answer_three(
    alloc: Global,
    mode: Mode,
    f: Builtin,
    a: &Arr,
    b: &Arr,
    c: &Arr,
) -> Result<Arr, Or<ErrKind>>
    ensures ok { IfOk result (λ o. with_three mode f a.now b.now c.now ≡ Ok o) }
    ensures err { (kind : ErrKind) → result ≡ Err (Or.Is kind) → with_three mode f a.now b.now c.now ≡ Err kind }
{
    match f {
        Builtin::Idivide => match rounding(c) {
            Ok(rounding) => pair(alloc, mode, Rule::Divide(rounding), a, b),
            Err(kind) => Err(Or::Is(kind)),
        },
        _ => Err(Or::Is(ErrKind::ArgCount)),
    }
}

/// One end of the numbers, of the class that the argument names.
fn end(z: i64, a: &Arr) -> Result<Arr, Or<ErrKind>>
    ensures ok { IfOk result (λ o. end_of z a.now ≡ Ok o) }
    ensures err { (kind : ErrKind) → result ≡ Err (Or.Is kind) → end_of z a.now ≡ Err kind }
{
    if is_text(a, b"int64") {
        Ok(Arr::scalar(z))
    } else {
        Err(Or::Is(ErrKind::ArgClass))
    }
}

/// How a quotient is made whole, by the argument that names it.
fn rounding(a: &Arr) -> Result<Rounding, ErrKind>
    ensures { result ≡ rounding_of a.now }
{
    if is_text(a, b"fix") {
        Ok(Rounding::Fix)
    } else if is_text(a, b"floor") {
        Ok(Rounding::Floor)
    } else if is_text(a, b"ceil") {
        Ok(Rounding::Ceil)
    } else if is_text(a, b"round") {
        Ok(Rounding::Round)
    } else {
        Err(ErrKind::ArgClass)
    }
}

/// Whether both are char arrays of one shape with equal cells.
fn is_same_text(a: &Arr, b: &Arr) -> bool
    ensures { result ≡ (is_of Class.Char a.now && is_of Class.Char b.now && are_equal a.now b.now) }
{
    is_of(Class::Char, a) && is_of(Class::Char, b) && are_equal(a, b)
}
