//! The operators on values.
//!
//! Promised: operands are tested for arrays from the left, then come the refusals of the shapes and of the cells,
//! else the answer is the definition's. Operands are only read, and 1x1 ones take no memory.

ghost use Rattle.std.specs.Prelude.{◌≡◌, IfOk};
ghost use Rattle.pl_operators.specs.Operating.{unary_array, unary_of, elementwise as elementwise_of, is_one, is_matrix_op, binary_arrays, binary_of};

use crate::operands::operand;
use pl_array::{Arr, Class, Op1, Op2, convert, map1_in, map2_in, transpose};
use pl_base::{ErrKind, Mode, NoMemory, Or};
use pl_syntax::{Bin, Un};
use pl_values::Value;
use std::alloc::Global;

/// An operator of one operand.
pub fn unary(alloc: Global, mode: Mode, op: Un, v: &Value) -> Result<Value, Or<ErrKind>>
    ensures ok { IfOk result (λ o. unary_of mode op v.now ≡ Ok o) }
    ensures err { (kind : ErrKind) → result ≡ Err (Or.Is kind) → unary_of mode op v.now ≡ Err kind }
{
    let a = operand(v)?;
    let o = unary_on(alloc, mode, op, a)?;
    Ok(Value::Array(o))
}

fn unary_on(alloc: Global, mode: Mode, op: Un, a: &Arr) -> Result<Arr, Or<ErrKind>>
    ensures ok { IfOk result (λ o. unary_array mode op a.now ≡ Ok o) }
    ensures err { (kind : ErrKind) → result ≡ Err (Or.Is kind) → unary_array mode op a.now ≡ Err kind }
{
    match op {
        Un::Plus => to_int(alloc, a),
        Un::Minus => map1_in(alloc, mode, Op1::Neg, a),
        Un::Not => map1_in(alloc, mode, Op1::Not, a),
        Un::Transpose => Ok(turn(alloc, a)?),
    }
}

/// The same numbers as int64.
#[tactic(auto, using(crate::proofs::Converted::to_int))]
fn to_int(alloc: Global, a: &Arr) -> Result<Arr, Or<ErrKind>>
    ensures ok { IfOk result (λ o. unary_array Mode.Saturate Un.Plus a.now ≡ Ok o) }
    ensures err { (kind : ErrKind) → result ≡ Err (Or.Is kind) → unary_array Mode.Saturate Un.Plus a.now ≡ Err kind }
{
    convert(alloc, a, Class::Int)
}

/// Rows and columns in each other's place; a 1x1 array takes no memory.
fn turn(alloc: Global, a: &Arr) -> Result<Arr, NoMemory>
    ensures { IfOk result (λ o. unary_array Mode.Saturate Un.Transpose a.now ≡ Ok o) }
{
    if a.cells().len() == 1 {
        return a.copy(alloc);
    }
    transpose(alloc, a)
}

/// An operator of two operands.
pub fn binary(
    alloc: Global,
    mode: Mode,
    op: Bin,
    x: &Value,
    y: &Value,
) -> Result<Value, Or<ErrKind>>
    ensures ok { IfOk result (λ o. binary_of mode op x.now y.now ≡ Ok o) }
    ensures err { (kind : ErrKind) → result ≡ Err (Or.Is kind) → binary_of mode op x.now y.now ≡ Err kind }
{
    let a = operand(x)?;
    let b = operand(y)?;
    let o = binary_on(alloc, mode, op, a, b)?;
    Ok(Value::Array(o))
}

fn binary_on(alloc: Global, mode: Mode, op: Bin, a: &Arr, b: &Arr) -> Result<Arr, Or<ErrKind>>
    ensures ok { IfOk result (λ o. binary_arrays mode op a.now b.now ≡ Ok o) }
    ensures err { (kind : ErrKind) → result ≡ Err (Or.Is kind) → binary_arrays mode op a.now b.now ≡ Err kind }
{
    if is_matrix(op, a, b) {
        return Err(Or::Is(ErrKind::MatrixOp));
    }
    map2_in(alloc, mode, elementwise(op), a, b)
}

/// Whether the operands want a matrix operation, which the language hasn't.
fn is_matrix(op: Bin, a: &Arr, b: &Arr) -> bool
    ensures { result ≡ is_matrix_op op a.now b.now }
{
    match op {
        Bin::Mul => !(one(a) || one(b)),
        Bin::Div => !one(b),
        Bin::Pow => !(one(a) && one(b)),
        _ => false,
    }
}

fn one(a: &Arr) -> bool
    ensures { result ≡ is_one a.now }
{
    a.cells().len() == 1
}

/// The elementwise operator of an operator.
fn elementwise(op: Bin) -> Op2
    ensures { result ≡ elementwise_of op }
{
    match op {
        Bin::Add => Op2::Add,
        Bin::Sub => Op2::Sub,
        Bin::Mul | Bin::DotMul => Op2::Mul,
        Bin::Div | Bin::DotDiv => Op2::Div,
        Bin::Pow | Bin::DotPow => Op2::Pow,
        Bin::Lt => Op2::Lt,
        Bin::Le => Op2::Le,
        Bin::Gt => Op2::Gt,
        Bin::Ge => Op2::Ge,
        Bin::Eq => Op2::Eq,
        Bin::Ne => Op2::Ne,
        Bin::And | Bin::AndAlso => Op2::And,
        Bin::Or | Bin::OrElse => Op2::Or,
    }
}
