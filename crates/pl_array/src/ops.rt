//! The elementwise operators.

ghost use Rattle.std.specs.Prelude.{◌≡◌};
ghost use Rattle.pl_array.specs.Cellwise.{class_by};

use crate::class::Class;

/// An operator on the cells of one array.
#[derive(Clone, Copy, Debug, PartialEq, Eq)]
pub enum Op1 {
    Neg,
    Not,
    Abs,
    Sign,
}

/// An operator on the cells of two arrays that fit.
#[derive(Clone, Copy, Debug, PartialEq, Eq)]
pub enum Op2 {
    Add,
    Sub,
    Mul,
    Div,
    Pow,
    Mod,
    Rem,
    Min,
    Max,
    Lt,
    Le,
    Gt,
    Ge,
    Eq,
    Ne,
    And,
    Or,
    Xor,
}

/// The class of the operator's results.
pub(crate) fn class_of(op: Op2) -> Class
    ensures { result ≡ class_by op }
{
    match op {
        Op2::Lt | Op2::Le | Op2::Gt | Op2::Ge | Op2::Eq | Op2::Ne | Op2::And | Op2::Or | Op2::Xor =>
            Class::Logical,
        _ => Class::Int,
    }
}
