//! Expressions.

use pl_base::{Place, Text};
use sqlite_items::{Boxed, Items};

/// A name as it stands in the source. A dotted name has its dots.
#[derive(Debug, Drop, PartialEq, Eq)]
pub struct Name {
    pub text: Text,
    pub place: Place,
}

/// An expression.
#[derive(Debug, Drop)]
#[cycle(expression)]
pub struct Expr {
    pub kind: ExprKind,
    pub place: Place,
}

/// What an expression is.
#[derive(Debug, Drop)]
#[cycle(expression)]
pub enum ExprKind {
    Number(i64),
    Chars(Text),
    Var(Name),
    /// A name with a list in parentheses: a call or an index, which only the scope can tell.
    Apply(Name, Items<Expr>),
    /// A name with a place in braces, and perhaps an index behind it.
    Brace(Name, Boxed<Expr>, Option<Items<Expr>>),
    Unary(Un, Boxed<Expr>),
    Binary(Bin, Boxed<Expr>, Boxed<Expr>),
    /// From, perhaps a step, and to.
    Range(Boxed<Expr>, Option<Boxed<Expr>>, Boxed<Expr>),
    /// The rows of a square bracket.
    Rows(Items<Items<Expr>>),
    /// A function's name behind `@`.
    Func(Name),
    /// The word `end` inside an index.
    End,
    /// A colon alone as an argument.
    Colon,
    StateOf(Boxed<Expr>),
}

/// The operators of one operand; `Transpose` stands behind it.
#[derive(Clone, Copy, Debug, PartialEq, Eq)]
pub enum Un {
    Plus,
    Minus,
    Not,
    Transpose,
}

/// The operators of two operands.
#[derive(Clone, Copy, Debug, PartialEq, Eq)]
pub enum Bin {
    Add,
    Sub,
    Mul,
    Div,
    Pow,
    DotMul,
    DotDiv,
    DotPow,
    Lt,
    Le,
    Gt,
    Ge,
    Eq,
    Ne,
    And,
    Or,
    AndAlso,
    OrElse,
}
