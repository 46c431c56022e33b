//! Operands: what has been read of an expression, kept so that it may still become a target.

use crate::pile::Pile;
use pl_base::{Place, Seq};
use pl_syntax::{Bin, Expr, Name, Target, Un};
use sqlite_items::{Boxed, Items};

/// What a terminal has beside its word: white space before it, and its place.
#[derive(Clone, Copy)]
pub struct Mark {
    pub gap: bool,
    pub place: Place,
}

/// What an operand is, as far as the terminals behind it may ask.
#[derive(Drop)]
pub enum Form {
    /// A name, a list behind a name alone, or braces behind one: what may be assigned to.
    Target(Target),
    /// A name with dots.
    Dotted(Name),
    /// `~`, the innermost first, before a target, white space between.
    Skips(Items<Mark>, Target),
    /// `[]`
    Nothing,
    /// Square brackets with one row, no break and no comma at its end.
    Row(Seq<Element>),
    /// Anything else.
    Tree(Expr),
}

/// An element of a row: one that may be outputs, `~` and then a target, or any other.
#[derive(Drop)]
pub enum Element {
    Outputs(Items<Mark>, Target),
    Tree(Expr),
}

/// An operand: the mark of its first terminal, and its height, which stops at 1000.
#[derive(Drop)]
pub struct Operand {
    pub form: Form,
    pub mark: Mark,
    pub height: usize,
}

/// A sign before an operand.
#[derive(Clone, Copy)]
pub struct SignAt {
    pub sign: Un,
    pub place: Place,
}

/// An operator with all but its last operand.
#[derive(Drop)]
pub enum Op {
    /// The left operand, and the signs of the right one, the innermost on top.
    Joined(Operand, Bin, Place, Pile<SignAt>),
    Signed(Mark, Un),
    /// A range up to its first colon.
    From(Operand, Place),
    /// A range up to its second colon.
    Stepped(Operand, Place, Operand),
}

/// What a list in parentheses stands behind.
#[derive(Drop)]
pub enum Callee {
    Alone(Name),
    Dotted(Name),
    Braced(Name, Boxed<Expr>),
}
