//! What the parser holds: where a statement stands, and the frames of its expression.

use crate::operand::{Callee, Element, Mark, Op, Operand};
use crate::pile::Pile;
use pl_base::Seq;
use pl_grammar::{Keyword, Owner};
use pl_syntax::{Expr, Function, Name, Stmt, StmtKind, Target};
use sqlite_items::Items;

/// The script and the functions that have been read.
#[derive(Drop)]
pub struct Top {
    pub body: Items<Stmt>,
    pub functions: Items<Function>,
}

/// The title of a function.
#[derive(Drop)]
pub struct Title {
    pub name: Name,
    pub params: Seq<Option<Name>>,
    pub outs: Seq<Name>,
}

/// What all statements at hand stand in.
#[derive(Drop)]
pub enum Root {
    Script,
    Function(Top, Title),
}

/// A compound statement up to its open block.
#[derive(Drop)]
pub struct Opened {
    pub owner: Owner,
    /// The keyword of its last part.
    pub word: Keyword,
    /// The mark of its first.
    pub mark: Mark,
}

/// A compound statement that is open, and the statements before it.
#[derive(Drop)]
pub struct Level {
    pub opened: Opened,
    pub before: Items<Stmt>,
}

/// Where a statement stands: behind the statements of a block.
#[derive(Drop)]
pub struct Site {
    pub root: Root,
    /// The innermost on top.
    pub levels: Pile<Level>,
    pub block: Items<Stmt>,
}

/// Where a part of a compound statement begins.
#[derive(Drop)]
pub enum Spot {
    /// A new one.
    Here(Site),
    /// Behind a block of one.
    Linked(Opened, Items<Stmt>, Site),
}

/// What precedes the last expression of a statement.
#[derive(Drop)]
pub enum Goal {
    Shown,
    /// A target, its mark, and `=`.
    Into(Target, Mark),
    /// The bracket's mark, the outputs, and `=`.
    Spread(Mark, Items<Option<Target>>),
}

/// What precedes the expression of a header.
#[derive(Drop)]
pub enum Lead {
    Test(Keyword, Mark),
    Each(Keyword, Mark, Name),
}

/// The same where a parenthesis is open.
#[derive(Drop)]
pub enum Inner {
    EachIn(Keyword, Mark, Name),
    Bound(Mark, Name, Expr),
    Workers(Mark),
}

/// A header without its separator.
#[derive(Drop)]
pub enum Heading {
    Upto(Lead, Expr),
    Shut(Inner, Expr),
    NoValue(Keyword, Mark),
}

/// A part of a compound statement up to its block.
#[derive(Drop)]
pub enum Part {
    Headed(Heading),
    Unheaded(Keyword, Mark),
}

/// Outputs, and how many levels those before the next one put over it.
#[derive(Drop)]
pub struct Outgoing {
    pub outputs: Items<Option<Target>>,
    pub run: usize,
}

/// What the frames of an expression lie on.
#[derive(Drop)]
pub enum Bottom {
    Goal(Goal, Site),
    Lead(Lead, Spot),
    Inner(Inner, Spot),
    /// An output's own list or braces, in outputs that are no expressions.
    Outputs(Mark, Outgoing, Site),
}

/// Arguments that have been read, and the height of the highest.
#[derive(Drop)]
pub struct Listed {
    pub trees: Items<Expr>,
    pub height: usize,
}

/// Elements of a row that have been read, the height of the highest, and whether white space alone separates the
/// next one.
#[derive(Drop)]
pub struct Cells {
    pub elements: Seq<Element>,
    pub height: usize,
    pub space: bool,
}

/// The rows that have been read.
#[derive(Drop)]
pub struct Rows {
    /// Nothing stands before the row at hand.
    pub first: bool,
    pub trees: Items<Items<Expr>>,
    pub height: usize,
}

/// What has been read of a rule of expressions.
#[derive(Drop)]
pub enum Frame {
    Op(Op),
    Paren(Mark),
    /// The callee, its mark and its height, and what stands before the next argument.
    Args(Callee, Mark, usize, Option<Listed>),
    Brace(Name, Mark),
    /// `[` and what stands before the next element.
    Row(Mark, Rows, Option<Cells>),
}

/// The frames of an expression, the innermost on top.
#[derive(Drop)]
pub struct Stack {
    pub frames: Pile<Frame>,
    pub bottom: Bottom,
}

/// A statement that wants its separator.
#[derive(Drop)]
pub struct Done {
    pub kind: StmtKind,
    pub mark: Mark,
}
