//! Statements, functions and whole programs.

use crate::expr::{Expr, Name};
use pl_base::{Place, Seq};
use sqlite_items::{Boxed, Items};

/// A script: its statements, and its local functions in the order of the text.
#[derive(Debug, Drop)]
pub struct Program {
    pub body: Items<Stmt>,
    pub functions: Items<Function>,
}

/// A local function. A parameter without a name is `~`.
#[derive(Debug, Drop)]
pub struct Function {
    pub name: Name,
    pub params: Seq<Option<Name>>,
    pub outs: Seq<Name>,
    pub body: Items<Stmt>,
}

/// A statement. `show` is true where no semicolon ends it.
#[derive(Debug, Drop)]
#[cycle(statement)]
pub struct Stmt {
    pub kind: StmtKind,
    pub place: Place,
    pub show: bool,
}

/// What a statement is.
#[derive(Debug, Drop)]
#[cycle(statement)]
pub enum StmtKind {
    Eval(Expr),
    Assign(Target, Expr),
    /// Several outputs; one without a target is `~`.
    AssignList(Items<Option<Target>>, Expr),
    /// `name(list) = []`.
    Delete(Name, Items<Expr>),
    /// The arms in order, and what runs where no test holds.
    If(Items<Arm>, Items<Stmt>),
    While(Expr, Items<Stmt>),
    For(Name, Expr, Items<Stmt>),
    /// The index, the range, the bound on workers, the body.
    Parfor(Name, Expr, Option<Expr>, Items<Stmt>),
    /// The value, the cases in order, and what runs where none fits.
    Switch(Expr, Items<Arm>, Items<Stmt>),
    Try(Items<Stmt>, Items<Stmt>),
    Spmd(Option<Expr>, Items<Stmt>),
    Break,
    Continue,
    Return,
}

/// A test or a case, and what it guards.
#[derive(Debug, Drop)]
#[cycle(statement)]
pub struct Arm {
    pub test: Expr,
    pub body: Items<Stmt>,
}

/// What an assignment writes: a variable, a part of it, or one worker's value of a Composite.
#[derive(Debug, Drop)]
pub enum Target {
    Whole(Name),
    Indexed(Name, Items<Expr>),
    Braced(Name, Boxed<Expr>),
}
