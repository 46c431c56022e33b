//! A compound statement whose last block is still being read.

use pl_syntax::{Arm, Expr, Name, Stmt};
use sqlite_items::Items;

/// What the statements of a block belong to: the parts of the compound statement that stand before it.
#[derive(Debug, Drop)]
pub enum Owner {
    /// The arms before, and the test of this one.
    If(Items<Arm>, Expr),
    Else(Items<Arm>),
    While(Expr),
    For(Name, Expr),
    /// The index, the range, the bound on workers.
    Parfor(Name, Expr, Option<Expr>),
    Switch(Expr),
    /// The value, the cases before, and the value of this one.
    Case(Expr, Items<Arm>, Expr),
    Otherwise(Expr, Items<Arm>),
    Try,
    /// What stood behind `try`.
    Catch(Items<Stmt>),
    Spmd(Option<Expr>),
}
