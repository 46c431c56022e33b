//! The trees of the language: what a script is once its text has been read.
//!
//! Plain data. A list that leads back to the tree is an `Items` and a boxed part a `Boxed`, so that a
//! clause sees a tree as a value that a definition can compute, with no pointer in it. Every node has
//! its place in the source: a name, call or index that of its name, an operator that of its sign, a
//! bracket that of `[`, a range that of its first colon, a compound statement that of its keyword.
#![tactic(auto)]

mod expr;
mod signs;
mod stmt;

pub use expr::{Bin, Expr, ExprKind, Name, Un};
pub use stmt::{Arm, Function, Program, Stmt, StmtKind, Target};
