//! The parser: the program of a list of terminals, or its first fault.
//!
//! Statements, headers and titles of functions, and `read`: one terminal after another, and the end. Each function gives
//! exactly what its definition (`specs/`) says; want of memory is the one answer that no clause rules out. Expressions
//! are read below (`pl_steps`); that the machine is the grammar's, with trees in the place of derivations, is said above.
#![tactic(auto)]

mod parser;
mod statements;
mod titles;

pub use parser::{Refusal, read};
pub use statements::Use;
