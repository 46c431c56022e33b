//! The text of a program.
//!
//! `print` answers the text of a program's canonical spelling: one statement a line, two blanks for each block that is
//! open, blanks around operators of two operands, and parentheses only where an operand binds too loosely without.
//! Promised of all programs: the bytes are exactly those of the definitions (`canonical`, `text`). Promised of each
//! program that some source has: the bytes are a source of it again, the same but for places, at the same limit of
//! nesting. Want of memory is the one answer that no clause rules out.
#![tactic(auto)]

mod dots;
mod expressions;
mod page;
mod printing;
mod simple;
mod statements;
mod words;

pub use printing::print;
