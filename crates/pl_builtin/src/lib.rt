//! The functions that make numbers and arrays of arrays: cell by cell, along lines, by shape, by class.
//!
//! They are functions of the MATLAB documentation (`sum`, `idivide`, `bitshift`, `zeros` and their kin), narrowed to
//! arrays of two dimensions over logicals, 64-bit numbers and characters. What is promised: a call answers exactly what
//! the table of calls in `specs/` says, in both modes, its refusals in one order; each function is found by its name.
//! What isn't: that memory suffices, and how long a call takes.
#![tactic(auto)]

mod arguments;
mod asking;
mod calling;
mod extremes;
mod making;
mod name;
mod pairs;
mod rules;
mod totals;

pub use calling::{call, call_in};
pub use name::Builtin;
