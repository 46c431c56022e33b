//! The functions of the library, called with the values of a script.
//!
//! Those that print, make texts or raise errors are carried out here; those of the tables of functions of arrays are
//! called with the arrays of their arguments. Each tests its counts first, then the kinds of its arguments. What
//! each does is said by the definition of a run (`pl_meaning`, Library).
#![tactic(auto)]

mod arguments;
mod calling;
mod making;
mod printing;
mod raising;
mod tables;
mod texts;

pub use calling::library;
