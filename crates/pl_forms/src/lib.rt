//! The form of loop over workers that is built: a body of assignments to parts of variables, each by the loop's index
//! alone, in which a variable that the body writes occurs at that place and at no other.
//!
//! `is_form` tells whether a body has it, by the definition (`pl_meaning`, `Forms`). The names of the variables that the
//! body writes are made once, so the time is that of reading the body.
#![tactic(auto)]

mod body;
mod forms;

pub use forms::is_form;
