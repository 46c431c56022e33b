//! The lines of an array along a dimension, and what is made of each line.
//!
//! A function such as a sum or a sort works on the lines of its argument: the columns, or the rows. This crate is
//! where it is said once what the lines are, and which dimension is meant where none is given (the first whose extent
//! isn't 1, as in the MATLAB documentation of such functions). What is promised: a fold has the left fold of each line,
//! a rule its value for each line, and the cells that are handed out are those of the line.
#![tactic(auto)]

mod dim;
mod folds;
mod runs;

pub use dim::{Dim, default_dim};
pub use folds::{Fold, fold_lines};
pub use runs::{LineRule, line_cells, map_lines};
