//! Loops over workers: the iterations, what they wrote, and what they come to together.
//!
//! An iteration is a run of the body from the workspace before the loop, with its own value of the index, and turns and
//! levels of its own; so none sees what another wrote. `run_loop` promises the answer of the definition
//! (`pl_meaning`, `Loops`) under a choice that is legal there: what every iteration wrote and printed, where none of
//! them raises; else the error of one that does.
//!
//! Today it runs them in order on the thread that asks: the body as an ordinary loop over one workspace, which by a law
//! of `pl_frame` is the same, so that no array is copied for an iteration. Where a pass isn't carried out to its end, that
//! iteration is run by itself, which tells its error; and where it has none, all of them are. The rules are those of
//! `parfor` in the MathWorks Parallel Computing Toolbox User's Guide, for sliced output variables.
#![tactic(auto)]

mod choosing;
mod headed;
mod iterating;
mod passing;
mod premises;
mod printer;
mod rising;
mod running;
mod variables;
mod writing;

pub use running::{Done, run_loop};
