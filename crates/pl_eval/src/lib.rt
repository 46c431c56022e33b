//! Carrying out a script: its expressions, its statements and its functions, over a world.
//!
//! Each function here promises the definition of the part that it carries out (`pl_meaning`): it goes on with
//! that definition's value from where the workspace, the turns and the events then stand, or halts as it does.
//! So `run` promises the definition of a whole run, and nothing else.
#![tactic(auto)]

mod applying;
mod assigning;
mod branching;
mod calling;
mod doors;
mod expressions;
mod lists;
mod local;
mod loops;
mod naming;
mod operators;
mod outputs;
mod running;
mod sharing;
mod showing;
mod statements;

pub use expressions::value;
pub use pl_meaning::{Ended, World};
pub use pl_resolve::Resolved;
pub use running::{run, run_body};
