//! The words by which whatever carries out a script reaches its workspace, its turns and its world.
//!
//! Each promises the word of the same name in the definition of a run (`pl_meaning`): read a variable, write one,
//! read or write a part of one, delete a part, take a turn, tell an event, raise an error at a place. A word
//! that refuses leaves the workspace as it was.
//!
//! A variable holds its array shared: a copy of it, as an argument or in a workspace over another, takes no memory,
//! and the first write to a copy is what copies the cells.
#![tactic(auto)]

mod access;
mod asking;
mod bounding;
mod extras;
mod failing;
mod storing;
mod telling;

pub use access::{check, erase_part, read, read_end, read_part, take_turn, write, write_part};
pub use asking::ask;
pub use bounding::bounds_at;
pub use extras::extra;
pub use failing::{array_at, fail};
pub use pl_base::Or;
pub use pl_meaning::Halt;
pub use storing::{assign_in, shared};
pub use telling::tell;
