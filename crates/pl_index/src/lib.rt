//! Indexing: what an index selects, what an assignment makes, and what a deletion leaves.
//!
//! Promised: each call gives the array that the definitions of `specs/` say, or the refusal that they say, in
//! their order. An assignment is defined by its cells: the last value written to a place, else the old cell, else 0. After
//! a refusal, and where memory is wanting, the array is as it was.
#![tactic(auto)]

mod assigning;
mod deleting;
mod growth;
mod index;
mod places;
mod selecting;
mod write;

pub use assigning::{assign, assign_new};
pub use deleting::delete;
pub use index::{Index, Pos};
pub use selecting::select;
