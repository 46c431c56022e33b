//! The cases of a text: what a run is given, and what is wanted of it.
//!
//! `parse` gives exactly the cases of the text, as `specs/` defines them: its lines, the sections that they make, what
//! each mark says, what a section says of its case, and what holds of a case where nothing is said. Or it gives the
//! first fault: of the file's end, else of its first wrong line, else of its first wrong case. Want of memory alone
//! isn't ruled out.
#![tactic(auto)]

mod bytes;
mod cases;
mod draft;
mod group;
mod line;
mod malformed;
mod mark;
mod reading;
mod section;

pub use cases::{Case, Given, Limits, Wanted};
pub use malformed::{Malformed, Reason};
pub use reading::parse;
