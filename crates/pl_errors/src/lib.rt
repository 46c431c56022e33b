//! What a script error is called, and the line that tells it.
//!
//! Each kind has a number, a name and a text of its own. Promised: an error that is raised has its kind, its
//! place and the kind's text, and its line is `parlab: error E9 IndexRange at 1:5: index past the end`. The
//! numbers, names and texts are this project's own; `specs/` has them as one table.
#![tactic(auto)]

mod kinds;
mod raising;

pub use kinds::{message, name, number};
pub use raising::{raise, write_line};
