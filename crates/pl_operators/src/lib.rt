//! What operators, brackets, ranges, indexing and displays make of values.
//!
//! Everything here acts on values that are there already; nothing knows a workspace, a script or a world.
//! Promised: each call gives the value that the definitions of `specs/` say, or the refusal that they say, in
//! their order; operands are tested for arrays from the left before anything else; and a value that a call can't
//! change after all is as it was. The operators are MATLAB's, narrowed to whole numbers, truth values and
//! characters; futures, Composites and codistributed arrays are those of the MathWorks Parallel Computing
//! Toolbox User's Guide.
#![tactic(auto)]

mod argument;
mod assigning;
mod braces;
mod bracketing;
mod extents;
mod for_columns;
mod indexing;
mod literals;
mod operands;
mod operating;
mod picking;
mod ranging;
mod showing;
mod truth;

pub use argument::{Argument, given};
pub use assigning::assign_value;
pub use braces::{assign_brace, brace};
pub use bracketing::rows;
pub use extents::extent;
pub use for_columns::{column, columns};
pub use indexing::index;
pub use literals::{chars, number};
pub use operating::{binary, unary};
pub use picking::{delete_value, select_value};
pub use ranging::range;
pub use showing::shown;
pub use truth::{case_fits, condition, logical, switch};
