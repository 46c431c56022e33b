//! The functions that pick, order and lay out the cells of an array: `find`, `reshape`, `repmat`, `sort`, `unique`,
//! `any`, `all`, `cumsum`, `fliplr`, `flipud` and `nnz`.
//!
//! They are those of the MATLAB documentation, for arrays of rows and columns. What is promised: a call answers what the
//! definitions of `specs/` say, or the refusal that they say: first the count of arguments and outputs, then a text
//! that isn't the stated one, an argument that isn't one number, a number out of its range, and what the function itself
//! refuses. Arguments are only read.
#![tactic(auto)]

mod along;
mod arguments;
mod call;
mod finding;
mod laws;
mod layout;
mod order;
mod set_fn;
mod sums;

pub use call::{call_set, call_set_in};
pub use laws::{distinct_cells_rise, in_order_is_a_stable_sort, names_differ};
pub use order::Way;
pub use set_fn::SetFn;
