//! What a terminal does behind an operand of a half-read expression.
//!
//! One function for each word, as the machine of the grammar has them: operators and ranges, separators, closing
//! brackets, and what goes on with a name. Each gives exactly what its definition (`specs/Steps.antt` of `pl_steps`)
//! says: the next state, or the fault; want of memory is the one answer that no clause rules out.
#![tactic(auto)]

mod closing;
mod ending;
mod joining;
mod reading;

pub use reading::{read_after, untear};
