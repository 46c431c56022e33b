//! What a terminal does behind names, behind a colon that is an argument, and at outputs that are no expressions.
//!
//! One function for each state, as the machine of the grammar has them. Each gives exactly what its definition
//! (`specs/Steps.antt` of `pl_steps`) says: the next state, or the fault; want of memory is the one answer that no
//! clause rules out.
#![tactic(auto)]

mod outputs;

pub use outputs::{
    behind_at, behind_colon, behind_dot, behind_output, behind_outputs, behind_stem, read_output,
};
