//! What a terminal does where an operand has to come, and the words of all steps of an expression.
//!
//! One function for each word, as the machine of the grammar has them. Each gives exactly what its definition
//! (`specs/Steps.antt`) says: the next state, or the fault; want of memory is the one answer that no clause rules
//! out. What a terminal does behind an operand (`pl_behind`), and behind names and outputs (`pl_outputs`), is defined
//! here too, and is done above with the functions of this crate.
#![tactic(auto)]

mod forms;
mod names;
mod operands;
mod refusing;
mod settling;

pub use forms::{has_state, target_name};
pub use names::{Dots, dots_of, is_state};
pub use operands::{answered, called, is_end, laid, read_operand};
pub use refusing::{
    Step, nothing, nothing_with, refused, refused_both, refused_with, roomy, wanting,
};
pub use settling::{assign, ended, settle};
