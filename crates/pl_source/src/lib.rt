//! From the bytes of a source to a program that can be run, or to the line that refuses it.
//!
//! What is refused first: bytes that are cut into no tokens, tokens that are no program, a name that stands for
//! nothing, and then what nothing carries out yet. Each refusal is exactly that of the definitions below this
//! crate, and its line tells its kind and place. No source is both a program and refused (`one_answer`).
#![tactic(auto)]

mod law;
mod reading;
mod refusals;

pub use law::one_answer;
pub use reading::ready;
pub use refusals::Refusal;
