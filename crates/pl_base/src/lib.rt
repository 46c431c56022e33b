//! The ground floor: texts, lists, places, the kinds of script errors, want of memory, the numbers of
//! the language, and the small plain types that many crates share.
//!
//! Nothing here knows a script, a file or a thread. What is promised: a text is its bytes and a list
//! its elements, in every clause above; a sum is exact and then clamped to 64 bits; an error of a
//! call that may want memory tells want of memory apart from the refusal (`Or`).
#![tactic(auto)]

mod choice;
mod errors;
mod gate;
mod memory;
mod mode;
mod numbers;
mod seq;
mod text;

pub use choice::{Bracket, Choice, Given, Sender, State};
pub use errors::{ErrKind, Place, ScriptError};
pub use gate::{Free, Gate};
pub use memory::{NoMemory, Or};
pub use mode::Mode;
pub use numbers::{
    NegativePower, add_sat, div_round, mod_floor, mul_sat, neg_sat, pow_sat, power, power_within,
    rem_zero, sub_sat,
};
pub use seq::Seq;
pub use text::{Text, Word};
