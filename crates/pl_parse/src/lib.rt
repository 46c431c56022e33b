//! The parser: the program of the tokens of a source, or their first fault and its place.
//!
//! Which tokens are a program, and what the fault of others is, the grammar says (`pl_grammar`): derivations that know
//! of no parser. Promised: `parse` answers exactly the program, or exactly the fault with the place that it is shown at
//! (`specs/Faults.antt`). The functions below it follow a machine over trees (`pl_steps`, `pl_states`), and the law
//! `one_machine` says that it is the machine of the grammar with trees in the place of derivations
//! (`specs/Image.antt`). Want of memory is the one answer that no clause rules out.
#![tactic(auto)]

mod fault;
mod law;
mod parsing;

pub use fault::ParseFault;
pub use law::one_machine;
pub use parsing::parse;
