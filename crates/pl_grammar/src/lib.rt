//! The grammar of programs, and the machine that reads it one terminal after another.
//!
//! What a program is, is said by derivations: plain data with one constructor for each rule
//! (`specs/Derivations.antt`). A derivation has its terminals (`specs/Spelling.antt`), its tree
//! (`specs/Trees.antt`) and its nesting (`specs/Nesting.antt`), and a few conditions that the rules alone
//! don't say: precedence, white space in square brackets, where `break`, `spmd` or `end` may stand
//! (`specs/Sound.antt`). From these the program relation and the relation of faults are made
//! (`specs/Programs.antt`); neither knows a parser. The machine (`specs/Machine.antt`, `specs/Steps.antt`)
//! is what a parser mirrors. The types here are those that both sides speak of.
//!
//! The language is that of the MathWorks Parallel Computing Toolbox User's Guide and of the MATLAB
//! documentation, narrowed to the profile of docs/LANGUAGE.md.
#![tactic(auto)]

mod fault;
mod laws;
mod owner;
mod terminal;

pub use fault::FaultKind;
pub use laws::{machine_reads, one_answer, trees_are_low};
pub use owner::Owner;
pub use terminal::{Keyword, Terminal, Word};
