//! Terminals: the tokens of a source with what a grammar needs to know of their bytes.
//!
//! A token is a range of a source; a terminal has the name, the text without its quotes, the number, the sign or the
//! keyword that stands there, and where it begins by line and column. Promised: of tokens that are ranges of the
//! source, `terminals` answers exactly those of the definition (`specs/Terminals.antt`), in one pass over the source.
//! Want of memory is the one answer that no clause rules out.
#![tactic(auto)]

mod law;
mod places;
mod signs;
mod texts;
mod words;

pub use law::spelling;
pub use places::end_place;
pub use words::terminals;
