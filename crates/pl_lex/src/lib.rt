//! The tokens of a source, or the first fault of its tokens.
//!
//! Which tokens a source has is said by a grammar of pieces (`specs/Pieces.antt`, `specs/Tokens.antt`):
//! a source is cut into names, literals, texts, signs, line ends, white space and comments, each as long
//! as it can be, and then ends, cleanly or at what begins no token. The grammar knows nothing of a
//! cursor. What is promised: `lex` answers exactly the tokens of the grammar, or exactly its fault with
//! the fault's place, and each source has one of the two (`one_answer`). A token is a range of the
//! source; nothing is copied. Want of memory is the one answer that no clause rules out.
#![tactic(auto)]

mod bytes;
mod keywords;
mod law;
mod lexer;
mod place;
mod scan;
mod state;
mod token;

pub use law::{one_answer, token_ranges};
pub use lexer::lex;
pub use token::{Kind, LexFault, LexKind, Token};
