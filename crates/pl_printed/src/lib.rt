//! The laws that a printed program is read back, and printed again as the same text.
//!
//! A program that some source has is printed as a text: the terminals of its canonical spelling, laid out. The law
//! (`specs/Printed.antt`) says that this text has tokens, and that their terminals are a program again, at the same
//! limit of nesting and the same one but for places. It puts two laws together, that of the canonical spelling and
//! that of texts; what is proved here is that canonical terminals can be laid out. The second law says that printing
//! doesn't look at places, so the program that is read back is printed as the same text. Nothing here runs.
#![tactic(auto)]

mod law;

pub use law::{printed_again_is_the_same, printed_texts_are_read_back};
