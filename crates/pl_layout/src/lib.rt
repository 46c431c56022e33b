//! How terminals are laid out as text, and the law that the text is read back.
//!
//! The text of terminals (`specs/Layout.antt`) has each word's bytes, a blank where white space stands before a
//! word, and two blanks for each open block at the start of a line. Which terminals can be laid out so is said by
//! plain conditions (`specs/Shown.antt`): each word is one, no two run together, a quote means what it should, and a
//! line has white space at its front exactly where it is indented. The law says that the tokens of such a text are
//! these terminals again, with the same words and the same white space. Nothing here runs.
#![tactic(auto)]

mod laws;

pub use laws::texts_are_read_back;
