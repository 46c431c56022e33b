//! What a program is printed as, and the law that it is read back.
//!
//! The canonical spelling of a program (`specs/Canonical.antt`) is a list of terminals: one statement a line, blanks
//! around the operators of two operands, parentheses only where an operand binds too loosely without. The tree
//! doesn't tell how a source was laid out, and all sources of one tree have one spelling. The law says that these
//! terminals, wherever they stand, are a program again, the same but for places (`specs/Places.antt`), and that it
//! nests no deeper than a source of it did. Nothing here runs.
#![tactic(auto)]

mod laws;

pub use laws::printed_is_read_back;
