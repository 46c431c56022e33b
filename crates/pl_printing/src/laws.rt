//! The law.

ghost use Rattle.pl_printing.specs.ReadingBack.{ReadBack};

/// Holds of all programs that some list of terminals is: each list with the words and the white space of the
/// program's canonical spelling is a program at the same limit of nesting, the same one but for places.
pub fn printed_is_read_back()
    ensures { ReadBack }
{}
