//! The laws.

ghost use Rattle.pl_printed.specs.Printed.{PlacesAreNotPrinted, PrintedAgain, PrintedLaw};

/// Holds of all sources and their programs: the text that a program is printed as is a source of the same program,
/// but for places; it does nothing when it runs.
pub fn printed_texts_are_read_back()
    ensures { PrintedLaw }
{}

/// Holds of all sources and their programs: what is printed, read back and printed again is the same text, byte for
/// byte, since printing doesn't look at places; it does nothing when it runs.
pub fn printed_again_is_the_same()
    ensures places { PlacesAreNotPrinted }
    ensures again { PrintedAgain }
{}
