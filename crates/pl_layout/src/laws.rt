//! The law of texts.

ghost use Rattle.pl_layout.specs.Shown.{TextLaw};

/// Holds of all terminals that can be laid out: their text has tokens, and these are the same words with the same
/// white space; it does nothing when it runs.
pub fn texts_are_read_back()
    ensures { TextLaw }
{}
