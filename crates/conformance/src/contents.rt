//! What came of reading a file of cases.

use pl_base::Seq;
use pl_cases::{Case, Malformed};

#[derive(Debug, Drop)]
pub enum Contents {
    Cases(Seq<Case>),
    /// The first fault of the text.
    Malformed(Malformed),
    Unreadable,
}
