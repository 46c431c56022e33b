//! What is told of tokens that are no program.

use pl_base::Place;
use pl_grammar::FaultKind;

/// Why tokens are no program, and the place of the first that no program has there, or the end of the file where
/// they end too early.
#[derive(Clone, Copy, Debug, PartialEq, Eq)]
pub struct ParseFault {
    pub kind: FaultKind,
    pub place: Place,
}
