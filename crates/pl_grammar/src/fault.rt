//! What can be wrong with a list of terminals.

/// Why a list of terminals is no program.
#[derive(Clone, Copy, Debug, PartialEq, Eq)]
pub enum FaultKind {
    /// The terminal can't stand there.
    Unexpected,
    /// The file ends inside a compound statement or a function.
    MissingEnd,
    /// With the terminal the program nests too deep.
    TooDeep,
    /// A function of this name stands already.
    FunctionTwice,
}
