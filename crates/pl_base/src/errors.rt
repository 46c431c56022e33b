//! The errors that a script can raise, and where.

use crate::text::Text;

/// A place in the source: line and column count from 1, the column in bytes, `at` counts bytes from 0.
#[derive(Clone, Copy, Debug, PartialEq, Eq)]
pub struct Place {
    pub line: u32,
    pub col: u32,
    pub at: u32,
}

/// An error that a script raises: its kind, its place, and the text that its line ends with.
#[derive(Debug, Drop, PartialEq, Eq)]
pub struct ScriptError {
    pub kind: ErrKind,
    pub place: Place,
    pub text: Text,
}

/// The kinds of script errors, in the order of their numbers, which begin with 1.
#[derive(Clone, Copy, Debug, PartialEq, Eq)]
pub enum ErrKind {
    SizeMismatch,
    ConcatMismatch,
    CharRange,
    SizeLimit,
    NegativePower,
    MatrixOp,
    RangeArg,
    BadIndex,
    IndexRange,
    GrowAmbiguous,
    AssignSize,
    DeleteShape,
    NoValue,
    TempUnset,
    ArgCount,
    ArgClass,
    ArgRange,
    BadKind,
    NotScalar,
    OutputUnset,
    FormatBad,
    User,
    Spent,
    TooDeep,
    WrongPlace,
    SliceScalar,
    SliceUnset,
    MixedClass,
    MergeSize,
    NoUnread,
    Cancelled,
    CompositeUnset,
    Deadlock,
    CollectiveMismatch,
    PartSum,
    GridSize,
    BlockZero,
    LocalSize,
    SchemeMismatch,
    NotInReduction,
    Overflow,
}
