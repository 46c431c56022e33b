//! What a kind of script error is called: its number, its name, its text.

ghost use Rattle.std.specs.Prelude.{◌≡◌};
ghost use Rattle.pl_errors.specs.Errors.{number_of_kind, name_of, message_of};

use pl_base::ErrKind;

/// The number of a kind, from 1.
pub fn number(kind: ErrKind) -> u32
    ensures { result ≡ number_of_kind kind }
{
    match kind {
        ErrKind::SizeMismatch => 1,
        ErrKind::ConcatMismatch => 2,
        ErrKind::CharRange => 3,
        ErrKind::SizeLimit => 4,
        ErrKind::NegativePower => 5,
        ErrKind::MatrixOp => 6,
        ErrKind::RangeArg => 7,
        ErrKind::BadIndex => 8,
        ErrKind::IndexRange => 9,
        ErrKind::GrowAmbiguous => 10,
        ErrKind::AssignSize => 11,
        ErrKind::DeleteShape => 12,
        ErrKind::NoValue => 13,
        ErrKind::TempUnset => 14,
        ErrKind::ArgCount => 15,
        ErrKind::ArgClass => 16,
        ErrKind::ArgRange => 17,
        ErrKind::BadKind => 18,
        ErrKind::NotScalar => 19,
        ErrKind::OutputUnset => 20,
        ErrKind::FormatBad => 21,
        ErrKind::User => 22,
        ErrKind::Spent => 23,
        ErrKind::TooDeep => 24,
        ErrKind::WrongPlace => 25,
        ErrKind::SliceScalar => 26,
        ErrKind::SliceUnset => 27,
        ErrKind::MixedClass => 28,
        ErrKind::MergeSize => 29,
        ErrKind::NoUnread => 30,
        ErrKind::Cancelled => 31,
        ErrKind::CompositeUnset => 32,
        ErrKind::Deadlock => 33,
        ErrKind::CollectiveMismatch => 34,
        ErrKind::PartSum => 35,
        ErrKind::GridSize => 36,
        ErrKind::BlockZero => 37,
        ErrKind::LocalSize => 38,
        ErrKind::SchemeMismatch => 39,
        ErrKind::NotInReduction => 40,
        ErrKind::Overflow => 41,
    }
}

/// The name of a kind, as a line tells it.
pub fn name(kind: ErrKind) -> &'static str
    ensures { result.now ≡ name_of kind }
{
    match kind {
        ErrKind::SizeMismatch => "SizeMismatch",
        ErrKind::ConcatMismatch => "ConcatMismatch",
        ErrKind::CharRange => "CharRange",
        ErrKind::SizeLimit => "SizeLimit",
        ErrKind::NegativePower => "NegativePower",
        ErrKind::MatrixOp => "MatrixOp",
        ErrKind::RangeArg => "RangeArg",
        ErrKind::BadIndex => "BadIndex",
        ErrKind::IndexRange => "IndexRange",
        ErrKind::GrowAmbiguous => "GrowAmbiguous",
        ErrKind::AssignSize => "AssignSize",
        ErrKind::DeleteShape => "DeleteShape",
        ErrKind::NoValue => "NoValue",
        ErrKind::TempUnset => "TempUnset",
        ErrKind::ArgCount => "ArgCount",
        ErrKind::ArgClass => "ArgClass",
        ErrKind::ArgRange => "ArgRange",
        ErrKind::BadKind => "BadKind",
        ErrKind::NotScalar => "NotScalar",
        ErrKind::OutputUnset => "OutputUnset",
        ErrKind::FormatBad => "FormatBad",
        ErrKind::User => "User",
        ErrKind::Spent => "Spent",
        ErrKind::TooDeep => "TooDeep",
        ErrKind::WrongPlace => "WrongPlace",
        ErrKind::SliceScalar => "SliceScalar",
        ErrKind::SliceUnset => "SliceUnset",
        ErrKind::MixedClass => "MixedClass",
        ErrKind::MergeSize => "MergeSize",
        ErrKind::NoUnread => "NoUnread",
        ErrKind::Cancelled => "Cancelled",
        ErrKind::CompositeUnset => "CompositeUnset",
        ErrKind::Deadlock => "Deadlock",
        ErrKind::CollectiveMismatch => "CollectiveMismatch",
        ErrKind::PartSum => "PartSum",
        ErrKind::GridSize => "GridSize",
        ErrKind::BlockZero => "BlockZero",
        ErrKind::LocalSize => "LocalSize",
        ErrKind::SchemeMismatch => "SchemeMismatch",
        ErrKind::NotInReduction => "NotInReduction",
        ErrKind::Overflow => "Overflow",
    }
}

/// The text of a kind; empty for those whose text is made where they rise.
pub fn message(kind: ErrKind) -> &'static str
    ensures { result.now ≡ message_of kind }
{
    match kind {
        ErrKind::SizeMismatch => "sizes do not fit",
        ErrKind::ConcatMismatch => "sizes cannot be joined",
        ErrKind::CharRange => "no such character",
        ErrKind::SizeLimit => "too large",
        ErrKind::NegativePower => "negative power",
        ErrKind::MatrixOp => "no matrix operation",
        ErrKind::RangeArg => "range needs scalars",
        ErrKind::BadIndex => "bad index",
        ErrKind::IndexRange => "index past the end",
        ErrKind::GrowAmbiguous => "cannot grow",
        ErrKind::AssignSize => "wrong number of values",
        ErrKind::DeleteShape => "cannot delete",
        ErrKind::NoValue => "no value",
        ErrKind::TempUnset => "temporary without value",
        ErrKind::ArgCount => "wrong number of arguments",
        ErrKind::ArgClass => "wrong class",
        ErrKind::ArgRange => "argument out of range",
        ErrKind::BadKind => "wrong kind of value",
        ErrKind::NotScalar => "scalar needed",
        ErrKind::OutputUnset => "output without value",
        ErrKind::FormatBad => "bad format",
        ErrKind::User => "",
        ErrKind::Spent => "out of turns",
        ErrKind::TooDeep => "too deep",
        ErrKind::WrongPlace => "not allowed here",
        ErrKind::SliceScalar => "sliced index needs a scalar",
        ErrKind::SliceUnset => "sliced variable has no extent",
        ErrKind::MixedClass => "written with two classes",
        ErrKind::MergeSize => "merged array too large",
        ErrKind::NoUnread => "no unread future",
        ErrKind::Cancelled => "call was cancelled",
        ErrKind::CompositeUnset => "no value on this worker",
        ErrKind::Deadlock => "",
        ErrKind::CollectiveMismatch => "",
        ErrKind::PartSum => "partition does not fit",
        ErrKind::GridSize => "grid does not fit",
        ErrKind::BlockZero => "block size is zero",
        ErrKind::LocalSize => "local part has the wrong size",
        ErrKind::SchemeMismatch => "other number of workers",
        ErrKind::NotInReduction => "not allowed in a reduction",
        ErrKind::Overflow => "overflow",
    }
}
