//! Why a file of cases can't be read, and where.

ghost use Rattle.std.specs.Prelude.{◌≡◌};
ghost use Rattle.pl_cases.specs.Answers.{Gives, placed};

use pl_base::Or;
use thiserror::Error;

#[derive(Clone, Copy, Debug, PartialEq, Eq, Error)]
pub enum Reason {
    #[error("the file's last line has no end")]
    NoLineEnd,
    #[error("a line that is in no block")]
    NoBlock,
    #[error("a line before the first case")]
    NoCase,
    #[error("a case without a name")]
    NoName,
    #[error("a case without a command line")]
    NoCommand,
    #[error("a second command line in one case")]
    SecondCommand,
    #[error("no such mark, or one that lacks a word or has one too many")]
    UnknownMark,
    #[error("not a number, or not in its range")]
    BadNumber,
    #[error("a mark or a file that stands twice in one case")]
    Twice,
    #[error("another output without a first one")]
    OrWithoutOut,
    #[error("journals are not built")]
    NotBuilt,
}

/// The line, counted from 1, and what is wrong with it.
#[derive(Clone, Copy, Debug, PartialEq, Eq, Error)]
#[error("{line}: {reason}")]
pub struct Malformed {
    pub line: u64,
    pub reason: Reason,
}

/// The same answer, where a fault has the line on which it stands.
pub fn at<T>(line: u64, found: Result<T, Or<Reason>>) -> Result<T, Or<Malformed>>
    ensures { result ≡ placed line found }
{
    match found {
        Ok(value) => Ok(value),
        Err(Or::Memory) => Err(Or::Memory),
        Err(Or::Is(reason)) => Err(Or::Is(Malformed { line, reason })),
    }
}

/// The same answer, of a call that wants no memory.
pub fn refusing<T>(found: Result<T, Reason>) -> Result<T, Or<Reason>>
    ensures { Gives result found }
{
    match found {
        Ok(value) => Ok(value),
        Err(reason) => Err(Or::Is(reason)),
    }
}
