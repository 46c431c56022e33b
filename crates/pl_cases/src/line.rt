//! The lines of a text, and what each of them begins.

ghost use Rattle.std.specs.Prelude.{◌≡◌};
ghost use Rattle.pl_cases.specs.Answers.{Gives};
ghost use Rattle.pl_cases.specs.Lines as spec;

use crate::bytes::{self, command, trimmed};
use crate::malformed::{Malformed, Reason};
use crate::mark::Mark;
use pl_base::{Or, Seq, Text, Word};
use std::alloc::Global;

/// What a line begins.
#[derive(Debug, Drop)]
pub enum Head {
    /// `=== NAME`
    Case(Text),
    /// `$ WORD ..`
    Command(Seq<Word>),
    /// `--- WORD ..`
    Mark(Mark),
}

impl Head {
    /// Text may follow that belongs to what is begun.
    pub fn takes_text(&self) -> bool
        ensures { result ≡ spec.takes_text self.now }
    {
        match self {
            Head::Mark(mark) => mark.takes_text(),
            _ => false,
        }
    }

    pub fn is_case(&self) -> bool
        ensures { result ≡ spec.is_case self.now }
    {
        matches!(self, Head::Case(_))
    }
}

/// The lines without their ends. The last one has an end too.
pub fn lines(alloc: Global, source: &[u8]) -> Result<Seq<Text>, Or<Malformed>>
    ensures { Gives result (spec.lines_of source.now) }
{
    let mut lines = bytes::pieces(alloc, b'\n', source)?;
    let Some(rest) = lines.pop() else {
        return Ok(Seq::of(lines));
    };
    if rest.bytes().is_empty() {
        return Ok(Seq::of(lines));
    }
    Err(Or::Is(Malformed {
        line: lines.as_slice().len() as u64 + 1,
        reason: Reason::NoLineEnd,
    }))
}

/// What the line begins, if anything. Outside a text a line that begins nothing is empty or a remark.
pub fn begun(alloc: Global, in_text: bool, line: &[u8]) -> Result<Option<Head>, Or<Reason>>
    ensures { Gives result (spec.begun in_text line.now) }
{
    if let Some(name) = line.strip_prefix(b"===") {
        return Ok(Some(Head::Case(Text::of(alloc, trimmed(name))?)));
    }
    if let Some(mark) = line.strip_prefix(b"---") {
        let words = bytes::words(alloc, mark)?;
        return Ok(Some(Head::Mark(Mark::of_words(alloc, words.items())?)));
    }
    if in_text {
        return Ok(None);
    }
    begun_outside(alloc, line)
}

/// What a line outside a text begins that begins no case and is no mark.
fn begun_outside(alloc: Global, line: &[u8]) -> Result<Option<Head>, Or<Reason>>
    ensures { Gives result (spec.begun_outside line.now) }
{
    match line {
        [b'$', words @ ..] => Ok(Some(Head::Command(command(alloc, words)?))),
        [] | [b'#', ..] => Ok(None),
        _ => Err(Or::Is(Reason::NoBlock)),
    }
}
