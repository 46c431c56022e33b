//! What a run left, held against what was wanted of it.

ghost use Rattle.std.specs.Prelude.{◌≡◌, ◌↔◌, IsTrue, IfSome, Contains};
ghost use Rattle.conformance.specs.Passes.{Passes, Tells};
ghost use Rattle.conformance.specs.declared.compare.Verdict.{Verdict};

use pl_base::{Seq, Text};
use pl_cases::Wanted;

/// What a run left.
#[derive(Debug, Drop)]
pub struct Seen {
    pub status: u8,
    pub out: Text,
    pub notes: Text,
    /// The choices of its journal, a line each.
    pub choices: Text,
}

/// How a run compares with what was wanted: the first of status, output, notes and choices that is wrong.
#[derive(Clone, Copy, Debug)]
pub enum Verdict {
    Passed,
    WrongStatus,
    WrongOut,
    WrongNotes,
    WrongChoices,
}

pub fn judge(wanted: &Wanted, seen: &Seen) -> Verdict
    ensures passed { (result ≡ Verdict.Passed) ↔ Passes wanted.now seen.now }
    ensures first { Tells wanted.now seen.now result }
{
    if seen.status != wanted.status {
        return Verdict::WrongStatus;
    }
    if !is_allowed(&wanted.outs, &seen.out) {
        return Verdict::WrongOut;
    }
    if seen.notes != wanted.notes {
        return Verdict::WrongNotes;
    }
    if !is_wanted(&wanted.choices, &seen.choices) {
        return Verdict::WrongChoices;
    }
    Verdict::Passed
}

/// The text is one of those that are allowed.
fn is_allowed(allowed: &Seq<Text>, text: &Text) -> bool
    ensures { IsTrue result ↔ Contains allowed.now text.now }
{
    allowed.items().contains(text)
}

/// The text is the one that is wanted, or any where none is.
fn is_wanted(wanted: &Option<Text>, text: &Text) -> bool
    ensures { IsTrue result ↔ IfSome wanted.now (λ w. w ≡ text.now) }
{
    match wanted {
        Some(wanted) => wanted == text,
        None => true,
    }
}
