//! Reads the cases of a text.

ghost use Rattle.std.specs.Prelude.{◌≡◌, Ok, Err, IfOk};
ghost use Rattle.pl_cases.specs.Answers.{Gives, IfFault};
ghost use Rattle.pl_cases.specs.Cases.{cases_of};

use crate::cases::Case;
use crate::group::cases;
use crate::line::lines;
use crate::malformed::Malformed;
use crate::section::sections;
use pl_base::{Or, Seq};
use std::alloc::Global;

/// The cases in their order, or the first fault.
pub fn parse(alloc: Global, source: &[u8]) -> Result<Seq<Case>, Or<Malformed>>
    ensures found { IfOk result (λ cases. cases_of source.now ≡ Ok cases) }
    ensures fault { IfFault result (λ fault. cases_of source.now ≡ Err fault) }
{
    parse_all(alloc, source)
}

#[tactic(auto, unfolding(crate::specs::Cases::cases_of))]
fn parse_all(alloc: Global, source: &[u8]) -> Result<Seq<Case>, Or<Malformed>>
    ensures { Gives result (cases_of source.now) }
{
    let lines = lines(alloc, source)?;
    let sections = sections(alloc, lines.items())?;
    cases(alloc, sections.items())
}
