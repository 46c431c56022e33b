//! Sections in groups: a case, and what is said of it.

ghost use Rattle.std.specs.Prelude.{◌≡◌, ◌≤◌, length};
ghost use Rattle.pl_cases.specs.Answers.{Gives, Leaves};
ghost use Rattle.pl_cases.specs.Cases as spec;

use crate::cases::Case;
use crate::draft::Draft;
use crate::line::Head;
use crate::malformed::{Malformed, Reason, at};
use crate::section::Section;
use pl_base::{Or, Seq};
use std::alloc::Global;

/// How many sections stand before the next case.
fn to_next_case(sections: &[Section]) -> usize
    ensures count { result ≡ spec.to_next_case sections.now }
    ensures within { result ≤ length sections.now }
{
    for (index, section) in sections.iter().enumerate() {
        if section.head.is_case() {
            return index;
        }
    }
    sections.len()
}

/// What the section says; a fault is told of its line.
fn add_at(alloc: Global, draft: &mut Draft, section: &Section) -> Result<(), Or<Malformed>>
    ensures { Leaves result draft.new (spec.said_at draft.old section.now) }
{
    at(section.line, draft.add(alloc, section))
}

/// What these sections say, behind what was said before.
fn add_all(alloc: Global, draft: Draft, sections: &[Section]) -> Result<Draft, Or<Malformed>>
    ensures { Gives result (spec.said_by_all draft sections.now) }
{
    let mut draft = draft;
    for section in sections {
        add_at(alloc, &mut draft, section)?;
    }
    Ok(draft)
}

/// The case of this name, with all that is said of it.
fn case_of(
    alloc: Global,
    line: u64,
    name: &[u8],
    sections: &[Section],
) -> Result<Case, Or<Malformed>>
    ensures { Gives result (spec.case_of (spec.group line name.now sections.now)) }
{
    let draft = Draft::new(alloc, name, line)?;
    let draft = add_all(alloc, draft, sections)?;
    draft.finish(alloc)
}

/// The case that the section begins, of which these are what is said of it.
fn case_at(alloc: Global, first: &Section, said: &[Section]) -> Result<Case, Or<Malformed>>
    ensures { Gives result (spec.case_at first.now first.now.head said.now) }
{
    match &first.head {
        Head::Case(name) => case_of(alloc, first.line, name.bytes(), said),
        Head::Command(_) | Head::Mark(_) => Err(Or::Is(Malformed {
            line: first.line,
            reason: Reason::NoCase,
        })),
    }
}

/// The cases of the sections.
pub fn cases(alloc: Global, sections: &[Section]) -> Result<Seq<Case>, Or<Malformed>>
    ensures { Gives result (spec.cases_in (spec.grouped sections.now)) }
{
    let mut cases = Seq::empty(alloc);
    let mut rest = sections;
    while let [first, behind @ ..] = rest {
        let (said, more) = behind.split_at(to_next_case(behind));
        cases.push(case_at(alloc, first, said)?)?;
        rest = more;
    }
    Ok(cases)
}
