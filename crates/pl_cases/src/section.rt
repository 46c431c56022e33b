//! The first cut of a text: sections, each a line that begins a case, a command line or a mark, with the text that
//! belongs to it.

ghost use Rattle.std.specs.Prelude.{◌≡◌, ◌≤◌, length, IfOk};
ghost use Rattle.pl_cases.specs.Answers.{Gives};
ghost use Rattle.pl_cases.specs.Sections as spec;

use crate::line::{Head, begun};
use crate::malformed::{Malformed, at};
use pl_base::{NoMemory, Or, Seq, Text};
use std::alloc::Global;

#[derive(Debug, Drop)]
pub struct Section {
    /// The number of its first line, from 1.
    pub line: u64,
    pub head: Head,
    /// The bytes that the lines below it stand for.
    pub text: Text,
}

/// What a line begins; a fault is told of the line.
fn begun_at(
    alloc: Global,
    number: u64,
    in_text: bool,
    line: &[u8],
) -> Result<Option<Head>, Or<Malformed>>
    ensures { Gives result (spec.begun_at number in_text line.now) }
{
    at(number, begun(alloc, in_text, line))
}

/// The sections of the lines.
pub fn sections(alloc: Global, lines: &[Text]) -> Result<Seq<Section>, Or<Malformed>>
    ensures { Gives result (spec.sections_from spec.outside 1 lines.now) }
{
    let mut found = Seq::empty(alloc);
    let mut in_text = false;
    for (index, line) in lines.iter().enumerate() {
        let number = index as u64 + 1;
        if let Some(head) = begun_at(alloc, number, in_text, line.bytes())? {
            in_text = head.takes_text();
            let text = text_of(alloc, in_text, &lines[index + 1..])?;
            found.push(Section {
                line: number,
                head,
                text,
            })?;
        }
    }
    Ok(found)
}

/// The text of a section, of which these are all lines behind its first.
fn text_of(alloc: Global, takes_text: bool, behind: &[Text]) -> Result<Text, NoMemory>
    ensures { IfOk result (λ text. text ≡ spec.text_of takes_text behind.now) }
{
    if !takes_text {
        return Text::of(alloc, b"");
    }
    bytes_of(alloc, &behind[..count_in_text(behind)])
}

/// How many lines at the front belong to a text.
fn count_in_text(lines: &[Text]) -> usize
    ensures count { result ≡ spec.count_in_text lines.now }
    ensures within { result ≤ length lines.now }
{
    for (index, line) in lines.iter().enumerate() {
        if ends_text(line.bytes()) {
            return index;
        }
    }
    lines.len()
}

/// The line is a mark, or begins a case.
fn ends_text(line: &[u8]) -> bool
    ensures { result ≡ spec.ends_text line.now }
{
    line.strip_prefix(b"===").is_some() || line.strip_prefix(b"---").is_some()
}

/// The bytes that the lines of a text stand for.
fn bytes_of(alloc: Global, lines: &[Text]) -> Result<Text, NoMemory>
    ensures { IfOk result (λ text. text ≡ spec.bytes_of lines.now) }
{
    if let Some(last) = lines.last()
        && last.bytes() == b"\\".as_slice()
    {
        let mut text = with_ends(alloc, &lines[..lines.len() - 1])?;
        text.pop();
        return Ok(Text::from_vec(text));
    }
    Ok(Text::from_vec(with_ends(alloc, lines)?))
}

/// The lines, each with its end.
fn with_ends(alloc: Global, lines: &[Text]) -> Result<Vec<u8>, NoMemory>
    ensures { IfOk result (λ text. text.items ≡ spec.with_ends lines.now) }
{
    let mut text = Vec::new(alloc);
    for line in lines {
        text.extend_from_slice(line.bytes())?;
        text.push(b'\n')?;
    }
    Ok(text)
}
