//! Where what a run left differs first from what was wanted of it.

ghost use Rattle.std.specs.Prelude.{◌≡◌, ◌+◌, ◌<◌, ◌==◌, ◌∷◌, [], length, min, MatchOption};
ghost use Rattle.std.specs.List.{position, position_or_len};
ghost use Rattle.pl_io.specs.Counted.{counted};
ghost use Rattle.conformance.specs.Differences.{IsLineAt, alike, lines_of};

use pl_words::same;

/// Where two texts differ first: a line of each, counted from 1, with its end. A text that has no such
/// line has ended.
#[derive(Clone, Copy, Debug)]
pub struct Difference<'a> {
    pub line: u64,
    pub wanted: Option<&'a [u8]>,
    pub got: Option<&'a [u8]>,
}

/// Where the first line of a text ends.
fn end_of(text: &[u8]) -> Option<usize>
    ensures { result ≡ position (λ c. c == 10) text.now }
{
    text.iter().position(|byte| *byte == b'\n')
}

/// The bytes of a text's first line, its end among them.
fn line_len(text: &[u8]) -> usize
    ensures { result ≡ min (position_or_len (λ c. c == 10) text.now + 1) (length text.now) }
{
    match end_of(text) {
        Some(at) => at + 1,
        None => text.len(),
    }
}

/// The first line of a text, with its end, and what stands behind it. A text without bytes has none.
fn split_line(text: &[u8]) -> Option<(&[u8], &[u8])>
    ensures { MatchOption result (lines_of text.now ≡ []) (λ parts. (lines_of text.now ≡ parts.0.now ∷ lines_of parts.1.now) × (length parts.1.now < length text.now)) }
{
    if text.is_empty() {
        return None;
    }
    Some(text.split_at(line_len(text)))
}

/// The first line of a text, if it has one.
fn first_line(text: &[u8]) -> Option<&[u8]>
    ensures { IsLineAt text.now 0 result }
{
    let (line, _) = split_line(text)?;
    Some(line)
}

/// The first line in which the texts differ. Texts that are equal differ where both have ended.
pub fn first_difference<'a>(wanted: &'a [u8], got: &'a [u8]) -> Difference<'a>
    ensures line { result.line ≡ counted (alike wanted.now got.now) }
    ensures wanted { IsLineAt wanted.now (alike wanted.now got.now) result.wanted }
    ensures got { IsLineAt got.now (alike wanted.now got.now) result.got }
{
    let (mut line, mut wanted_rest, mut got_rest) = (1, wanted, got);
    while let Some((wanted_line, wanted_more)) = split_line(wanted_rest) {
        let Some((got_line, got_more)) = split_line(got_rest) else {
            return Difference {
                line,
                wanted: Some(wanted_line),
                got: None,
            };
        };
        if !same(wanted_line, got_line) {
            return Difference {
                line,
                wanted: Some(wanted_line),
                got: Some(got_line),
            };
        }
        (wanted_rest, got_rest) = (wanted_more, got_more);
        line = line.saturating_add(1);
    }
    Difference {
        line,
        wanted: None,
        got: first_line(got_rest),
    }
}
