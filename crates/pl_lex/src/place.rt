//! The line and column of a byte.

ghost use Rattle.std.specs.Prelude.{◌≡◌, ◌≤◌, ◌+◌, ◌^◌, ◌<◌, length};
ghost use Rattle.pl_lex.specs.Tokens.{place_of};
ghost use Rattle.pl_lex.specs.Tokens as spec;

use pl_base::Place;

/// The UTF-8 mark that may stand before the first line.
const MARK: [u8; 3] = [0xEF, 0xBB, 0xBF];

/// How many bytes the mark at the front has.
#[tactic(auto, unfolding(crate::specs::Tokens::mark_len))]
pub(crate) fn mark_len(source: &[u8]) -> usize
    ensures value { result ≡ spec.mark_len source.now }
    ensures within { result ≤ length source.now }
{
    if source.starts_with(&MARK) { 3 } else { 0 }
}

/// The place behind a byte.
fn next_place(place: Place, byte: u8) -> Place
    requires line { place.line + 1 < 2 ^ 32 }
    requires col { place.col + 1 < 2 ^ 32 }
    requires at { place.at + 1 < 2 ^ 32 }
    ensures { result ≡ spec.next_place place byte }
{
    let at = place.at + 1;
    if byte == b'\n' {
        Place {
            line: place.line + 1,
            col: 1,
            at,
        }
    } else {
        Place {
            line: place.line,
            col: place.col + 1,
            at,
        }
    }
}

/// The place of a byte, or of the end of the source.
#[tactic(auto, unfolding(crate::specs::Tokens::place_of))]
pub(crate) fn place_at(source: &[u8], at: usize) -> Place
    requires marked { spec.mark_len source.now ≤ at }
    requires within { at ≤ length source.now }
    requires short { length source.now ≤ 4294967294 }
    ensures { result ≡ place_of source.now at }
{
    let from = mark_len(source);
    let mut place = Place {
        line: 1,
        col: 1,
        at: from as u32,
    };
    for byte in &source[from..at] {
        place = next_place(place, *byte);
    }
    place
}
