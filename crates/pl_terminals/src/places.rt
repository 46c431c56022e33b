//! Where the bytes of a source stand, found in one pass.

ghost use Rattle.std.specs.Prelude.{◌≡◌, ◌≤◌, ◌+◌, ◌^◌, ◌<◌, length, drop, take};
ghost use Rattle.pl_lex.specs.Tokens as lex_spec;
ghost use Rattle.pl_terminals.specs.Terminals as spec;

use pl_base::Place;

/// The UTF-8 mark that may stand before the first line.
const MARK: [u8; 3] = [0xEF, 0xBB, 0xBF];

/// How many bytes the mark at the front has.
#[tactic(auto, unfolding(pl_lex::specs::Tokens::mark_len))]
fn mark_len(source: &[u8]) -> usize
    ensures value { result ≡ lex_spec.mark_len source.now }
    ensures within { result ≤ length source.now }
    ensures small { result ≤ 3 }
{
    if source.starts_with(&MARK) { 3 } else { 0 }
}

/// The place behind a byte.
fn next_place(place: Place, byte: u8) -> Place
    requires line { place.line + 1 < 2 ^ 32 }
    requires col { place.col + 1 < 2 ^ 32 }
    requires at { place.at + 1 < 2 ^ 32 }
    ensures { result ≡ lex_spec.next_place place byte }
{
    let at = place.at + 1;
    if byte == b'\n' {
        Place {
            line: place.line + 1,
            col: 1,
            at,
        }
    } else {
        Place {
            line: place.line,
            col: place.col + 1,
            at,
        }
    }
}

/// The place behind these bytes.
fn past(place: Place, bytes: &[u8]) -> Place
    requires line { place.line + length bytes.now < 2 ^ 32 }
    requires col { place.col + length bytes.now < 2 ^ 32 }
    requires at { place.at + length bytes.now < 2 ^ 32 }
    ensures { result ≡ lex_spec.past place bytes.now }
{
    let mut place = place;
    for byte in bytes {
        place = next_place(place, *byte);
    }
    place
}

/// The place of the first byte behind the mark.
#[tactic(auto, using(crate::proofs::Passing::first_stands))]
pub fn first_place(source: &[u8]) -> Place
    ensures value { result ≡ lex_spec.first_place source.now }
    ensures known { length source.now ≤ 4294967294 → spec.StandsIn source.now result }
{
    let at = mark_len(source) as u32;
    Place {
        line: 1,
        col: 1,
        at,
    }
}

/// The place of a byte, from a place that stands before it or behind it.
#[tactic(auto, using(crate::proofs::Passing::goes_on, crate::proofs::Passing::begins, crate::proofs::Passing::stands, crate::proofs::Passing::near))]
pub fn place_on(source: &[u8], place: Place, at: usize) -> Place
    requires within { at ≤ length source.now }
    requires short { length source.now ≤ 4294967294 }
    requires known { spec.StandsIn source.now place }
    ensures value { result ≡ lex_spec.place_of source.now at }
    ensures known { spec.StandsIn source.now result }
{
    let from = place.at as usize;
    if from <= at {
        return past(place, &source[from..at]);
    }
    let first = first_place(source);
    let from = first.at as usize;
    if from <= at {
        past(first, &source[from..at])
    } else {
        first
    }
}

/// The place behind the last byte.
#[tactic(auto, using(crate::proofs::Passing::first_stands))]
pub fn end_place(source: &[u8]) -> Place
    requires { length source.now ≤ 4294967294 }
    ensures { result ≡ lex_spec.place_of source.now (length source.now) }
{
    place_on(source, first_place(source), source.len())
}
