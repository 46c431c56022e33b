//! Words: whether two are the same, and the number that one writes in decimal.
//!
//! The words of a command line and those of a file of cases are read by these. `same` and `number_within` give exactly
//! what `specs/Words.antt` defines. The forms are parlab's own.
#![tactic(auto)]

ghost use Rattle.std.specs.Prelude.{◌≡◌, ◌≤◌, ◌<◌, ◌^◌, SomeIff, IfSome};
ghost use Rattle.std.specs.List.{list_all};
ghost use Rattle.pl_words.specs.Words as spec;

/// Whether the bytes are the same.
pub fn same(a: &[u8], b: &[u8]) -> bool
    ensures { result ≡ spec.same a.now b.now }
{
    a == b
}

fn is_digit(byte: u8) -> bool
    ensures { result ≡ spec.is_digit byte }
{
    byte >= b'0' && byte <= b'9'
}

fn are_digits(word: &[u8]) -> bool
    ensures { result ≡ list_all spec.is_digit word.now }
{
    for byte in word {
        if !is_digit(*byte) {
            return false;
        }
    }
    true
}

/// The number with this digit behind it, where it has 64 bits at most.
fn digit_onto(number: u64, byte: u8) -> Option<u64>
    ensures { SomeIff result (spec.digit_onto number byte < 2 ^ 64) (spec.digit_onto number byte) }
{
    let digit = u64::from(byte.saturating_sub(b'0'));
    number.checked_mul(10)?.checked_add(digit)
}

/// The number of these digits, where it has 64 bits at most.
#[tactic(auto, using(crate::proofs::Numbers::grows))]
fn digits(word: &[u8]) -> Option<u64>
    ensures { SomeIff result (spec.number_onto 0 word.now < 2 ^ 64) (spec.number_onto 0 word.now) }
{
    let mut number = 0;
    for byte in word {
        number = digit_onto(number, *byte)?;
    }
    Some(number)
}

/// The number that the word writes in decimal, where it writes one of this range: one digit or more, and nothing else.
pub fn number_within(least: u64, most: u64, word: &[u8]) -> Option<u64>
    ensures value { result ≡ spec.number_within least most word.now }
    ensures within { IfSome result (λ n. n ≤ most) }
{
    if word.is_empty() || !are_digits(word) {
        return None;
    }
    match digits(word) {
        Some(number) if least <= number && number <= most => Some(number),
        _ => None,
    }
}
