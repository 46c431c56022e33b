//! Texts without their quotes, and the numbers of literals.

ghost use Rattle.std.specs.Prelude.{◌≡◌, ◌≤◌, ◌+◌, ◌*◌, ◌-◌, min, false, IfOk};
ghost use Rattle.pl_terminals.specs.Terminals as spec;

use pl_base::{NoMemory, Text};
use std::alloc::Global;

/// The greatest literal.
const MOST: u64 = 0x7FFF_FFFF_FFFF_FFFF;

/// A text behind its first quote.
fn unquoted(alloc: Global, quote: u8, bytes: &[u8]) -> Result<Vec<u8>, NoMemory>
    ensures { IfOk result (λ v. v.items ≡ spec.unquoted quote false bytes.now) }
{
    let mut text = Vec::new(alloc);
    let mut twice = false;
    for byte in bytes {
        if !twice && *byte == quote {
            twice = true;
        } else {
            text.push(*byte)?;
            twice = false;
        }
    }
    Ok(text)
}

/// The text of a token in quotes.
pub fn text(alloc: Global, bytes: &[u8]) -> Result<Text, NoMemory>
    ensures { IfOk result (λ t. t ≡ spec.text bytes.now) }
{
    match bytes {
        [] => Text::of(alloc, bytes),
        [quote, rest @ ..] => {
            let text = unquoted(alloc, *quote, rest)?;
            Ok(Text::from_vec(text))
        }
    }
}

/// A digit more.
fn with_digit(number: u64, byte: u8) -> u64
    ensures { result ≡ min (number * 10 + (byte - 48)) 9223372036854775807 }
{
    let digit = byte.saturating_sub(b'0') as u64;
    number.saturating_mul(10).saturating_add(digit).min(MOST)
}

/// The number of a literal.
pub fn number(digits: &[u8]) -> i64
    ensures { result ≡ spec.number digits.now }
{
    let mut number = 0u64;
    for byte in digits {
        number = with_digit(number, *byte);
    }
    number as i64
}
