//! Patterns: the parts that their text has, or that it is bad.
//!
//! A part is a byte or a conversion. `%d` and `%i` show a number, `%s` a text; between the percent sign and the
//! letter may stand `-` or `0` and a width of one or two digits. `%%` is a percent sign, and `\n`, `\t`, `\r` and
//! `\\` are escapes. All else behind `%` or `\` is bad.

ghost use Rattle.std.specs.Prelude.{◌≡◌};
ghost use Rattle.pl_text.specs.Pattern.{letter, is_digit as is_digit_byte, escape, percent, plain, step, parts_of, Takes, Parses};

use pl_base::{ErrKind, Or};
use std::alloc::Global;

/// How a field is filled.
#[derive(Clone, Copy, Debug, PartialEq, Eq)]
pub enum Flag {
    /// Blanks on the left.
    Plain,
    /// Blanks on the right.
    Left,
    /// Zeros behind a number's sign; blanks on the left of a text.
    Zeros,
}

/// What a conversion shows.
#[derive(Clone, Copy, Debug, PartialEq, Eq)]
pub enum Sort {
    /// A number in decimal, or a text as it is.
    Decimal,
    /// A text, or the character of a number.
    Characters,
}

/// A conversion: how its field is filled, the least width of the field, and what it shows.
#[derive(Clone, Copy, Debug, PartialEq, Eq)]
pub struct Conversion {
    pub flag: Flag,
    pub width: u32,
    pub sort: Sort,
}

/// A part of a pattern.
#[derive(Clone, Copy, Debug, PartialEq, Eq)]
pub enum Part {
    Byte(u8),
    Show(Conversion),
}

/// What was begun.
#[derive(Clone, Copy, Debug, PartialEq, Eq)]
pub enum Half {
    Outside,
    Escape,
    Percent,
    Flagged(Flag),
    OneDigit(Flag, u8),
    TwoDigits(Flag, u32),
}

fn is_digit(byte: u8) -> bool
    ensures { result ≡ is_digit_byte byte }
{
    byte >= b'0' && byte <= b'9'
}

/// The letter of a conversion.
#[tactic(auto, using(crate::proofs::Each::part_put))]
fn take_letter(flag: Flag, width: u32, byte: u8, parts: &mut Vec<Part>) -> Result<Half, Or<ErrKind>>
    ensures { Takes parts.old.items result parts.new.items (letter flag width byte) }
{
    let sort = match byte {
        b'd' | b'i' => Sort::Decimal,
        b's' => Sort::Characters,
        _ => return Err(Or::Is(ErrKind::FormatBad)),
    };
    parts.push(Part::Show(Conversion { flag, width, sort }))?;
    Ok(Half::Outside)
}

/// What an escape stands for.
#[tactic(auto, using(crate::proofs::Each::part_put))]
fn take_escape(byte: u8, parts: &mut Vec<Part>) -> Result<Half, Or<ErrKind>>
    ensures { Takes parts.old.items result parts.new.items (escape byte) }
{
    let meant = match byte {
        b'n' => b'\n',
        b't' => b'\t',
        b'r' => b'\r',
        b'\\' => b'\\',
        _ => return Err(Or::Is(ErrKind::FormatBad)),
    };
    parts.push(Part::Byte(meant))?;
    Ok(Half::Outside)
}

/// A byte behind a percent sign.
#[tactic(auto, using(crate::proofs::Each::part_put))]
fn take_percent(byte: u8, parts: &mut Vec<Part>) -> Result<Half, Or<ErrKind>>
    ensures { Takes parts.old.items result parts.new.items (percent byte) }
{
    if byte == b'%' {
        parts.push(Part::Byte(b'%'))?;
        return Ok(Half::Outside);
    }
    if byte == b'-' {
        return Ok(Half::Flagged(Flag::Left));
    }
    if byte == b'0' {
        return Ok(Half::Flagged(Flag::Zeros));
    }
    if is_digit(byte) {
        return Ok(Half::OneDigit(Flag::Plain, byte - b'0'));
    }
    take_letter(Flag::Plain, 0, byte, parts)
}

/// A byte outside of conversions and escapes.
#[tactic(auto, using(crate::proofs::Each::part_put))]
fn take_plain(byte: u8, parts: &mut Vec<Part>) -> Result<Half, Or<ErrKind>>
    ensures { Takes parts.old.items result parts.new.items (plain byte) }
{
    match byte {
        b'%' => Ok(Half::Percent),
        b'\\' => Ok(Half::Escape),
        _ => {
            parts.push(Part::Byte(byte))?;
            Ok(Half::Outside)
        }
    }
}

/// Takes a byte, by what was begun.
#[tactic(auto, unfolding(crate::specs::Pattern::step))]
fn take(half: Half, byte: u8, parts: &mut Vec<Part>) -> Result<Half, Or<ErrKind>>
    ensures { Takes parts.old.items result parts.new.items (step half byte) }
{
    match half {
        Half::Outside => take_plain(byte, parts),
        Half::Escape => take_escape(byte, parts),
        Half::Percent => take_percent(byte, parts),
        Half::Flagged(flag) => {
            if is_digit(byte) {
                return Ok(Half::OneDigit(flag, byte - b'0'));
            }
            take_letter(flag, 0, byte, parts)
        }
        Half::OneDigit(flag, width) => {
            if is_digit(byte) {
                return Ok(Half::TwoDigits(flag, u32::from(width) * 10 + u32::from(byte - b'0')));
            }
            take_letter(flag, u32::from(width), byte, parts)
        }
        Half::TwoDigits(flag, width) => take_letter(flag, width, byte, parts),
    }
}

/// The parts of a pattern.
pub fn parse(alloc: Global, pattern: &[u8]) -> Result<Vec<Part>, Or<ErrKind>>
    ensures { Parses result (parts_of Half.Outside pattern.now) }
{
    let mut parts = Vec::new(alloc);
    let mut half = Half::Outside;
    for byte in pattern {
        half = take(half, *byte, &mut parts)?;
    }
    match half {
        Half::Outside => Ok(parts),
        _ => Err(Or::Is(ErrKind::FormatBad)),
    }
}
