//! What a pattern makes of items.

ghost use Rattle.std.specs.Prelude.{◌≡◌, ◌≤◌, ◌<◌, ◌++◌, true, length, drop, replicate, OnOk, IfOk, IfSome};
ghost use Rattle.pl_text.specs.Displayed.{is_char};
ghost use Rattle.pl_text.specs.Formatted.{in_field, number_in, number_shown, shown, sign_of, is_character as is_character_number, has_show as has_show_in, bytes_in, uses, formatted, format_of, Walks};

use crate::cells::{byte_of, push_blanks, push_number};
use crate::items::{Item, characters_of, items_of};
use crate::pattern::{Conversion, Flag, Part, Sort, parse};
use itoa::Buffer;
use pl_array::Arr;
use pl_base::{ErrKind, NoMemory, Or};
use std::alloc::Global;

/// Adds a text in a field, filled with blanks.
fn push_text(text: &mut Vec<u8>, flag: Flag, width: u32, shown: &[u8]) -> Result<(), NoMemory>
    ensures { OnOk result (text.new.items ≡ text.old.items ++ in_field flag width shown.now) }
{
    let blanks = (width as usize).saturating_sub(shown.len());
    match flag {
        Flag::Plain | Flag::Zeros => {
            push_blanks(text, blanks)?;
            text.extend_from_slice(shown)?;
        }
        Flag::Left => {
            text.extend_from_slice(shown)?;
            push_blanks(text, blanks)?;
        }
    }
    Ok(())
}

/// Adds zeros.
fn push_zeros(text: &mut Vec<u8>, count: usize) -> Result<(), NoMemory>
    ensures { OnOk result (text.new.items ≡ text.old.items ++ replicate count 48) }
{
    for _zero in 0..count {
        text.push(b'0')?;
    }
    Ok(())
}

/// Adds the sign of a number below 0.
fn push_sign(text: &mut Vec<u8>, number: i64) -> Result<(), NoMemory>
    ensures { OnOk result (text.new.items ≡ text.old.items ++ sign_of number) }
{
    if number < 0 {
        text.push(b'-')?;
    }
    Ok(())
}

/// Adds a number in a field, zeros behind its sign.
fn push_filled(text: &mut Vec<u8>, width: u32, number: i64) -> Result<(), NoMemory>
    ensures { OnOk result (text.new.items ≡ text.old.items ++ number_in Flag.Zeros width number) }
{
    let mut buffer = Buffer::new();
    let zeros = (width as usize).saturating_sub(buffer.format(number).len());
    push_sign(text, number)?;
    push_zeros(text, zeros)?;
    text.extend_from_slice(buffer.format(number.unsigned_abs()).as_bytes())?;
    Ok(())
}

/// Adds a number in a field.
fn push_in_field(text: &mut Vec<u8>, flag: Flag, width: u32, number: i64) -> Result<(), NoMemory>
    ensures { OnOk result (text.new.items ≡ text.old.items ++ number_in flag width number) }
{
    match flag {
        Flag::Plain => push_number(text, width as usize, number),
        Flag::Left => {
            let mut buffer = Buffer::new();
            push_text(text, flag, width, buffer.format(number).as_bytes())
        }
        Flag::Zeros => push_filled(text, width, number),
    }
}

/// Whether a number is shown as a character by `%s`.
fn is_character(number: i64) -> bool
    ensures { result ≡ is_character_number number }
{
    number >= 1 && number <= 255
}

/// Adds what a conversion makes of a number.
fn push_shown_number(text: &mut Vec<u8>, by: Conversion, number: i64) -> Result<(), NoMemory>
    ensures { OnOk result (text.new.items ≡ text.old.items ++ number_shown by by.sort number) }
{
    match by.sort {
        Sort::Decimal => push_in_field(text, by.flag, by.width, number),
        Sort::Characters => {
            if is_character(number) {
                return push_text(text, by.flag, by.width, &[byte_of(number)]);
            }
            push_in_field(text, by.flag, by.width, number)
        }
    }
}

/// Adds what a conversion makes of an item.
fn push_shown(text: &mut Vec<u8>, by: Conversion, item: &Item) -> Result<(), NoMemory>
    ensures { OnOk result (text.new.items ≡ text.old.items ++ shown by item.now) }
{
    match item {
        Item::Number(number) => push_shown_number(text, by, *number),
        Item::Characters(bytes) => push_text(text, by.flag, by.width, bytes.bytes()),
    }
}

/// One use of the pattern, from the item at `from` on: where the next use begins, or None where it stopped before
/// a conversion without an item.
fn walk(
    text: &mut Vec<u8>,
    parts: &[Part],
    items: &[Item],
    from: usize,
) -> Result<Option<usize>, NoMemory>
    requires { from ≤ length items.now }
    ensures walks { Walks result text.old.items text.new.items parts.now (drop from items.now) items.now }
    ensures within { IfOk result (λ next. IfSome next (λ at. at ≤ length items.now)) }
{
    let mut at = from;
    for part in parts {
        match part {
            Part::Byte(byte) => text.push(*byte)?,
            Part::Show(by) => {
                if at >= items.len() {
                    return Ok(None);
                }
                push_shown(text, *by, &items[at])?;
                at += 1;
            }
        }
    }
    Ok(Some(at))
}

fn has_show(parts: &[Part]) -> bool
    ensures { result ≡ has_show_in parts.now }
{
    parts.iter().any(|part| matches!(part, Part::Show(_)))
}

/// The parts without their conversions.
fn push_bytes(text: &mut Vec<u8>, parts: &[Part]) -> Result<(), NoMemory>
    ensures { OnOk result (text.new.items ≡ text.old.items ++ bytes_in parts.now) }
{
    for part in parts {
        if let Part::Byte(byte) = part {
            text.push(*byte)?;
        }
    }
    Ok(())
}

/// The pattern, used again while items are left.
fn push_uses(text: &mut Vec<u8>, parts: &[Part], items: &[Item]) -> Result<(), NoMemory>
    requires { 0 < length items.now }
    ensures { OnOk result (text.new.items ≡ text.old.items ++ uses (length items.now) parts.now items.now) }
{
    let mut at = 0;
    for _use in 0..items.len() {
        let Some(next) = walk(text, parts, items, at)? else {
            return Ok(());
        };
        at = next;
        if at >= items.len() {
            return Ok(());
        }
    }
    Ok(())
}

/// What the parts make of the items.
fn made_of(alloc: Global, parts: &[Part], items: &[Item]) -> Result<Vec<u8>, NoMemory>
    ensures { IfOk result (λ text. text.items ≡ formatted parts.now items.now) }
{
    let mut text = Vec::new(alloc);
    if items.is_empty() || !has_show(parts) {
        push_bytes(&mut text, parts)?;
    } else {
        push_uses(&mut text, parts, items)?;
    }
    Ok(text)
}

/// What a pattern makes of arguments, as `sprintf` does: each argument of characters is one item, each cell of another
/// argument is one, by columns. The pattern is used again while items are left, and stops before the first
/// conversion without an item. A pattern that is bad is refused as FormatBad.
pub fn format(alloc: Global, pattern: &Arr, args: &[Arr]) -> Result<Vec<u8>, Or<ErrKind>>
    requires { is_char pattern.now.class ≡ true }
    ensures ok { IfOk result (λ text. format_of pattern.now args.now ≡ Ok text.items) }
    ensures err { (kind : ErrKind) → result ≡ Err (Or.Is kind) → format_of pattern.now args.now ≡ Err kind }
{
    let pattern = characters_of(alloc, pattern)?;
    let parts = parse(alloc, pattern.as_slice())?;
    let items = items_of(alloc, args)?;
    let text = made_of(alloc, parts.as_slice(), items.as_slice())?;
    Ok(text)
}
