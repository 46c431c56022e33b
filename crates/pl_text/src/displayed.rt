//! What is displayed of an array.

ghost use Rattle.std.specs.Prelude.{◌≡◌, ◌++◌, ◌<◌, false, OnOk, IfOk};
ghost use Rattle.pl_text.specs.Cells.{width_of as width_in};
ghost use Rattle.pl_text.specs.Displayed.{characters, numbers, row_text, displayed, quoted, extents, named, is_char};

use crate::cells::{byte_of, push_field, width_of};
use itoa::Buffer;
use pl_array::{Arr, Class};
use pl_base::NoMemory;
use std::alloc::Global;

/// Adds a row of characters.
#[tactic(auto, using(crate::proofs::Each::each_more))]
fn push_characters(text: &mut Vec<u8>, a: &Arr, row: u32) -> Result<(), NoMemory>
    requires { row < a.now.rows }
    ensures { OnOk result (text.new.items ≡ text.old.items ++ characters a.now row) }
{
    for col in 0..a.shape().cols {
        text.push(byte_of(a.cell(row, col)))?;
    }
    Ok(())
}

/// Adds a row of numbers, each in a field of this width.
#[tactic(auto, using(crate::proofs::Each::each_more))]
pub fn push_numbers(text: &mut Vec<u8>, a: &Arr, row: u32, width: usize) -> Result<(), NoMemory>
    requires row { row < a.now.rows }
    requires width { width ≡ width_in a.now.cells }
    ensures { OnOk result (text.new.items ≡ text.old.items ++ numbers a.now row) }
{
    for col in 0..a.shape().cols {
        push_field(text, b"  ", col, width, a.cell(row, col))?;
    }
    Ok(())
}

pub fn is_characters(a: &Arr) -> bool
    ensures { result ≡ is_char a.now.class }
{
    matches!(a.class(), Class::Char)
}

/// Adds a row.
fn push_row(text: &mut Vec<u8>, a: &Arr, row: u32, width: usize) -> Result<(), NoMemory>
    requires row { row < a.now.rows }
    requires width { is_char a.now.class ≡ false → width ≡ width_in a.now.cells }
    ensures { OnOk result (text.new.items ≡ text.old.items ++ row_text a.now row) }
{
    if is_characters(a) {
        push_characters(text, a, row)
    } else {
        push_numbers(text, a, row, width)
    }
}

/// The width of the fields of an array's numbers; of characters it means nothing.
fn field(a: &Arr) -> usize
    ensures { is_char a.now.class ≡ false → result ≡ width_in a.now.cells }
{
    if is_characters(a) {
        0
    } else {
        width_of(a.cells())
    }
}

/// Adds a line for each row.
#[tactic(auto, using(crate::proofs::Each::each_more))]
fn push_lines(text: &mut Vec<u8>, a: &Arr) -> Result<(), NoMemory>
    ensures { OnOk result (text.new.items ≡ text.old.items ++ displayed a.now) }
{
    let width = field(a);
    for row in 0..a.shape().rows {
        push_row(text, a, row, width)?;
        text.push(b'\n')?;
    }
    Ok(())
}

/// What `disp` prints: a line for each row. Numbers are set right in the width of the widest, two spaces
/// between; characters stand as their bytes.
pub fn disp_text(alloc: Global, a: &Arr) -> Result<Vec<u8>, NoMemory>
    ensures { IfOk result (λ text. text.items ≡ displayed a.now) }
{
    let mut text = Vec::new(alloc);
    push_lines(&mut text, a)?;
    Ok(text)
}

/// The text of a row of characters in quotes.
fn push_quoted(text: &mut Vec<u8>, a: &Arr) -> Result<(), NoMemory>
    requires { 0 < a.now.rows }
    ensures { OnOk result (text.new.items ≡ text.old.items ++ quoted a.now) }
{
    text.push(b'\'')?;
    push_characters(text, a, 0)?;
    text.push(b'\'')?;
    Ok(())
}

/// The extents of an array without cells.
fn push_extents(text: &mut Vec<u8>, a: &Arr) -> Result<(), NoMemory>
    ensures { OnOk result (text.new.items ≡ text.old.items ++ extents a.now) }
{
    let mut buffer = Buffer::new();
    text.extend_from_slice(b"[](")?;
    text.extend_from_slice(buffer.format(a.shape().rows).as_bytes())?;
    text.extend_from_slice(b"x")?;
    text.extend_from_slice(buffer.format(a.shape().cols).as_bytes())?;
    text.extend_from_slice(b")")?;
    Ok(())
}

/// What a shown statement prints: the name, ` = ` and the value where it stands on one line, and else ` =` and
/// the lines of the display.
pub fn named_text(alloc: Global, name: &[u8], a: &Arr) -> Result<Vec<u8>, NoMemory>
    ensures { IfOk result (λ text. text.items ≡ named name.now a.now) }
{
    let mut text = Vec::from_slice(alloc, name)?;
    if is_characters(a) && a.shape().rows == 1 {
        text.extend_from_slice(b" = ")?;
        push_quoted(&mut text, a)?;
        text.push(b'\n')?;
    } else if a.cells().is_empty() {
        text.extend_from_slice(b" = ")?;
        push_extents(&mut text, a)?;
        text.push(b'\n')?;
    } else if a.cells().len() == 1 && !is_characters(a) {
        text.extend_from_slice(b" = ")?;
        push_numbers(&mut text, a, 0, field(a))?;
        text.push(b'\n')?;
    } else {
        text.extend_from_slice(b" =\n")?;
        push_lines(&mut text, a)?;
    }
    Ok(text)
}
