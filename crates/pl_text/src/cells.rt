//! Cells as text.

ghost use Rattle.std.specs.Prelude.{◌≡◌, ◌++◌, ◌-◌, length, OnOk, OnErr, replicate};
ghost use Rattle.std.specs.Fmt.{signed_decimal};
ghost use Rattle.pl_text.specs.Cells.{byte_of as byte_in, width_of as width_in, set_right, gap};

use itoa::Buffer;
use pl_base::NoMemory;

/// The byte of a cell of characters.
pub fn byte_of(cell: i64) -> u8
    ensures { result ≡ byte_in cell }
{
    u8::try_from(cell).unwrap_or(0)
}

/// How many bytes a number has in decimal.
fn digits(cell: i64) -> usize
    ensures { result ≡ length (signed_decimal cell) }
{
    let mut buffer = Buffer::new();
    buffer.format(cell).len()
}

/// How many bytes the longest decimal has.
pub fn width_of(cells: &[i64]) -> usize
    ensures { result ≡ width_in cells.now }
{
    let mut width = 0;
    for cell in cells {
        width = width.max(digits(*cell));
    }
    width
}

/// Adds blanks.
pub fn push_blanks(text: &mut Vec<u8>, count: usize) -> Result<(), NoMemory>
    ensures ok { OnOk result (text.new.items ≡ text.old.items ++ replicate count 32) }
{
    for _blank in 0..count {
        text.push(b' ')?;
    }
    Ok(())
}

/// Adds a number, set right in a field.
pub fn push_number(text: &mut Vec<u8>, width: usize, cell: i64) -> Result<(), NoMemory>
    ensures ok { OnOk result (text.new.items ≡ text.old.items ++ set_right width (signed_decimal cell)) }
{
    let mut buffer = Buffer::new();
    let number = buffer.format(cell);
    push_blanks(text, width.saturating_sub(number.len()))?;
    text.extend_from_slice(number.as_bytes())?;
    Ok(())
}

/// Adds what stands between two cells, unless this is the first.
#[tactic(auto, using(crate::proofs::Each::gap_later))]
pub fn push_gap(text: &mut Vec<u8>, between: &[u8], at: u32) -> Result<(), NoMemory>
    ensures { OnOk result (text.new.items ≡ text.old.items ++ gap between.now at) }
{
    if at > 0 {
        text.extend_from_slice(between)?;
    }
    Ok(())
}

/// Adds a number in its field, and what stands before it.
pub fn push_field(
    text: &mut Vec<u8>,
    between: &[u8],
    at: u32,
    width: usize,
    cell: i64,
) -> Result<(), NoMemory>
    ensures { OnOk result (text.new.items ≡ text.old.items ++ (gap between.now at ++ set_right width (signed_decimal cell))) }
{
    push_gap(text, between, at)?;
    push_number(text, width, cell)
}
