//! Numbers and rows, as a script has them and as `disp` shows them.

use itoa::Buffer;
use pl_base::NoMemory;

pub fn decimal(text: &mut Vec<u8>, number: i64) -> Result<(), NoMemory> {
    let mut buffer = Buffer::new();
    text.extend_from_slice(buffer.format(number).as_bytes())?;
    Ok(())
}

pub fn count(text: &mut Vec<u8>, number: u64) -> Result<(), NoMemory> {
    let mut buffer = Buffer::new();
    text.extend_from_slice(buffer.format(number).as_bytes())?;
    Ok(())
}

/// A number as a script has it. The least number has no literal.
pub fn literal(text: &mut Vec<u8>, number: i64) -> Result<(), NoMemory> {
    if number == i64::MIN {
        text.extend_from_slice(b"intmin('int64')")?;
        return Ok(());
    }
    decimal(text, number)
}

/// The elements of a bracket.
pub fn elements(text: &mut Vec<u8>, numbers: &[i64]) -> Result<(), NoMemory> {
    for (place, number) in numbers.iter().enumerate() {
        if place > 0 {
            text.extend_from_slice(b", ")?;
        }
        literal(text, *number)?;
    }
    Ok(())
}

/// A row as a script has it.
pub fn row(text: &mut Vec<u8>, numbers: &[i64]) -> Result<(), NoMemory> {
    if numbers.is_empty() {
        text.extend_from_slice(b"zeros(1, 0)")?;
        return Ok(());
    }
    text.push(b'[')?;
    elements(text, numbers)?;
    text.push(b']')?;
    Ok(())
}

/// A line `x = ROW;`.
pub fn assignment(text: &mut Vec<u8>, name: &[u8], numbers: &[i64]) -> Result<(), NoMemory> {
    text.extend_from_slice(name)?;
    text.extend_from_slice(b" = ")?;
    row(text, numbers)?;
    text.extend_from_slice(b";\n")?;
    Ok(())
}

fn width(number: i64) -> usize {
    let mut buffer = Buffer::new();
    buffer.format(number).len()
}

fn widest(numbers: &[i64]) -> usize {
    let mut most = 0;
    for number in numbers {
        most = most.max(width(*number));
    }
    most
}

fn blanks(text: &mut Vec<u8>, count: usize) -> Result<(), NoMemory> {
    for _ in 0..count {
        text.push(b' ')?;
    }
    Ok(())
}

/// The line that `disp` prints of a row: numbers set right, two blanks between.
pub fn shown(text: &mut Vec<u8>, numbers: &[i64]) -> Result<(), NoMemory> {
    let field = widest(numbers);
    for (place, number) in numbers.iter().enumerate() {
        if place > 0 {
            blanks(text, 2)?;
        }
        blanks(text, field.saturating_sub(width(*number)))?;
        decimal(text, *number)?;
    }
    text.push(b'\n')?;
    Ok(())
}
