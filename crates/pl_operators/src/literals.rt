//! The values of literals.

ghost use Rattle.std.specs.Prelude.{◌≡◌, ◌≤◌, length, map, pos, take, IfOk};
ghost use Rattle.std.specs.List.{All};
ghost use Rattle.pl_array.specs.Arrays.{IsCell, most};
ghost use Rattle.pl_operators.specs.Bracketing.{chars_of, number_of, char_row};
ghost use Rattle.pl_index.specs.Writing.{nothing as nothing_of};

use pl_array::{Arr, Class, Shape};
use pl_base::NoMemory;
use pl_values::Value;
use std::alloc::Global;

/// A number; takes no memory.
pub fn number(z: i64) -> Value
    ensures { result ≡ number_of z }
{
    Value::Array(Arr::scalar(z))
}

/// A text: a row of its characters, and 0x0 where there are none. Of more bytes than an array holds these are
/// the first 1,000,000.
pub fn chars(alloc: Global, bytes: &[u8]) -> Result<Value, NoMemory>
    ensures { IfOk result (λ v. v ≡ chars_of bytes.now) }
{
    if bytes.len() == 0 {
        return Ok(Value::Array(nothing(alloc, Class::Char)));
    }
    let row = chars_in_row(alloc, first_bytes(bytes))?;
    Ok(Value::Array(row))
}

/// An array without rows and columns.
pub(crate) fn nothing(alloc: Global, class: Class) -> Arr
    ensures { result ≡ nothing_of class }
{
    let nil = Shape { rows: 0, cols: 0 };
    Arr::new(class, nil, Vec::new(alloc))
}

fn first_bytes(bytes: &[u8]) -> &[u8]
    ensures bytes { result.now ≡ take most bytes.now }
    ensures few { length result.now ≤ most }
{
    let limit = most_cells();
    if bytes.len() <= limit {
        bytes
    } else {
        &bytes[..limit]
    }
}

fn most_cells() -> usize
    ensures { result ≡ most }
{
    1_000_000
}

fn chars_in_row(alloc: Global, bytes: &[u8]) -> Result<Arr, NoMemory>
    requires { length bytes.now ≤ most }
    ensures { IfOk result (λ a. a ≡ char_row bytes.now) }
{
    let cols = bytes.len() as u32;
    let cells = char_cells(alloc, bytes)?;
    Ok(Arr::new(Class::Char, Shape { rows: 1, cols }, cells))
}

fn char_cells(alloc: Global, bytes: &[u8]) -> Result<Vec<i64>, NoMemory>
    ensures cells { IfOk result (λ v. v.items ≡ map (λ b. pos b) bytes.now) }
    ensures count { IfOk result (λ v. length v.items ≡ length bytes.now) }
    ensures of_class { IfOk result (λ v. All (IsCell Class.Char) v.items) }
{
    let cells: Vec<i64> = bytes.iter().map(|byte| i64::from(*byte)).collect(alloc)?;
    Ok(cells)
}
