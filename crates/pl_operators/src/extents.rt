//! What `end` stands for.

ghost use Rattle.std.specs.Prelude.{◌≡◌, Some};
ghost use Rattle.std.specs.Option.{option_copied};
ghost use Rattle.pl_operators.specs.Picking.{extent_at, row_size, scheme_size, whole_size, extent_of};

use pl_base::ErrKind;
use pl_scheme::{Scheme, Size};
use pl_values::{CoPart, Value};

/// What `end` stands for at a position, which counts from 0, of so many: the number of cells where there is one
/// position, else rows, columns, and 1 behind them; 0 where there is no value.
pub fn extent(v: Option<&Value>, position: usize, count: usize) -> Result<u64, ErrKind>
    ensures { result ≡ extent_of (option_copied v.entry) position count }
{
    match v {
        None => Ok(0),
        Some(v) => extent_in(v, position, count),
    }
}

fn extent_in(v: &Value, position: usize, count: usize) -> Result<u64, ErrKind>
    ensures { result ≡ extent_of (Some v.now) position count }
{
    match v {
        Value::Array(a) => {
            let s = a.shape();
            let size = Size {
                rows: s.rows,
                cols: s.cols,
            };
            Ok(extent_by(size, position, count))
        }
        Value::Futures(calls) => Ok(extent_of_row(calls.items().len(), position, count)),
        Value::Composite(held) => Ok(extent_of_row(held.len(), position, count)),
        Value::Part(part) => Ok(extent_by(size_of(&part.scheme), position, count)),
        Value::Whole(parts) => Ok(extent_by(size_of_parts(parts.items()), position, count)),
        _ => Err(ErrKind::BadKind),
    }
}

fn extent_by(s: Size, position: usize, count: usize) -> u64
    ensures { result ≡ extent_at s position count }
{
    if count == 1 {
        u64::from(s.rows) * u64::from(s.cols)
    } else if position == 0 {
        u64::from(s.rows)
    } else if position == 1 {
        u64::from(s.cols)
    } else {
        1
    }
}

fn extent_of_row(cells: usize, position: usize, count: usize) -> u64
    ensures { result ≡ extent_at (row_size cells) position count }
{
    if count == 1 || position == 1 {
        cells as u64
    } else {
        1
    }
}

fn size_of(scheme: &Scheme) -> Size
    ensures { result ≡ scheme_size scheme.now }
{
    match scheme {
        Scheme::One(s) => s.size(),
        Scheme::Two(s) => s.size(),
    }
}

fn size_of_parts(parts: &[CoPart]) -> Size
    ensures { result ≡ whole_size parts.now }
{
    match parts {
        [] => Size { rows: 0, cols: 0 },
        [part, ..] => size_of(&part.scheme),
    }
}
