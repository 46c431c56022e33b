//! An error that is raised, and its line.

ghost use Rattle.std.specs.Prelude.{◌≡◌, ◌++◌, IfOk, OnOk};
ghost use Rattle.pl_errors.specs.Errors.{error_of, kind_part, place_part, error_line};

use crate::kinds::{message, name, number};
use itoa::Buffer;
use pl_base::{ErrKind, NoMemory, Place, ScriptError, Text};
use std::alloc::Global;

/// An error of a kind at a place, with the kind's own text.
pub fn raise(alloc: Global, kind: ErrKind, place: Place) -> Result<ScriptError, NoMemory>
    ensures { IfOk result (λ e. e ≡ error_of kind place) }
{
    let text = Text::of(alloc, message(kind).as_bytes())?;
    Ok(ScriptError { kind, place, text })
}

/// Adds the kind by its number and name.
fn write_kind(line: &mut Vec<u8>, kind: ErrKind) -> Result<(), NoMemory>
    ensures { OnOk result (line.new.items ≡ line.old.items ++ kind_part kind) }
{
    let mut buffer = Buffer::new();
    line.extend_from_slice(b"parlab: error E")?;
    line.extend_from_slice(buffer.format(number(kind)).as_bytes())?;
    line.extend_from_slice(b" ")?;
    line.extend_from_slice(name(kind).as_bytes())?;
    Ok(())
}

/// Adds the place by line and column.
fn write_place(line: &mut Vec<u8>, place: Place) -> Result<(), NoMemory>
    ensures { OnOk result (line.new.items ≡ line.old.items ++ place_part place) }
{
    let mut buffer = Buffer::new();
    line.extend_from_slice(b" at ")?;
    line.extend_from_slice(buffer.format(place.line).as_bytes())?;
    line.extend_from_slice(b":")?;
    line.extend_from_slice(buffer.format(place.col).as_bytes())?;
    line.extend_from_slice(b": ")?;
    Ok(())
}

/// Adds the line that tells an error.
pub fn write_line(line: &mut Vec<u8>, error: &ScriptError) -> Result<(), NoMemory>
    ensures { OnOk result (line.new.items ≡ line.old.items ++ error_line error.now) }
{
    write_kind(line, error.kind)?;
    write_place(line, error.place)?;
    line.extend_from_slice(error.text.bytes())?;
    line.extend_from_slice(b"\n")?;
    Ok(())
}
