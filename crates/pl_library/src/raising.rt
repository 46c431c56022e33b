//! `error`.

ghost use Rattle.std.specs.Prelude.{◌≡◌};
ghost use Rattle.pl_meaning.specs.declared.known.Own.{Own};
ghost use Rattle.pl_meaning.specs.Promises.{At, Halts};
ghost use Rattle.pl_meaning.specs.Library.{own_of, text_by as text_by_arguments};
ghost use Rattle.pl_library.specs.Answering.{raising};

use crate::texts::text_by;
use pl_access::fail;
use pl_base::{ErrKind, Or, Place, ScriptError, Text};
use pl_meaning::Halt;
use pl_values::Value;
use std::alloc::Global;

/// `error`: raises an error with a text by a pattern.
pub(crate) fn raise_text(alloc: Global, place: Place, wanted: usize, given: Vec<Value>) -> Halt
    ensures { (m : At) → Halts (own_of place Own.Error wanted given.items) m result m }
{
    match wanted > 0 {
        true => fail(alloc, ErrKind::ArgCount, place),
        false => error_of(alloc, place, given),
    }
}

fn error_of(alloc: Global, place: Place, given: Vec<Value>) -> Halt
    ensures { (m : At) → Halts (raising place (text_by_arguments given.items)) m result m }
{
    match text_by(alloc, given) {
        Ok(text) => Halt::Raise(ScriptError {
            kind: ErrKind::User,
            place,
            text: Text::from_vec(text),
        }),
        Err(Or::Memory) => Halt::Memory,
        Err(Or::Is(kind)) => fail(alloc, kind, place),
    }
}
