//! Functions that print.

ghost use Rattle.std.specs.Prelude.{◌≡◌, IfOk, Result, Ok, Err};
ghost use Rattle.pl_base.specs.declared.errors.ErrKind.{ErrKind};
ghost use Rattle.pl_meaning.specs.declared.halt.Halt.{Halt};
ghost use Rattle.pl_meaning.specs.declared.known.Own.{Own};
ghost use Rattle.pl_meaning.specs.Promises.{Went, Halts, Keeps, at};
ghost use Rattle.pl_meaning.specs.Library.{own_of, text_by as text_by_arguments, printed};
ghost use Rattle.pl_library.specs.Answering.{shown_by, printing};

use crate::arguments::one_array;
use crate::texts::text_by;
use pl_access::{fail, tell};
use pl_base::{ErrKind, Or, Place, Text};
use pl_meaning::{Event, Halt, Memory, World};
use pl_text::disp_text;
use pl_values::Value;
use std::alloc::Global;

/// `disp`: prints the display of an array.
pub(crate) fn display<W: World>(
    alloc: Global,
    memory: &Memory<'_>,
    world: &mut W,
    place: Place,
    wanted: usize,
    given: Vec<Value>,
) -> Result<Vec<Value>, Halt>
    ensures ok { IfOk result (λ v. Went (own_of place Own.Disp wanted given.items) (at memory.now (W.log world.old)) v.items (at memory.now (W.log world.new))) }
    ensures err { (x : Halt) → result ≡ Err x → Halts (own_of place Own.Disp wanted given.items) (at memory.now (W.log world.old)) x (at memory.now (W.log world.new)) }
    ensures keeps { Keeps (at memory.now (W.log world.old)) (at memory.now (W.log world.new)) }
{
    match wanted > 0 {
        true => Err(fail(alloc, ErrKind::ArgCount, place)),
        false => print_array(alloc, memory, world, place, given),
    }
}

fn print_array<W: World>(
    alloc: Global,
    memory: &Memory<'_>,
    world: &mut W,
    place: Place,
    given: Vec<Value>,
) -> Result<Vec<Value>, Halt>
    ensures ok { IfOk result (λ v. Went (printing place (shown_by given.items)) (at memory.now (W.log world.old)) v.items (at memory.now (W.log world.new))) }
    ensures err { (x : Halt) → result ≡ Err x → Halts (printing place (shown_by given.items)) (at memory.now (W.log world.old)) x (at memory.now (W.log world.new)) }
    ensures keeps { Keeps (at memory.now (W.log world.old)) (at memory.now (W.log world.new)) }
{
    match array_text(alloc, given) {
        Ok(text) => print_text(alloc, memory, world, text),
        Err(Or::Memory) => Err(Halt::Memory),
        Err(Or::Is(kind)) => Err(fail(alloc, kind, place)),
    }
}

fn array_text(alloc: Global, given: Vec<Value>) -> Result<Vec<u8>, Or<ErrKind>>
    ensures ok { IfOk result (λ text. shown_by given.items ≡ Ok text.items) }
    ensures err { (kind : ErrKind) → result ≡ Err (Or.Is kind) → shown_by given.items ≡ Err kind }
{
    let a = one_array(given)?;
    let text = disp_text(alloc, &a)?;
    Ok(text)
}

/// `fprintf`: prints a text by a pattern.
pub(crate) fn print<W: World>(
    alloc: Global,
    memory: &Memory<'_>,
    world: &mut W,
    place: Place,
    wanted: usize,
    given: Vec<Value>,
) -> Result<Vec<Value>, Halt>
    ensures ok { IfOk result (λ v. Went (own_of place Own.Fprintf wanted given.items) (at memory.now (W.log world.old)) v.items (at memory.now (W.log world.new))) }
    ensures err { (x : Halt) → result ≡ Err x → Halts (own_of place Own.Fprintf wanted given.items) (at memory.now (W.log world.old)) x (at memory.now (W.log world.new)) }
    ensures keeps { Keeps (at memory.now (W.log world.old)) (at memory.now (W.log world.new)) }
{
    match wanted > 0 {
        true => Err(fail(alloc, ErrKind::ArgCount, place)),
        false => print_by_pattern(alloc, memory, world, place, given),
    }
}

fn print_by_pattern<W: World>(
    alloc: Global,
    memory: &Memory<'_>,
    world: &mut W,
    place: Place,
    given: Vec<Value>,
) -> Result<Vec<Value>, Halt>
    ensures ok { IfOk result (λ v. Went (printing place (text_by_arguments given.items)) (at memory.now (W.log world.old)) v.items (at memory.now (W.log world.new))) }
    ensures err { (x : Halt) → result ≡ Err x → Halts (printing place (text_by_arguments given.items)) (at memory.now (W.log world.old)) x (at memory.now (W.log world.new)) }
    ensures keeps { Keeps (at memory.now (W.log world.old)) (at memory.now (W.log world.new)) }
{
    match text_by(alloc, given) {
        Ok(text) => print_text(alloc, memory, world, text),
        Err(Or::Memory) => Err(Halt::Memory),
        Err(Or::Is(kind)) => Err(fail(alloc, kind, place)),
    }
}

/// Prints a text. There is no output.
fn print_text<W: World>(
    alloc: Global,
    memory: &Memory<'_>,
    world: &mut W,
    text: Vec<u8>,
) -> Result<Vec<Value>, Halt>
    ensures ok { IfOk result (λ v. Went (printed text.items) (at memory.now (W.log world.old)) v.items (at memory.now (W.log world.new))) }
    ensures err { (x : Halt) → result ≡ Err x → Halts (printed text.items) (at memory.now (W.log world.old)) x (at memory.now (W.log world.new)) }
    ensures keeps { Keeps (at memory.now (W.log world.old)) (at memory.now (W.log world.new)) }
{
    match tell(memory, world, Event::Print(Text::from_vec(text))) {
        Ok(()) => Ok(Vec::new(alloc)),
        Err(x) => Err(x),
    }
}
