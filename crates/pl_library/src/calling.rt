//! A call of a function of the library: which one it is.

ghost use Rattle.std.specs.Prelude.{◌≡◌, List, IfOk, Result, Ok, Err};
ghost use Rattle.pl_meaning.specs.declared.halt.Halt.{Halt};
ghost use Rattle.pl_meaning.specs.Promises.{Went, Halts, Keeps, at};
ghost use Rattle.pl_meaning.specs.Library.{own_of, library as library_part};

use crate::making::{make_array_text, make_number_text, make_text};
use crate::printing::{display, print};
use crate::raising::raise_text;
use crate::tables::{Table, call_table};
use pl_access::fail;
use pl_base::{ErrKind, Mode, Place};
use pl_meaning::{Halt, Known, Memory, Own, World};
use pl_values::Value;
use std::alloc::Global;

/// A call of a function of the library.
#[tactic(auto, unfolding(pl_meaning::specs::Library::library))]
pub fn library<W: World>(
    alloc: Global,
    mode: Mode,
    memory: &Memory<'_>,
    world: &mut W,
    place: Place,
    known: Known,
    wanted: usize,
    given: Vec<Value>,
) -> Result<Vec<Value>, Halt>
    ensures ok { IfOk result (λ v. Went (library_part mode place known wanted given.items) (at memory.now (W.log world.old)) v.items (at memory.now (W.log world.new))) }
    ensures err { (x : Halt) → result ≡ Err x → Halts (library_part mode place known wanted given.items) (at memory.now (W.log world.old)) x (at memory.now (W.log world.new)) }
    ensures keeps { Keeps (at memory.now (W.log world.old)) (at memory.now (W.log world.new)) }
{
    match known {
        Known::Own(f) => call_own(alloc, memory, world, place, f, wanted, given),
        Known::Numbers(f) => call_table(alloc, mode, place, Table::Numbers(f), wanted, given),
        Known::Sets(f) => call_table(alloc, mode, place, Table::Sets(f), wanted, given),
    }
}

/// A call of a function that a run carries out itself. `feval` is a call, and not carried out here.
fn call_own<W: World>(
    alloc: Global,
    memory: &Memory<'_>,
    world: &mut W,
    place: Place,
    f: Own,
    wanted: usize,
    given: Vec<Value>,
) -> Result<Vec<Value>, Halt>
    ensures ok { IfOk result (λ v. Went (own_of place f wanted given.items) (at memory.now (W.log world.old)) v.items (at memory.now (W.log world.new))) }
    ensures err { (x : Halt) → result ≡ Err x → Halts (own_of place f wanted given.items) (at memory.now (W.log world.old)) x (at memory.now (W.log world.new)) }
    ensures keeps { Keeps (at memory.now (W.log world.old)) (at memory.now (W.log world.new)) }
{
    match f {
        Own::Disp => display(alloc, memory, world, place, wanted, given),
        Own::Fprintf => print(alloc, memory, world, place, wanted, given),
        Own::Sprintf => make_text(alloc, place, wanted, given),
        Own::Error => Err(raise_text(alloc, place, wanted, given)),
        Own::NumToStr => make_number_text(alloc, place, wanted, given),
        Own::MatToStr => make_array_text(alloc, place, wanted, given),
        Own::Feval => Err(fail(alloc, ErrKind::BadKind, place)),
    }
}
