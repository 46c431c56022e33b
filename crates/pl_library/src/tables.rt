//! The functions of the tables, called with the arrays of their arguments.

ghost use Rattle.std.specs.Prelude.{◌≡◌, replicate, length, Result, Ok, Err, IfOk, true, false, if◌then◌else◌};
ghost use Rattle.pl_base.specs.declared.errors.ErrKind.{ErrKind};
ghost use Rattle.pl_operators.specs.Operands.{arrays_in};
ghost use Rattle.pl_meaning.specs.declared.halt.Halt.{Halt};
ghost use Rattle.pl_meaning.specs.Promises.{At, Went, Halts};
ghost use Rattle.pl_meaning.specs.Library.{empty_array, unless_counts, on_arrays, as_values, tabled};
ghost use Rattle.pl_library.specs.Answering.{answers_of};

use crate::arguments::arrays_of;
use pl_access::{fail, settled};
use pl_array::{Arr, Class, Shape};
use pl_base::{ErrKind, Mode, NoMemory, Or, Place};
use pl_builtin::{Builtin, call_in};
use pl_meaning::Halt;
use pl_setfn::{SetFn, call_set_in};
use pl_values::Value;
use std::alloc::Global;

/// A function of one of the two tables.
#[derive(Clone, Copy)]
pub(crate) enum Table {
    Numbers(Builtin),
    Sets(SetFn),
}

/// A call of a function of a table.
pub(crate) fn call_table(
    alloc: Global,
    mode: Mode,
    place: Place,
    table: Table,
    wanted: usize,
    given: Vec<Value>,
) -> Result<Vec<Value>, Halt>
    ensures ok { IfOk result (λ v. (m : At) → Went (tabled place (answers_of mode table wanted) given.items) m v.items m) }
    ensures err { (x : Halt) → result ≡ Err x → (m : At) → Halts (tabled place (answers_of mode table wanted) given.items) m x m }
{
    settled!(alloc, place, values_of(alloc, mode, table, wanted, given))
}

/// Its answers as values.
fn values_of(
    alloc: Global,
    mode: Mode,
    table: Table,
    wanted: usize,
    given: Vec<Value>,
) -> Result<Vec<Value>, Or<ErrKind>>
    ensures ok { IfOk result (λ v. as_values (on_arrays (answers_of mode table wanted) (length given.items) (arrays_in given.items)) ≡ Ok v.items) }
    ensures err { (kind : ErrKind) → result ≡ Err (Or.Is kind) → as_values (on_arrays (answers_of mode table wanted) (length given.items) (arrays_in given.items)) ≡ Err kind }
{
    let arrays = arrays_from(alloc, mode, table, wanted, given)?;
    let values: Vec<Value> = arrays.into_iter().map(|a| Value::Array(a)).collect(alloc)?;
    Ok(values)
}

/// Its answers. Where an argument is no array the call is refused: for its counts, where these are wrong.
fn arrays_from(
    alloc: Global,
    mode: Mode,
    table: Table,
    wanted: usize,
    given: Vec<Value>,
) -> Result<Vec<Arr>, Or<ErrKind>>
    ensures ok { IfOk result (λ v. on_arrays (answers_of mode table wanted) (length given.items) (arrays_in given.items) ≡ Ok v.items) }
    ensures err { (kind : ErrKind) → result ≡ Err (Or.Is kind) → on_arrays (answers_of mode table wanted) (length given.items) (arrays_in given.items) ≡ Err kind }
{
    let count = given.len();
    match arrays_of(alloc, given) {
        Ok(arrays) => answer(alloc, mode, table, wanted, arrays.as_slice()),
        Err(Or::Memory) => Err(Or::Memory),
        Err(Or::Is(kind)) => Err(refusal(alloc, mode, table, wanted, count, kind)),
    }
}

/// Why a call is refused of whose arguments one is no array.
fn refusal(
    alloc: Global,
    mode: Mode,
    table: Table,
    wanted: usize,
    count: usize,
    kind: ErrKind,
) -> Or<ErrKind>
    ensures { (k : ErrKind) → result ≡ Or.Is k → unless_counts kind (answers_of mode table wanted (replicate count empty_array)) ≡ Err k }
{
    match answer_to_empty(alloc, mode, table, wanted, count) {
        Ok(_) => Or::Is(kind),
        Err(Or::Memory) => Or::Memory,
        Err(Or::Is(other)) => Or::Is(counts_first(other, kind)),
    }
}

/// A refusal for its counts comes before one for a kind.
fn counts_first(other: ErrKind, kind: ErrKind) -> ErrKind
    ensures { unless_counts kind (Err other) ≡ Err result }
{
    match other {
        ErrKind::ArgCount => ErrKind::ArgCount,
        _ => kind,
    }
}

/// What a call answers to so many empty arrays.
fn answer_to_empty(
    alloc: Global,
    mode: Mode,
    table: Table,
    wanted: usize,
    count: usize,
) -> Result<Vec<Arr>, Or<ErrKind>>
    ensures ok { IfOk result (λ v. answers_of mode table wanted (replicate count empty_array) ≡ Ok v.items) }
    ensures err { (kind : ErrKind) → result ≡ Err (Or.Is kind) → answers_of mode table wanted (replicate count empty_array) ≡ Err kind }
{
    let arrays = empty_arrays(alloc, count)?;
    answer(alloc, mode, table, wanted, arrays.as_slice())
}

fn empty_arrays(alloc: Global, count: usize) -> Result<Vec<Arr>, NoMemory>
    ensures { IfOk result (λ v. v.items ≡ replicate count empty_array) }
{
    let mut arrays = Vec::with_capacity(alloc, count)?;
    for _array in 0..count {
        arrays.push(empty(alloc))?;
    }
    Ok(arrays)
}

fn empty(alloc: Global) -> Arr
    ensures { result ≡ empty_array }
{
    let none = Shape { rows: 0, cols: 0 };
    Arr::new(Class::Int, none, Vec::new(alloc))
}

/// What a call answers to arrays. No function has more than two outputs.
#[tactic(auto, using(crate::proofs::Outputs::too_many))]
fn answer(
    alloc: Global,
    mode: Mode,
    table: Table,
    wanted: usize,
    args: &[Arr],
) -> Result<Vec<Arr>, Or<ErrKind>>
    ensures ok { IfOk result (λ v. answers_of mode table wanted args.now ≡ Ok v.items) }
    ensures err { (kind : ErrKind) → result ≡ Err (Or.Is kind) → answers_of mode table wanted args.now ≡ Err kind }
{
    if wanted > 2 {
        return Err(Or::Is(ErrKind::ArgCount));
    }
    match table {
        Table::Numbers(f) => call_in(alloc, mode, f, args, wanted as u32),
        Table::Sets(f) => call_set_in(alloc, mode, f, args, wanted as u32),
    }
}
