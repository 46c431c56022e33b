//! Calls: by a name, by a value, and of local functions.

ghost use Rattle.std.specs.Prelude.{◌≡◌, ℕ, Result, Ok, Err, IfOk};
ghost use Rattle.pl_meaning.specs.declared.halt.Halt.{Halt};
ghost use Rattle.pl_meaning.specs.Logs.{Workspace, Log};
ghost use Rattle.pl_meaning.specs.Promises.{Went, Halts, Keeps, at};
ghost use Rattle.std.specs.Prelude.{◌++◌, drop, slice_get, Some, None};
ghost use Rattle.pl_resolve.specs.Functions.{function_names};
ghost use Rattle.pl_meaning.specs.Known.{known_of};
ghost use Rattle.pl_meaning.specs.Parts.{handed_value, below, level_at, enter, first_of as first_part, called as called_part, applied as applied_part, call_name as call_name_part, dispatched, known_call, by_library, handed as handed_part, fed as fed_part, numbered as numbered_part, by_table as by_table_part, by_known as by_known_part};
ghost use Rattle.pl_values.specs.declared.value.Value.{out-Value};

use crate::doors::{call_door, known_named};
use crate::lists::values;
use crate::local::call;
use crate::running::descend;
use pl_access::{extra, fail};
use pl_base::{ErrKind, Place};
use pl_library::library;
use pl_meaning::{Frame, Halt, Known, Memory, World, function_door, function_of};
use pl_resolve::{Resolved, name_behind};
use pl_syntax::{Expr, Name};
use pl_values::Value;
use std::alloc::Global;

/// The one output of a call that is used as a value.
pub(crate) fn first_of(alloc: Global, place: Place, outputs: Vec<Value>) -> Result<Value, Halt>
    ensures ok { IfOk result (λ gained. (env : Workspace) (turns calls : ℕ) (l : Log) → Went (first_part place outputs.items) (record { env = env; turns = turns; calls = calls; log = l }) gained (record { env = env; turns = turns; calls = calls; log = l })) }
    ensures err { (x : Halt) → result ≡ Err x → (env : Workspace) (turns calls : ℕ) (l : Log) → Halts (first_part place outputs.items) (record { env = env; turns = turns; calls = calls; log = l }) x (record { env = env; turns = turns; calls = calls; log = l }) }
{
    match outputs.into_iter().next() {
        Some(v) => Ok(v),
        None => Err(fail(alloc, ErrKind::ArgCount, place)),
    }
}

/// A call's node, with so many outputs.
#[cycle(running)]
#[tactic(auto, unfolding(pl_meaning::specs::Parts::called))]
pub(crate) fn called<W: World>(
    alloc: Global,
    program: &Resolved,
    levels: u32,
    frame: Frame,
    memory: &mut Memory<'_>,
    world: &mut W,
    place: Place,
    name: &Name,
    wanted: usize,
    list: &[Expr],
) -> Result<Vec<Value>, Halt>
    ensures ok { IfOk result (λ gained. Went (called_part program.now (below program.now levels) frame place name.now wanted list.now) (at memory.old (W.log world.old)) gained.items (at memory.new (W.log world.new))) }
    ensures err { (x : Halt) → result ≡ Err x → Halts (called_part program.now (below program.now levels) frame place name.now wanted list.now) (at memory.old (W.log world.old)) x (at memory.new (W.log world.new)) }
    ensures keeps { Keeps (at memory.old (W.log world.old)) (at memory.new (W.log world.new)) }
{
    let levels = descend(alloc, program, levels, place)?;
    applied(
        alloc, program, levels, frame, memory, world, name, wanted, list,
    )
}

/// A call below its level: the arguments, and then the function.
#[cycle(running)]
pub(crate) fn applied<W: World>(
    alloc: Global,
    program: &Resolved,
    levels: u32,
    frame: Frame,
    memory: &mut Memory<'_>,
    world: &mut W,
    name: &Name,
    wanted: usize,
    list: &[Expr],
) -> Result<Vec<Value>, Halt>
    ensures ok { IfOk result (λ gained. Went (applied_part program.now (level_at program.now (below program.now levels)) frame name.now wanted list.now) (at memory.old (W.log world.old)) gained.items (at memory.new (W.log world.new))) }
    ensures err { (x : Halt) → result ≡ Err x → Halts (applied_part program.now (level_at program.now (below program.now levels)) frame name.now wanted list.now) (at memory.old (W.log world.old)) x (at memory.new (W.log world.new)) }
    ensures keeps { Keeps (at memory.old (W.log world.old)) (at memory.new (W.log world.new)) }
{
    let given = values(
        alloc, program, levels, frame, memory, world, name.place, list,
    )?;
    call_name(
        alloc,
        program,
        levels,
        frame.client,
        memory,
        world,
        name,
        wanted,
        given,
    )
}

/// A call by a name: of a local function, or else of one that stands in a table.
#[cycle(running)]
#[tactic(auto, unfolding(pl_meaning::specs::Parts::call_name))]
fn call_name<W: World>(
    alloc: Global,
    program: &Resolved,
    levels: u32,
    client: bool,
    memory: &mut Memory<'_>,
    world: &mut W,
    name: &Name,
    wanted: usize,
    given: Vec<Value>,
) -> Result<Vec<Value>, Halt>
    ensures ok { IfOk result (λ gained. Went (call_name_part program.now (level_at program.now (below program.now levels)) client name.now wanted given.items) (at memory.old (W.log world.old)) gained.items (at memory.new (W.log world.new))) }
    ensures err { (x : Halt) → result ≡ Err x → Halts (call_name_part program.now (level_at program.now (below program.now levels)) client name.now wanted given.items) (at memory.old (W.log world.old)) x (at memory.new (W.log world.new)) }
    ensures keeps { Keeps (at memory.old (W.log world.old)) (at memory.new (W.log world.new)) }
{
    match function_of(program, &name.text) {
        Some(i) => call(
            alloc, program, levels, client, memory, world, name.place, i, wanted, given,
        ),
        None => call_named(
            alloc, program, levels, client, memory, world, name, wanted, given,
        ),
    }
}

/// A call of an extra, or else of a function of the library.
#[cycle(running)]
fn call_named<W: World>(
    alloc: Global,
    program: &Resolved,
    levels: u32,
    client: bool,
    memory: &mut Memory<'_>,
    world: &mut W,
    name: &Name,
    wanted: usize,
    given: Vec<Value>,
) -> Result<Vec<Value>, Halt>
    ensures ok { IfOk result (λ gained. Went (dispatched program.now (level_at program.now (below program.now levels)) client name.now wanted given.items None (known_of name.now.text)) (at memory.old (W.log world.old)) gained.items (at memory.new (W.log world.new))) }
    ensures err { (x : Halt) → result ≡ Err x → Halts (dispatched program.now (level_at program.now (below program.now levels)) client name.now wanted given.items None (known_of name.now.text)) (at memory.old (W.log world.old)) x (at memory.new (W.log world.new)) }
    ensures keeps { Keeps (at memory.old (W.log world.old)) (at memory.new (W.log world.new)) }
{
    let known = known_named(&name.text);
    match call_door(program, client, &name.text, known, &given) {
        Some(number) => extra(alloc, memory, world, name.place, number, given, wanted),
        None => call_known(
            alloc, program, levels, client, memory, world, name.place, known, wanted, given,
        ),
    }
}

/// A call of a function of the library, if there is one.
#[cycle(running)]
fn call_known<W: World>(
    alloc: Global,
    program: &Resolved,
    levels: u32,
    client: bool,
    memory: &mut Memory<'_>,
    world: &mut W,
    place: Place,
    known: Option<Known>,
    wanted: usize,
    given: Vec<Value>,
) -> Result<Vec<Value>, Halt>
    ensures ok { IfOk result (λ gained. Went (known_call program.now (level_at program.now (below program.now levels)) client place wanted given.items known) (at memory.old (W.log world.old)) gained.items (at memory.new (W.log world.new))) }
    ensures err { (x : Halt) → result ≡ Err x → Halts (known_call program.now (level_at program.now (below program.now levels)) client place wanted given.items known) (at memory.old (W.log world.old)) x (at memory.new (W.log world.new)) }
    ensures keeps { Keeps (at memory.old (W.log world.old)) (at memory.new (W.log world.new)) }
{
    match known {
        None => Err(fail(alloc, ErrKind::WrongPlace, place)),
        Some(f) => call_library(
            alloc, program, levels, client, memory, world, place, f, wanted, given,
        ),
    }
}

/// A call of a function of the library; `feval` calls on.
#[cycle(running)]
fn call_library<W: World>(
    alloc: Global,
    program: &Resolved,
    levels: u32,
    client: bool,
    memory: &mut Memory<'_>,
    world: &mut W,
    place: Place,
    f: Known,
    wanted: usize,
    given: Vec<Value>,
) -> Result<Vec<Value>, Halt>
    ensures ok { IfOk result (λ gained. Went (by_library program.now (level_at program.now (below program.now levels)) client place wanted given.items f) (at memory.old (W.log world.old)) gained.items (at memory.new (W.log world.new))) }
    ensures err { (x : Halt) → result ≡ Err x → Halts (by_library program.now (level_at program.now (below program.now levels)) client place wanted given.items f) (at memory.old (W.log world.old)) x (at memory.new (W.log world.new)) }
    ensures keeps { Keeps (at memory.old (W.log world.old)) (at memory.new (W.log world.new)) }
{
    match f.is_feval() {
        true => fed(
            alloc, program, levels, client, memory, world, place, wanted, given,
        ),
        false => library(alloc, program.mode, memory, world, place, f, wanted, given),
    }
}

/// The number of the function that a value is.
fn function_in(alloc: Global, place: Place, v: &Value) -> Result<u32, Halt>
    ensures ok { IfOk result (λ gained. (env : Workspace) (turns calls : ℕ) (l : Log) → Went (handed_value place (out-Value v.now)) (record { env = env; turns = turns; calls = calls; log = l }) gained (record { env = env; turns = turns; calls = calls; log = l })) }
    ensures err { (x : Halt) → result ≡ Err x → (env : Workspace) (turns calls : ℕ) (l : Log) → Halts (handed_value place (out-Value v.now)) (record { env = env; turns = turns; calls = calls; log = l }) x (record { env = env; turns = turns; calls = calls; log = l }) }
{
    match v {
        Value::Func(i) => Ok(*i),
        Value::Array(_) => Err(fail(alloc, ErrKind::BadKind, place)),
        Value::Futures(_) => Err(fail(alloc, ErrKind::BadKind, place)),
        Value::Queue(_) => Err(fail(alloc, ErrKind::BadKind, place)),
        Value::Pool => Err(fail(alloc, ErrKind::BadKind, place)),
        Value::Codistributor(_) => Err(fail(alloc, ErrKind::BadKind, place)),
        Value::Part(_) => Err(fail(alloc, ErrKind::BadKind, place)),
        Value::Composite(_) => Err(fail(alloc, ErrKind::BadKind, place)),
        Value::Whole(_) => Err(fail(alloc, ErrKind::BadKind, place)),
        Value::Opaque(_, _) => Err(fail(alloc, ErrKind::BadKind, place)),
    }
}

/// The function that a call by a value is handed.
fn handed(alloc: Global, place: Place, given: &[Value]) -> Result<u32, Halt>
    ensures ok { IfOk result (λ gained. (env : Workspace) (turns calls : ℕ) (l : Log) → Went (handed_part place given.now) (record { env = env; turns = turns; calls = calls; log = l }) gained (record { env = env; turns = turns; calls = calls; log = l })) }
    ensures err { (x : Halt) → result ≡ Err x → (env : Workspace) (turns calls : ℕ) (l : Log) → Halts (handed_part place given.now) (record { env = env; turns = turns; calls = calls; log = l }) x (record { env = env; turns = turns; calls = calls; log = l }) }
{
    match given {
        [] => Err(fail(alloc, ErrKind::ArgCount, place)),
        [first, ..] => function_in(alloc, place, first),
    }
}

/// All but the first of the arguments.
fn behind_first(given: Vec<Value>) -> Vec<Value>
    ensures { result.items ≡ drop 1 given.items }
{
    let mut given = given;
    if !given.is_empty() {
        given.remove(0);
    }
    given
}

/// `feval`: the first argument is the function, and the others are its arguments.
#[cycle(running)]
#[tactic(auto, unfolding(pl_meaning::specs::Parts::fed))]
fn fed<W: World>(
    alloc: Global,
    program: &Resolved,
    levels: u32,
    client: bool,
    memory: &mut Memory<'_>,
    world: &mut W,
    place: Place,
    wanted: usize,
    given: Vec<Value>,
) -> Result<Vec<Value>, Halt>
    ensures ok { IfOk result (λ gained. Went (fed_part program.now (level_at program.now (below program.now levels)) client place wanted given.items) (at memory.old (W.log world.old)) gained.items (at memory.new (W.log world.new))) }
    ensures err { (x : Halt) → result ≡ Err x → Halts (fed_part program.now (level_at program.now (below program.now levels)) client place wanted given.items) (at memory.old (W.log world.old)) x (at memory.new (W.log world.new)) }
    ensures keeps { Keeps (at memory.old (W.log world.old)) (at memory.new (W.log world.new)) }
{
    let i = handed(alloc, place, given.as_slice())?;
    let given = behind_first(given);
    numbered(
        alloc, program, levels, client, memory, world, place, i as usize, wanted, given,
    )
}

/// A call by the number of a function.
#[cycle(running)]
#[tactic(auto, unfolding(pl_meaning::specs::Parts::numbered))]
fn numbered<W: World>(
    alloc: Global,
    program: &Resolved,
    levels: u32,
    client: bool,
    memory: &mut Memory<'_>,
    world: &mut W,
    place: Place,
    i: usize,
    wanted: usize,
    given: Vec<Value>,
) -> Result<Vec<Value>, Halt>
    ensures ok { IfOk result (λ gained. Went (numbered_part program.now (level_at program.now (below program.now levels)) client place i wanted given.items) (at memory.old (W.log world.old)) gained.items (at memory.new (W.log world.new))) }
    ensures err { (x : Halt) → result ≡ Err x → Halts (numbered_part program.now (level_at program.now (below program.now levels)) client place i wanted given.items) (at memory.old (W.log world.old)) x (at memory.new (W.log world.new)) }
    ensures keeps { Keeps (at memory.old (W.log world.old)) (at memory.new (W.log world.new)) }
{
    let locals = program.program.functions.len();
    if i < locals {
        return call(
            alloc, program, levels, client, memory, world, place, i, wanted, given,
        );
    }
    by_table(
        alloc,
        program,
        client,
        memory,
        world,
        place,
        i - locals,
        wanted,
        given,
    )
}

/// A call by the place of a function in the table of names.
fn by_table<W: World>(
    alloc: Global,
    program: &Resolved,
    client: bool,
    memory: &mut Memory<'_>,
    world: &mut W,
    place: Place,
    i: usize,
    wanted: usize,
    given: Vec<Value>,
) -> Result<Vec<Value>, Halt>
    ensures ok { IfOk result (λ gained. Went (by_table_part program.now client place wanted given.items (slice_get (function_names ++ program.now.extras) i)) (at memory.old (W.log world.old)) gained.items (at memory.new (W.log world.new))) }
    ensures err { (x : Halt) → result ≡ Err x → Halts (by_table_part program.now client place wanted given.items (slice_get (function_names ++ program.now.extras) i)) (at memory.old (W.log world.old)) x (at memory.new (W.log world.new)) }
    ensures keeps { Keeps (at memory.old (W.log world.old)) (at memory.new (W.log world.new)) }
{
    match name_behind(&program.extras, i) {
        None => Err(fail(alloc, ErrKind::WrongPlace, place)),
        Some(name) => by_name(
            alloc, program, client, memory, world, place, name, wanted, given,
        ),
    }
}

/// A call of an extra, or else of a function of the library, by a name of the table.
fn by_name<W: World>(
    alloc: Global,
    program: &Resolved,
    client: bool,
    memory: &mut Memory<'_>,
    world: &mut W,
    place: Place,
    name: &[u8],
    wanted: usize,
    given: Vec<Value>,
) -> Result<Vec<Value>, Halt>
    ensures ok { IfOk result (λ gained. Went (by_table_part program.now client place wanted given.items (Some name.now)) (at memory.old (W.log world.old)) gained.items (at memory.new (W.log world.new))) }
    ensures err { (x : Halt) → result ≡ Err x → Halts (by_table_part program.now client place wanted given.items (Some name.now)) (at memory.old (W.log world.old)) x (at memory.new (W.log world.new)) }
    ensures keeps { Keeps (at memory.old (W.log world.old)) (at memory.new (W.log world.new)) }
{
    let known = Known::of(name);
    match function_door(program, client, name, known, given.as_slice()) {
        Some(number) => extra(alloc, memory, world, place, number, given, wanted),
        None => by_known(alloc, program, memory, world, place, known, wanted, given),
    }
}

/// A call of a function of the library, if there is one.
fn by_known<W: World>(
    alloc: Global,
    program: &Resolved,
    memory: &Memory<'_>,
    world: &mut W,
    place: Place,
    known: Option<Known>,
    wanted: usize,
    given: Vec<Value>,
) -> Result<Vec<Value>, Halt>
    ensures ok { IfOk result (λ gained. Went (by_known_part program.now place wanted given.items known) (at memory.now (W.log world.old)) gained.items (at memory.now (W.log world.new))) }
    ensures err { (x : Halt) → result ≡ Err x → Halts (by_known_part program.now place wanted given.items known) (at memory.now (W.log world.old)) x (at memory.now (W.log world.new)) }
    ensures keeps { Keeps (at memory.now (W.log world.old)) (at memory.now (W.log world.new)) }
{
    match known {
        None => Err(fail(alloc, ErrKind::WrongPlace, place)),
        Some(f) => library(alloc, program.mode, memory, world, place, f, wanted, given),
    }
}
