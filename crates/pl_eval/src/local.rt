//! Calls of local functions, each in a workspace of its own.

ghost use Rattle.std.specs.Prelude.{◌≡◌, Result, Ok, Err, IfOk};
ghost use Rattle.pl_meaning.specs.declared.halt.Halt.{Halt};
ghost use Rattle.pl_meaning.specs.Promises.{Went, Halts, Keeps, at};
ghost use Rattle.std.specs.Prelude.{◌+◌, ◌<◌, ◌^◌, ◌||◌, [], None, nat_lt, IfErr, OnOk, length, replicate};
ghost use Rattle.pl_meaning.specs.Logs.{Log};
ghost use Rattle.pl_eval.specs.Pieces.{begun, counted_call, entered_body};
ghost use Rattle.pl_meaning.specs.Names.{names_in};
ghost use Rattle.pl_meaning.specs.Parts.{below, level_at, call_in, body_of, frame_of as frame_part, results as results_part, results_from as results_from_part, entry_of as entry_part, bound as bound_part, bound_in, count_in as count_part, counted_in, output as output_part, first_offered, ran};

use crate::naming::count_value;
use crate::running::descend;
use crate::statements::block;
use pl_access::{fail, shared, take_turn};
use pl_base::{ErrKind, Place, Text};
use pl_meaning::{Frame, Halt, Memory, World, slot_of};
use pl_resolve::Resolved;
use pl_syntax::{Function, Name};
use pl_values::{Env, Value};
use std::alloc::Global;
use std::mem;

/// The frame of a function's body.
fn frame_of(_program: &Resolved, client: bool, i: usize, given: usize, wanted: usize) -> Frame
    requires { i + 1 < 2 ^ 64 }
    ensures { result ≡ frame_part _program.now client i given wanted }
{
    Frame {
        client,
        scope: i + 1,
        given,
        wanted,
        ends: None,
    }
}

/// A local function: the counts, a turn, a level, and its body.
#[cycle(running)]
#[tactic(auto, unfolding(pl_meaning::specs::Parts::call_in))]
pub(crate) fn call<W: World>(
    alloc: Global,
    program: &Resolved,
    levels: u32,
    client: bool,
    memory: &mut Memory<'_>,
    world: &mut W,
    place: Place,
    i: usize,
    wanted: usize,
    given: Vec<Value>,
) -> Result<Vec<Value>, Halt>
    ensures ok { IfOk result (λ gained. Went (call_in program.now (below program.now levels) client place i wanted given.items) (at memory.old (W.log world.old)) gained.items (at memory.new (W.log world.new))) }
    ensures err { (x : Halt) → result ≡ Err x → Halts (call_in program.now (below program.now levels) client place i wanted given.items) (at memory.old (W.log world.old)) x (at memory.new (W.log world.new)) }
    ensures keeps { Keeps (at memory.old (W.log world.old)) (at memory.new (W.log world.new)) }
{
    let functions = program.program.functions.as_slice();
    if i >= functions.len() {
        return Err(fail(alloc, ErrKind::NoValue, place));
    }
    let frame = frame_of(program, client, i, given.len(), wanted);
    let g = &functions[i];
    checked(
        alloc, program, levels, frame, memory, world, place, g, given,
    )
}

/// Whether more is given or wanted than a function has parameters or outputs.
fn has_too_many(g: &Function, given: usize, wanted: usize) -> bool
    ensures { result ≡ (nat_lt (length g.now.params) given || nat_lt (length g.now.outs) wanted) }
{
    g.params.items().len() < given || g.outs.items().len() < wanted
}

/// A local function: that it has as many parameters and outputs as are given and wanted, and then the call.
#[cycle(running)]
fn checked<W: World>(
    alloc: Global,
    program: &Resolved,
    levels: u32,
    frame: Frame,
    memory: &mut Memory<'_>,
    world: &mut W,
    place: Place,
    g: &Function,
    given: Vec<Value>,
) -> Result<Vec<Value>, Halt>
    ensures ok { IfOk result (λ gained. Went (counted_call program.now (below program.now levels) frame place g.now given.items) (at memory.old (W.log world.old)) gained.items (at memory.new (W.log world.new))) }
    ensures err { (x : Halt) → result ≡ Err x → Halts (counted_call program.now (below program.now levels) frame place g.now given.items) (at memory.old (W.log world.old)) x (at memory.new (W.log world.new)) }
    ensures keeps { Keeps (at memory.old (W.log world.old)) (at memory.new (W.log world.new)) }
{
    match has_too_many(g, given.len(), frame.wanted) {
        true => Err(fail(alloc, ErrKind::ArgCount, place)),
        false => begin(
            alloc, program, levels, frame, memory, world, place, g, given,
        ),
    }
}

/// A local function behind its counts: a turn, a level, and its body.
#[cycle(running)]
fn begin<W: World>(
    alloc: Global,
    program: &Resolved,
    levels: u32,
    frame: Frame,
    memory: &mut Memory<'_>,
    world: &mut W,
    place: Place,
    g: &Function,
    given: Vec<Value>,
) -> Result<Vec<Value>, Halt>
    ensures ok { IfOk result (λ gained. Went (begun program.now (below program.now levels) frame place g.now given.items) (at memory.old (W.log world.old)) gained.items (at memory.new (W.log world.new))) }
    ensures err { (x : Halt) → result ≡ Err x → Halts (begun program.now (below program.now levels) frame place g.now given.items) (at memory.old (W.log world.old)) x (at memory.new (W.log world.new)) }
    ensures keeps { Keeps (at memory.old (W.log world.old)) (at memory.new (W.log world.new)) }
{
    take_turn(alloc, memory, world, place)?;
    enter_body(
        alloc, program, levels, frame, memory, world, place, g, given,
    )
}

/// A level, and the body of a function.
#[cycle(running)]
fn enter_body<W: World>(
    alloc: Global,
    program: &Resolved,
    levels: u32,
    frame: Frame,
    memory: &mut Memory<'_>,
    world: &mut W,
    place: Place,
    g: &Function,
    given: Vec<Value>,
) -> Result<Vec<Value>, Halt>
    ensures ok { IfOk result (λ gained. Went (entered_body program.now (below program.now levels) frame place g.now given.items) (at memory.old (W.log world.old)) gained.items (at memory.new (W.log world.new))) }
    ensures err { (x : Halt) → result ≡ Err x → Halts (entered_body program.now (below program.now levels) frame place g.now given.items) (at memory.old (W.log world.old)) x (at memory.new (W.log world.new)) }
    ensures keeps { Keeps (at memory.old (W.log world.old)) (at memory.new (W.log world.new)) }
{
    let levels = descend(alloc, program, levels, place)?;
    body(
        alloc, program, levels, frame, memory, world, place, g, given,
    )
}

/// A function's body, in a workspace of its own.
#[cycle(running)]
#[tactic(auto, using(pl_meaning::proofs::Cut::cut))]
fn body<W: World>(
    alloc: Global,
    program: &Resolved,
    levels: u32,
    frame: Frame,
    memory: &mut Memory<'_>,
    world: &mut W,
    place: Place,
    g: &Function,
    given: Vec<Value>,
) -> Result<Vec<Value>, Halt>
    ensures ok { IfOk result (λ gained. Went (body_of program.now (level_at program.now (below program.now levels)) frame place g.now given.items) (at memory.old (W.log world.old)) gained.items (at memory.new (W.log world.new))) }
    ensures err { (x : Halt) → result ≡ Err x → Halts (body_of program.now (level_at program.now (below program.now levels)) frame place g.now given.items) (at memory.old (W.log world.old)) x (at memory.new (W.log world.new)) }
    ensures keeps { Keeps (at memory.old (W.log world.old)) (at memory.new (W.log world.new)) }
{
    let env = entry_of(alloc, program, frame, g, given)?;
    let caller = mem::replace(&mut memory.env, env);
    let outputs = results_of(alloc, program, levels, frame, memory, world, place, g);
    memory.env = caller;
    outputs
}

/// A function's statements, and the outputs that are asked for.
#[cycle(running)]
fn results_of<W: World>(
    alloc: Global,
    program: &Resolved,
    levels: u32,
    frame: Frame,
    memory: &mut Memory<'_>,
    world: &mut W,
    place: Place,
    g: &Function,
) -> Result<Vec<Value>, Halt>
    ensures ok { IfOk result (λ gained. Went (ran program.now (level_at program.now (below program.now levels)) frame place g.now) (at memory.old (W.log world.old)) gained.items (at memory.new (W.log world.new))) }
    ensures err { (x : Halt) → result ≡ Err x → Halts (ran program.now (level_at program.now (below program.now levels)) frame place g.now) (at memory.old (W.log world.old)) x (at memory.new (W.log world.new)) }
    ensures keeps { Keeps (at memory.old (W.log world.old)) (at memory.new (W.log world.new)) }
{
    block(alloc, program, levels, frame, memory, world, &g.body)?;
    results(alloc, program, frame, memory, place, g)
}

/// The outputs that a call is asked for; where it is asked for none, the first, if it was assigned.
#[tactic(auto, unfolding(pl_meaning::specs::Parts::results))]
fn results(
    alloc: Global,
    program: &Resolved,
    frame: Frame,
    memory: &Memory<'_>,
    place: Place,
    g: &Function,
) -> Result<Vec<Value>, Halt>
    ensures ok { IfOk result (λ gained. (l : Log) → Went (results_part program.now frame place g.now) (at memory.now l) gained.items (at memory.now l)) }
    ensures err { (x : Halt) → result ≡ Err x → (l : Log) → Halts (results_part program.now frame place g.now) (at memory.now l) x (at memory.now l) }
{
    if frame.wanted == 0 {
        return offered(alloc, program, frame, memory, g.outs.items());
    }
    let asked = frame.wanted.min(g.outs.items().len());
    asked_for(
        alloc,
        program,
        frame,
        memory,
        place,
        &g.outs.items()[..asked],
    )
}

/// The outputs of these names, in order.
#[tactic(auto, using(pl_meaning::proofs::Cut::cut))]
fn asked_for(
    alloc: Global,
    program: &Resolved,
    frame: Frame,
    memory: &Memory<'_>,
    place: Place,
    names: &[Name],
) -> Result<Vec<Value>, Halt>
    ensures ok { IfOk result (λ gained. (l : Log) → Went (results_from_part program.now frame place [] names.now) (at memory.now l) gained.items (at memory.now l)) }
    ensures err { (x : Halt) → result ≡ Err x → (l : Log) → Halts (results_from_part program.now frame place [] names.now) (at memory.now l) x (at memory.now l) }
{
    let mut done = Vec::new(alloc);
    for name in names {
        let v = output(alloc, program, frame, memory, place, name)?;
        done.push(v)?;
    }
    Ok(done)
}

/// The first output, if it was assigned.
#[tactic(auto, using(pl_meaning::proofs::Cut::cut))]
fn offered(
    alloc: Global,
    program: &Resolved,
    frame: Frame,
    memory: &Memory<'_>,
    names: &[Name],
) -> Result<Vec<Value>, Halt>
    ensures ok { IfOk result (λ gained. (l : Log) → Went (first_offered program.now frame names.now) (at memory.now l) gained.items (at memory.now l)) }
    ensures err { (x : Halt) → result ≡ Err x → (l : Log) → Halts (first_offered program.now frame names.now) (at memory.now l) x (at memory.now l) }
{
    let mut one = Vec::new(alloc);
    let [name, ..] = names else {
        return Ok(one);
    };
    let Some(slot) = slot_of(program, frame, &name.text) else {
        return Ok(one);
    };
    let Some(v) = memory.env.get(slot) else {
        return Ok(one);
    };
    one.push(v.copy(alloc)?)?;
    Ok(one)
}

/// An output that a function assigned.
#[tactic(auto, using(pl_meaning::proofs::Cut::cut))]
fn output(
    alloc: Global,
    program: &Resolved,
    frame: Frame,
    memory: &Memory<'_>,
    place: Place,
    name: &Name,
) -> Result<Value, Halt>
    ensures ok { IfOk result (λ gained. (l : Log) → Went (output_part program.now frame place name.now) (at memory.now l) gained (at memory.now l)) }
    ensures err { (x : Halt) → result ≡ Err x → (l : Log) → Halts (output_part program.now frame place name.now) (at memory.now l) x (at memory.now l) }
{
    let Some(slot) = slot_of(program, frame, &name.text) else {
        return Err(fail(alloc, ErrKind::OutputUnset, place));
    };
    match memory.env.get(slot) {
        Some(v) => Ok(v.copy(alloc)?),
        None => Err(fail(alloc, ErrKind::OutputUnset, place)),
    }
}

/// The workspace in which a function begins: the counts of its call, and its arguments in the slots of its parameters.
fn entry_of<'b>(
    alloc: Global,
    program: &Resolved,
    frame: Frame,
    g: &Function,
    given: Vec<Value>,
) -> Result<Env<'b>, Halt>
    ensures ok { IfOk result (λ e. e ≡ entry_part program.now frame g.now given.items) }
    ensures err { IfErr result (λ x. x ≡ Halt.Memory) }
{
    let mut env = empty(alloc, program, frame)?;
    counts(alloc, program, frame, &mut env)?;
    arguments(alloc, program, frame, &mut env, g.params.items(), given)?;
    Ok(env)
}

/// A workspace of a scope, with no values.
fn empty<'b>(alloc: Global, program: &Resolved, frame: Frame) -> Result<Env<'b>, Halt>
    ensures ok { IfOk result (λ e. e ≡ replicate (length (names_in program.now frame.scope)) None) }
    ensures err { IfErr result (λ x. x ≡ Halt.Memory) }
{
    let slots = match program.scopes.items().get(frame.scope) {
        Some(scope) => scope.len(),
        None => 0,
    };
    let Ok(slots) = u32::try_from(slots) else {
        return Err(Halt::Memory);
    };
    Ok(Env::new(alloc, slots)?)
}

/// The counts of a call, in the slots of their names.
fn counts(alloc: Global, program: &Resolved, frame: Frame, env: &mut Env<'_>) -> Result<(), Halt>
    ensures ok { OnOk result (env.new ≡ counted_in program.now frame env.old) }
    ensures err { IfErr result (λ x. x ≡ Halt.Memory) }
{
    count_in(alloc, program, frame, b"nargin", frame.given, env)?;
    count_in(alloc, program, frame, b"nargout", frame.wanted, env)?;
    Ok(())
}

/// A count in the slot of a name, if it has one.
fn count_in(
    alloc: Global,
    program: &Resolved,
    frame: Frame,
    name: &[u8],
    n: usize,
    env: &mut Env<'_>,
) -> Result<(), Halt>
    ensures ok { OnOk result (env.new ≡ count_part program.now frame name.now n env.old) }
    ensures err { IfErr result (λ x. x ≡ Halt.Memory) }
{
    let name = Text::of(alloc, name)?;
    match slot_of(program, frame, &name) {
        None => Ok(()),
        Some(slot) => {
            env.set(slot, count_value(n as u64))?;
            Ok(())
        }
    }
}

/// The arguments in the slots of the parameters.
fn arguments(
    alloc: Global,
    program: &Resolved,
    frame: Frame,
    env: &mut Env<'_>,
    parameters: &[Option<Name>],
    given: Vec<Value>,
) -> Result<(), Halt>
    ensures ok { OnOk result (env.new ≡ bound_part program.now frame env.old parameters.now given.items) }
    ensures err { IfErr result (λ x. x ≡ Halt.Memory) }
{
    let mut left = given.into_iter();
    for parameter in parameters {
        let Some(v) = left.next() else {
            return Ok(());
        };
        bind(alloc, program, frame, env, parameter, v)?;
    }
    Ok(())
}

/// An argument in the slot of its parameter; one without a name is let go.
fn bind(
    alloc: Global,
    program: &Resolved,
    frame: Frame,
    env: &mut Env<'_>,
    parameter: &Option<Name>,
    v: Value,
) -> Result<(), Halt>
    ensures ok { OnOk result (env.new ≡ bound_in program.now frame env.old parameter.now v) }
    ensures err { IfErr result (λ x. x ≡ Halt.Memory) }
{
    let Some(name) = parameter else {
        return Ok(());
    };
    let Some(slot) = slot_of(program, frame, &name.text) else {
        return Ok(());
    };
    env.set(slot, shared(alloc, v))?;
    Ok(())
}
