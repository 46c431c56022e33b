//! Statements that choose: `if`, `switch`, `try`.

ghost use Rattle.std.specs.Prelude.{◌≡◌, Result, Ok, Err, IfOk};
ghost use Rattle.pl_meaning.specs.declared.halt.Halt.{Halt};
ghost use Rattle.pl_meaning.specs.Promises.{Went, Halts, Keeps, at};
ghost use Rattle.pl_meaning.specs.Running.{attempt as attempt_part, recover as recover_part, is_fatal as fatal};
ghost use Rattle.pl_meaning.specs.Parts.{below, level_at, value_in, block_in, tested, branches as branches_part, fitted, cases as cases_part, cases_from};

use crate::expressions::value;
use crate::statements::block;
use pl_access::{array_at, decided, fail};
use pl_base::{ErrKind, Place, ScriptError};
use pl_meaning::{Exit, Frame, Halt, Memory, World};
use pl_operators::{case_fits, condition};
use pl_resolve::Resolved;
use pl_syntax::{Arm, Expr, Stmt};
use pl_values::Value;
use sqlite_items::Items;
use std::alloc::Global;

/// Whether a test holds.
#[cycle(running)]
#[tactic(auto, unfolding(pl_meaning::specs::Parts::tested))]
pub(crate) fn test<W: World>(
    alloc: Global,
    program: &Resolved,
    levels: u32,
    frame: Frame,
    memory: &mut Memory<'_>,
    world: &mut W,
    place: Place,
    e: &Expr,
) -> Result<bool, Halt>
    ensures ok { IfOk result (λ gained. Went (tested program.now (value_in program.now (below program.now levels)) frame place e.now) (at memory.old (W.log world.old)) gained (at memory.new (W.log world.new))) }
    ensures err { (x : Halt) → result ≡ Err x → Halts (tested program.now (value_in program.now (below program.now levels)) frame place e.now) (at memory.old (W.log world.old)) x (at memory.new (W.log world.new)) }
    ensures keeps { Keeps (at memory.old (W.log world.old)) (at memory.new (W.log world.new)) }
{
    let v = value(alloc, program, levels, frame, memory, world, e)?;
    decided!(alloc, place, condition(&v))
}

/// The first arm whose test holds, else the other statements.
#[cycle(running)]
#[tactic(auto, unfolding(pl_meaning::specs::Parts::branches))]
pub(crate) fn branches<W: World>(
    alloc: Global,
    program: &Resolved,
    levels: u32,
    frame: Frame,
    memory: &mut Memory<'_>,
    world: &mut W,
    place: Place,
    arms: &[Arm],
    other: &Items<Stmt>,
) -> Result<Exit, Halt>
    ensures ok { IfOk result (λ gained. Went (branches_part program.now (level_at program.now (below program.now levels)) frame place arms.now other.now) (at memory.old (W.log world.old)) gained (at memory.new (W.log world.new))) }
    ensures err { (x : Halt) → result ≡ Err x → Halts (branches_part program.now (level_at program.now (below program.now levels)) frame place arms.now other.now) (at memory.old (W.log world.old)) x (at memory.new (W.log world.new)) }
    ensures keeps { Keeps (at memory.old (W.log world.old)) (at memory.new (W.log world.new)) }
{
    for arm in arms {
        if test(
            alloc, program, levels, frame, memory, world, place, &arm.test,
        )? {
            return block(alloc, program, levels, frame, memory, world, &arm.body);
        }
    }
    block(alloc, program, levels, frame, memory, world, other)
}

/// Whether a case fits a value.
#[cycle(running)]
#[tactic(auto, unfolding(pl_meaning::specs::Parts::fitted))]
fn fits<W: World>(
    alloc: Global,
    program: &Resolved,
    levels: u32,
    frame: Frame,
    memory: &mut Memory<'_>,
    world: &mut W,
    place: Place,
    v: &Value,
    e: &Expr,
) -> Result<bool, Halt>
    ensures ok { IfOk result (λ gained. Went (fitted program.now (value_in program.now (below program.now levels)) frame place v.now e.now) (at memory.old (W.log world.old)) gained (at memory.new (W.log world.new))) }
    ensures err { (x : Halt) → result ≡ Err x → Halts (fitted program.now (value_in program.now (below program.now levels)) frame place v.now e.now) (at memory.old (W.log world.old)) x (at memory.new (W.log world.new)) }
    ensures keeps { Keeps (at memory.old (W.log world.old)) (at memory.new (W.log world.new)) }
{
    let w = value(alloc, program, levels, frame, memory, world, e)?;
    decided!(alloc, place, case_fits(v, &w))
}

/// A `switch`.
#[cycle(running)]
#[tactic(auto, unfolding(pl_meaning::specs::Parts::cases))]
pub(crate) fn cases<W: World>(
    alloc: Global,
    program: &Resolved,
    levels: u32,
    frame: Frame,
    memory: &mut Memory<'_>,
    world: &mut W,
    place: Place,
    e: &Expr,
    arms: &[Arm],
    other: &Items<Stmt>,
) -> Result<Exit, Halt>
    ensures ok { IfOk result (λ gained. Went (cases_part program.now (level_at program.now (below program.now levels)) frame place e.now arms.now other.now) (at memory.old (W.log world.old)) gained (at memory.new (W.log world.new))) }
    ensures err { (x : Halt) → result ≡ Err x → Halts (cases_part program.now (level_at program.now (below program.now levels)) frame place e.now arms.now other.now) (at memory.old (W.log world.old)) x (at memory.new (W.log world.new)) }
    ensures keeps { Keeps (at memory.old (W.log world.old)) (at memory.new (W.log world.new)) }
{
    let v = value(alloc, program, levels, frame, memory, world, e)?;
    array_at(alloc, place, &v)?;
    choose(
        alloc, program, levels, frame, memory, world, place, &v, arms, other,
    )
}

/// The first case that fits the value, else the other statements.
#[cycle(running)]
fn choose<W: World>(
    alloc: Global,
    program: &Resolved,
    levels: u32,
    frame: Frame,
    memory: &mut Memory<'_>,
    world: &mut W,
    place: Place,
    v: &Value,
    arms: &[Arm],
    other: &Items<Stmt>,
) -> Result<Exit, Halt>
    ensures ok { IfOk result (λ gained. Went (cases_from program.now (level_at program.now (below program.now levels)) frame place other.now v.now arms.now) (at memory.old (W.log world.old)) gained (at memory.new (W.log world.new))) }
    ensures err { (x : Halt) → result ≡ Err x → Halts (cases_from program.now (level_at program.now (below program.now levels)) frame place other.now v.now arms.now) (at memory.old (W.log world.old)) x (at memory.new (W.log world.new)) }
    ensures keeps { Keeps (at memory.old (W.log world.old)) (at memory.new (W.log world.new)) }
{
    for arm in arms {
        if fits(
            alloc, program, levels, frame, memory, world, place, v, &arm.test,
        )? {
            return block(alloc, program, levels, frame, memory, world, &arm.body);
        }
    }
    block(alloc, program, levels, frame, memory, world, other)
}

/// A `try`.
#[cycle(running)]
#[tactic(auto, using(pl_meaning::proofs::Cut::cut))]
pub(crate) fn attempt<W: World>(
    alloc: Global,
    program: &Resolved,
    levels: u32,
    frame: Frame,
    memory: &mut Memory<'_>,
    world: &mut W,
    body: &Items<Stmt>,
    handler: &Items<Stmt>,
) -> Result<Exit, Halt>
    ensures ok { IfOk result (λ gained. Went (attempt_part (block_in program.now (below program.now levels) frame body.now) (block_in program.now (below program.now levels) frame handler.now)) (at memory.old (W.log world.old)) gained (at memory.new (W.log world.new))) }
    ensures err { (x : Halt) → result ≡ Err x → Halts (attempt_part (block_in program.now (below program.now levels) frame body.now) (block_in program.now (below program.now levels) frame handler.now)) (at memory.old (W.log world.old)) x (at memory.new (W.log world.new)) }
    ensures keeps { Keeps (at memory.old (W.log world.old)) (at memory.new (W.log world.new)) }
{
    match block(alloc, program, levels, frame, memory, world, body) {
        Ok(exit) => Ok(exit),
        Err(Halt::Memory) => Err(Halt::Memory),
        Err(Halt::Stopped) => Err(Halt::Stopped),
        Err(Halt::Raise(error)) => recover(
            alloc, program, levels, frame, memory, world, error, handler,
        ),
    }
}

/// What comes behind an error inside a `try`.
#[cycle(running)]
fn recover<W: World>(
    alloc: Global,
    program: &Resolved,
    levels: u32,
    frame: Frame,
    memory: &mut Memory<'_>,
    world: &mut W,
    error: ScriptError,
    handler: &Items<Stmt>,
) -> Result<Exit, Halt>
    ensures ok { IfOk result (λ gained. Went (recover_part error (block_in program.now (below program.now levels) frame handler.now)) (at memory.old (W.log world.old)) gained (at memory.new (W.log world.new))) }
    ensures err { (x : Halt) → result ≡ Err x → Halts (recover_part error (block_in program.now (below program.now levels) frame handler.now)) (at memory.old (W.log world.old)) x (at memory.new (W.log world.new)) }
    ensures keeps { Keeps (at memory.old (W.log world.old)) (at memory.new (W.log world.new)) }
{
    match is_fatal(error.kind) {
        true => Err(Halt::Raise(error)),
        false => block(alloc, program, levels, frame, memory, world, handler),
    }
}

/// Whether no `try` catches an error.
fn is_fatal(kind: ErrKind) -> bool
    ensures { result ≡ fatal kind }
{
    matches!(kind, ErrKind::Spent | ErrKind::TooDeep)
}
