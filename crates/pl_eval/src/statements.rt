//! Statements, and lists of them.

ghost use Rattle.std.specs.Prelude.{◌≡◌, Some, Result, Ok, Err, IfOk};
ghost use Rattle.pl_meaning.specs.declared.halt.Halt.{Halt};
ghost use Rattle.pl_meaning.specs.Promises.{Went, Halts, Keeps, at};
ghost use Rattle.pl_meaning.specs.Parts.{below, level_at, enter, stmt_in, compound_stmt, block_in, evaluated, deletion as deletion_part, taken_out as taken_out_part, deleted as deleted_part};

use crate::assigning::{assignment, list_assignment};
use crate::branching::{attempt, branches, cases};
use crate::lists::places;
use crate::loops::{count, repeat};
use crate::outputs::outputs;
use crate::running::descend;
use crate::sharing::divide;
use crate::showing::{show_first, show_name};
use pl_access::{check, erase_part, fail};
use pl_base::ErrKind;
use pl_meaning::{Exit, Frame, Halt, Memory, World, slot_of};
use pl_resolve::Resolved;
use pl_syntax::{Expr, Name, Stmt, StmtKind};
use sqlite_items::Items;
use std::alloc::Global;

/// Statements one after another, until one leaves them.
#[cycle(running)]
#[tactic(auto, unfolding(pl_meaning::specs::Parts::block_in))]
pub(crate) fn block<W: World>(
    alloc: Global,
    program: &Resolved,
    levels: u32,
    frame: Frame,
    memory: &mut Memory<'_>,
    world: &mut W,
    statements: &Items<Stmt>,
) -> Result<Exit, Halt>
    ensures ok { IfOk result (λ gained. Went (block_in program.now (below program.now levels) frame statements.now) (at memory.old (W.log world.old)) gained (at memory.new (W.log world.new))) }
    ensures err { (x : Halt) → result ≡ Err x → Halts (block_in program.now (below program.now levels) frame statements.now) (at memory.old (W.log world.old)) x (at memory.new (W.log world.new)) }
    ensures keeps { Keeps (at memory.old (W.log world.old)) (at memory.new (W.log world.new)) }
{
    for s in statements.as_slice() {
        match statement(alloc, program, levels, frame, memory, world, s)? {
            Exit::Onward => {}
            Exit::Broke => return Ok(Exit::Broke),
            Exit::Continued => return Ok(Exit::Continued),
            Exit::Returned => return Ok(Exit::Returned),
        }
    }
    Ok(Exit::Onward)
}

/// A statement.
#[cycle(running)]
#[tactic(auto, unfolding(pl_meaning::specs::Parts::stmt_in))]
fn statement<W: World>(
    alloc: Global,
    program: &Resolved,
    levels: u32,
    frame: Frame,
    memory: &mut Memory<'_>,
    world: &mut W,
    s: &Stmt,
) -> Result<Exit, Halt>
    ensures ok { IfOk result (λ gained. Went (stmt_in program.now (below program.now levels) frame s.now) (at memory.old (W.log world.old)) gained (at memory.new (W.log world.new))) }
    ensures err { (x : Halt) → result ≡ Err x → Halts (stmt_in program.now (below program.now levels) frame s.now) (at memory.old (W.log world.old)) x (at memory.new (W.log world.new)) }
    ensures keeps { Keeps (at memory.old (W.log world.old)) (at memory.new (W.log world.new)) }
{
    match &s.kind {
        StmtKind::Eval(e) => evaluation(alloc, program, levels, frame, memory, world, s.show, e),
        StmtKind::Assign(target, e) => assignment(
            alloc, program, levels, frame, memory, world, s.show, target, e,
        ),
        StmtKind::AssignList(targets, e) => list_assignment(
            alloc,
            program,
            levels,
            frame,
            memory,
            world,
            s.place,
            s.show,
            targets.as_slice(),
            e,
        ),
        StmtKind::Delete(name, list) => deletion(
            alloc,
            program,
            levels,
            frame,
            memory,
            world,
            s.show,
            name,
            list.as_slice(),
        ),
        StmtKind::Break => Ok(Exit::Broke),
        StmtKind::Continue => Ok(Exit::Continued),
        StmtKind::Return => Ok(Exit::Returned),
        StmtKind::If(_, _)
        | StmtKind::While(_, _)
        | StmtKind::For(_, _, _)
        | StmtKind::Switch(_, _, _)
        | StmtKind::Try(_, _)
        | StmtKind::Parfor(_, _, _, _)
        | StmtKind::Spmd(_, _) => nested(alloc, program, levels, frame, memory, world, s),
    }
}

/// A statement that goes down by a level.
#[cycle(running)]
fn nested<W: World>(
    alloc: Global,
    program: &Resolved,
    levels: u32,
    frame: Frame,
    memory: &mut Memory<'_>,
    world: &mut W,
    s: &Stmt,
) -> Result<Exit, Halt>
    ensures ok { IfOk result (λ gained. Went (enter (below program.now levels) s.now.place (λ d. compound_stmt program.now d frame s.now)) (at memory.old (W.log world.old)) gained (at memory.new (W.log world.new))) }
    ensures err { (x : Halt) → result ≡ Err x → Halts (enter (below program.now levels) s.now.place (λ d. compound_stmt program.now d frame s.now)) (at memory.old (W.log world.old)) x (at memory.new (W.log world.new)) }
    ensures keeps { Keeps (at memory.old (W.log world.old)) (at memory.new (W.log world.new)) }
{
    let levels = descend(alloc, program, levels, s.place)?;
    compound(alloc, program, levels, frame, memory, world, s)
}

/// The same, below its level.
#[cycle(running)]
#[tactic(auto, unfolding(pl_meaning::specs::Parts::compound_stmt))]
fn compound<W: World>(
    alloc: Global,
    program: &Resolved,
    levels: u32,
    frame: Frame,
    memory: &mut Memory<'_>,
    world: &mut W,
    s: &Stmt,
) -> Result<Exit, Halt>
    ensures ok { IfOk result (λ gained. Went (compound_stmt program.now (level_at program.now (below program.now levels)) frame s.now) (at memory.old (W.log world.old)) gained (at memory.new (W.log world.new))) }
    ensures err { (x : Halt) → result ≡ Err x → Halts (compound_stmt program.now (level_at program.now (below program.now levels)) frame s.now) (at memory.old (W.log world.old)) x (at memory.new (W.log world.new)) }
    ensures keeps { Keeps (at memory.old (W.log world.old)) (at memory.new (W.log world.new)) }
{
    match &s.kind {
        StmtKind::If(arms, other) => branches(
            alloc,
            program,
            levels,
            frame,
            memory,
            world,
            s.place,
            arms.as_slice(),
            other,
        ),
        StmtKind::While(e, body) => repeat(
            alloc, program, levels, frame, memory, world, s.place, e, body,
        ),
        StmtKind::For(name, e, body) => count(
            alloc, program, levels, frame, memory, world, s.place, name, e, body,
        ),
        StmtKind::Switch(e, arms, other) => cases(
            alloc,
            program,
            levels,
            frame,
            memory,
            world,
            s.place,
            e,
            arms.as_slice(),
            other,
        ),
        StmtKind::Try(body, handler) => attempt(
            alloc, program, levels, frame, memory, world, body, handler,
        ),
        StmtKind::Parfor(index, range, most, body) => divide(
            alloc, program, levels, frame, memory, world, s.place, index, range, most, body,
        ),
        StmtKind::Spmd(_, _)
        | StmtKind::Eval(_)
        | StmtKind::Assign(_, _)
        | StmtKind::AssignList(_, _)
        | StmtKind::Delete(_, _)
        | StmtKind::Break
        | StmtKind::Continue
        | StmtKind::Return => Err(fail(alloc, ErrKind::WrongPlace, s.place)),
    }
}

/// An expression as a statement.
#[cycle(running)]
#[tactic(auto, unfolding(pl_meaning::specs::Parts::evaluated))]
fn evaluation<W: World>(
    alloc: Global,
    program: &Resolved,
    levels: u32,
    frame: Frame,
    memory: &mut Memory<'_>,
    world: &mut W,
    show: bool,
    e: &Expr,
) -> Result<Exit, Halt>
    ensures ok { IfOk result (λ gained. Went (evaluated program.now (below program.now levels) frame show e.now) (at memory.old (W.log world.old)) gained (at memory.new (W.log world.new))) }
    ensures err { (x : Halt) → result ≡ Err x → Halts (evaluated program.now (below program.now levels) frame show e.now) (at memory.old (W.log world.old)) x (at memory.new (W.log world.new)) }
    ensures keeps { Keeps (at memory.old (W.log world.old)) (at memory.new (W.log world.new)) }
{
    let values = outputs(alloc, program, levels, frame, memory, world, 0, e)?;
    show_first(
        alloc,
        program,
        frame,
        memory,
        world,
        show,
        e,
        values.as_slice(),
    )
}

/// A deletion. What is left of the variable is shown as a target is.
#[cycle(running)]
#[tactic(auto, unfolding(pl_meaning::specs::Parts::deletion))]
fn deletion<W: World>(
    alloc: Global,
    program: &Resolved,
    levels: u32,
    frame: Frame,
    memory: &mut Memory<'_>,
    world: &mut W,
    show: bool,
    name: &Name,
    list: &[Expr],
) -> Result<Exit, Halt>
    ensures ok { IfOk result (λ gained. Went (deletion_part program.now (below program.now levels) frame show name.now list.now) (at memory.old (W.log world.old)) gained (at memory.new (W.log world.new))) }
    ensures err { (x : Halt) → result ≡ Err x → Halts (deletion_part program.now (below program.now levels) frame show name.now list.now) (at memory.old (W.log world.old)) x (at memory.new (W.log world.new)) }
    ensures keeps { Keeps (at memory.old (W.log world.old)) (at memory.new (W.log world.new)) }
{
    take_out(alloc, program, levels, frame, memory, world, name, list)?;
    show_name(alloc, program, frame, memory, world, show, name)?;
    Ok(Exit::Onward)
}

/// A part of a variable is taken out of it.
#[cycle(running)]
#[tactic(auto, unfolding(pl_meaning::specs::Parts::taken_out))]
fn take_out<W: World>(
    alloc: Global,
    program: &Resolved,
    levels: u32,
    frame: Frame,
    memory: &mut Memory<'_>,
    world: &mut W,
    name: &Name,
    list: &[Expr],
) -> Result<(), Halt>
    ensures ok { IfOk result (λ gained. Went (taken_out_part program.now (below program.now levels) frame name.now list.now) (at memory.old (W.log world.old)) gained (at memory.new (W.log world.new))) }
    ensures err { (x : Halt) → result ≡ Err x → Halts (taken_out_part program.now (below program.now levels) frame name.now list.now) (at memory.old (W.log world.old)) x (at memory.new (W.log world.new)) }
    ensures keeps { Keeps (at memory.old (W.log world.old)) (at memory.new (W.log world.new)) }
{
    match slot_of(program, frame, &name.text) {
        None => Err(fail(alloc, ErrKind::NoValue, name.place)),
        Some(slot) => delete_at(
            alloc, program, levels, frame, memory, world, name, slot, list,
        ),
    }
}

/// The same, from the variable of a slot.
#[cycle(running)]
fn delete_at<W: World>(
    alloc: Global,
    program: &Resolved,
    levels: u32,
    frame: Frame,
    memory: &mut Memory<'_>,
    world: &mut W,
    name: &Name,
    slot: u32,
    list: &[Expr],
) -> Result<(), Halt>
    ensures ok { IfOk result (λ gained. Went (deleted_part program.now (below program.now levels) frame (Some slot) name.now list.now) (at memory.old (W.log world.old)) gained (at memory.new (W.log world.new))) }
    ensures err { (x : Halt) → result ≡ Err x → Halts (deleted_part program.now (below program.now levels) frame (Some slot) name.now list.now) (at memory.old (W.log world.old)) x (at memory.new (W.log world.new)) }
    ensures keeps { Keeps (at memory.old (W.log world.old)) (at memory.new (W.log world.new)) }
{
    check(alloc, memory, world, slot, name.place)?;
    let list = places(alloc, program, levels, frame, memory, world, slot, list)?;
    erase_part(alloc, memory, world, slot, name.place, list.as_slice())
}
