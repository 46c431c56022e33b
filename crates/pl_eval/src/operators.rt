//! Operators, square brackets, and the word `end`.

ghost use Rattle.std.specs.Prelude.{◌≡◌, Result, Ok, Err, IfOk};
ghost use Rattle.pl_meaning.specs.declared.halt.Halt.{Halt};
ghost use Rattle.pl_meaning.specs.Promises.{Went, Halts, Keeps, at};
ghost use Rattle.pl_meaning.specs.Parts.{below, level_at, value_in, operated, unary as unary_part, binary as binary_part, both as both_part, second as second_part, either as either_part, other as other_part, switch as switch_part, bracket as bracket_part, end_word as end_part};

use crate::doors::{operate_on_one, operate_on_two};
use crate::expressions::value;
use crate::lists::rows;
use crate::naming::count_value;
use pl_access::{decided, fail, read_end, settled};
use pl_base::{ErrKind, Place};
use pl_meaning::{Frame, Halt, Memory, World};
use pl_operators::{logical, rows as rows_of, switch as switch_of};
use pl_resolve::Resolved;
use pl_syntax::{Bin, Expr, Un};
use pl_values::Value;
use sqlite_items::Items;
use std::alloc::Global;

/// An operator of one operand.
#[cycle(running)]
#[tactic(auto, using(pl_meaning::proofs::Cut::cut), unfolding(pl_meaning::specs::Parts::unary))]
pub(crate) fn unary<W: World>(
    alloc: Global,
    program: &Resolved,
    levels: u32,
    frame: Frame,
    memory: &mut Memory<'_>,
    world: &mut W,
    place: Place,
    op: Un,
    a: &Expr,
) -> Result<Value, Halt>
    ensures ok { IfOk result (λ gained. Went (unary_part program.now (value_in program.now (below program.now levels)) frame place op a.now) (at memory.old (W.log world.old)) gained (at memory.new (W.log world.new))) }
    ensures err { (x : Halt) → result ≡ Err x → Halts (unary_part program.now (value_in program.now (below program.now levels)) frame place op a.now) (at memory.old (W.log world.old)) x (at memory.new (W.log world.new)) }
    ensures keeps { Keeps (at memory.old (W.log world.old)) (at memory.new (W.log world.new)) }
{
    let x = value(alloc, program, levels, frame, memory, world, a)?;
    operate_on_one(alloc, program, frame.client, memory, world, place, op, x)
}

/// An operator of two operands.
#[cycle(running)]
pub(crate) fn operation<W: World>(
    alloc: Global,
    program: &Resolved,
    levels: u32,
    frame: Frame,
    memory: &mut Memory<'_>,
    world: &mut W,
    place: Place,
    op: Bin,
    a: &Expr,
    b: &Expr,
) -> Result<Value, Halt>
    ensures ok { IfOk result (λ gained. Went (operated program.now (value_in program.now (below program.now levels)) frame place op a.now b.now) (at memory.old (W.log world.old)) gained (at memory.new (W.log world.new))) }
    ensures err { (x : Halt) → result ≡ Err x → Halts (operated program.now (value_in program.now (below program.now levels)) frame place op a.now b.now) (at memory.old (W.log world.old)) x (at memory.new (W.log world.new)) }
    ensures keeps { Keeps (at memory.old (W.log world.old)) (at memory.new (W.log world.new)) }
{
    match op {
        Bin::AndAlso => both(alloc, program, levels, frame, memory, world, place, a, b),
        Bin::OrElse => either(alloc, program, levels, frame, memory, world, place, a, b),
        _ => binary(
            alloc, program, levels, frame, memory, world, place, op, a, b,
        ),
    }
}

/// An operator that evaluates both operands.
#[cycle(running)]
#[tactic(auto, using(pl_meaning::proofs::Cut::cut), unfolding(pl_meaning::specs::Parts::binary))]
fn binary<W: World>(
    alloc: Global,
    program: &Resolved,
    levels: u32,
    frame: Frame,
    memory: &mut Memory<'_>,
    world: &mut W,
    place: Place,
    op: Bin,
    a: &Expr,
    b: &Expr,
) -> Result<Value, Halt>
    ensures ok { IfOk result (λ gained. Went (binary_part program.now (value_in program.now (below program.now levels)) frame place op a.now b.now) (at memory.old (W.log world.old)) gained (at memory.new (W.log world.new))) }
    ensures err { (x : Halt) → result ≡ Err x → Halts (binary_part program.now (value_in program.now (below program.now levels)) frame place op a.now b.now) (at memory.old (W.log world.old)) x (at memory.new (W.log world.new)) }
    ensures keeps { Keeps (at memory.old (W.log world.old)) (at memory.new (W.log world.new)) }
{
    let x = value(alloc, program, levels, frame, memory, world, a)?;
    let y = value(alloc, program, levels, frame, memory, world, b)?;
    operate_on_two(alloc, program, frame.client, memory, world, place, op, x, y)
}

/// An operand of `&&` or `||`.
#[cycle(running)]
#[tactic(auto, unfolding(pl_meaning::specs::Parts::switch))]
fn switch<W: World>(
    alloc: Global,
    program: &Resolved,
    levels: u32,
    frame: Frame,
    memory: &mut Memory<'_>,
    world: &mut W,
    place: Place,
    a: &Expr,
) -> Result<bool, Halt>
    ensures ok { IfOk result (λ gained. Went (switch_part (value_in program.now (below program.now levels)) frame place a.now) (at memory.old (W.log world.old)) gained (at memory.new (W.log world.new))) }
    ensures err { (x : Halt) → result ≡ Err x → Halts (switch_part (value_in program.now (below program.now levels)) frame place a.now) (at memory.old (W.log world.old)) x (at memory.new (W.log world.new)) }
    ensures keeps { Keeps (at memory.old (W.log world.old)) (at memory.new (W.log world.new)) }
{
    let x = value(alloc, program, levels, frame, memory, world, a)?;
    decided!(alloc, place, switch_of(&x))
}

/// `&&`: the right operand only where the left one holds.
#[cycle(running)]
#[tactic(auto, unfolding(pl_meaning::specs::Parts::both))]
fn both<W: World>(
    alloc: Global,
    program: &Resolved,
    levels: u32,
    frame: Frame,
    memory: &mut Memory<'_>,
    world: &mut W,
    place: Place,
    a: &Expr,
    b: &Expr,
) -> Result<Value, Halt>
    ensures ok { IfOk result (λ gained. Went (both_part (value_in program.now (below program.now levels)) frame place a.now b.now) (at memory.old (W.log world.old)) gained (at memory.new (W.log world.new))) }
    ensures err { (x : Halt) → result ≡ Err x → Halts (both_part (value_in program.now (below program.now levels)) frame place a.now b.now) (at memory.old (W.log world.old)) x (at memory.new (W.log world.new)) }
    ensures keeps { Keeps (at memory.old (W.log world.old)) (at memory.new (W.log world.new)) }
{
    let left = switch(alloc, program, levels, frame, memory, world, place, a)?;
    second(alloc, program, levels, frame, memory, world, place, b, left)
}

/// The right operand of `&&`.
#[cycle(running)]
fn second<W: World>(
    alloc: Global,
    program: &Resolved,
    levels: u32,
    frame: Frame,
    memory: &mut Memory<'_>,
    world: &mut W,
    place: Place,
    b: &Expr,
    left: bool,
) -> Result<Value, Halt>
    ensures ok { IfOk result (λ gained. Went (second_part (value_in program.now (below program.now levels)) frame place b.now left) (at memory.old (W.log world.old)) gained (at memory.new (W.log world.new))) }
    ensures err { (x : Halt) → result ≡ Err x → Halts (second_part (value_in program.now (below program.now levels)) frame place b.now left) (at memory.old (W.log world.old)) x (at memory.new (W.log world.new)) }
    ensures keeps { Keeps (at memory.old (W.log world.old)) (at memory.new (W.log world.new)) }
{
    match left {
        false => Ok(logical(false)),
        true => {
            let right = switch(alloc, program, levels, frame, memory, world, place, b)?;
            Ok(logical(right))
        }
    }
}

/// `||`: the right operand only where the left one doesn't hold.
#[cycle(running)]
#[tactic(auto, unfolding(pl_meaning::specs::Parts::either))]
fn either<W: World>(
    alloc: Global,
    program: &Resolved,
    levels: u32,
    frame: Frame,
    memory: &mut Memory<'_>,
    world: &mut W,
    place: Place,
    a: &Expr,
    b: &Expr,
) -> Result<Value, Halt>
    ensures ok { IfOk result (λ gained. Went (either_part (value_in program.now (below program.now levels)) frame place a.now b.now) (at memory.old (W.log world.old)) gained (at memory.new (W.log world.new))) }
    ensures err { (x : Halt) → result ≡ Err x → Halts (either_part (value_in program.now (below program.now levels)) frame place a.now b.now) (at memory.old (W.log world.old)) x (at memory.new (W.log world.new)) }
    ensures keeps { Keeps (at memory.old (W.log world.old)) (at memory.new (W.log world.new)) }
{
    let left = switch(alloc, program, levels, frame, memory, world, place, a)?;
    other(alloc, program, levels, frame, memory, world, place, b, left)
}

/// The right operand of `||`.
#[cycle(running)]
fn other<W: World>(
    alloc: Global,
    program: &Resolved,
    levels: u32,
    frame: Frame,
    memory: &mut Memory<'_>,
    world: &mut W,
    place: Place,
    b: &Expr,
    left: bool,
) -> Result<Value, Halt>
    ensures ok { IfOk result (λ gained. Went (other_part (value_in program.now (below program.now levels)) frame place b.now left) (at memory.old (W.log world.old)) gained (at memory.new (W.log world.new))) }
    ensures err { (x : Halt) → result ≡ Err x → Halts (other_part (value_in program.now (below program.now levels)) frame place b.now left) (at memory.old (W.log world.old)) x (at memory.new (W.log world.new)) }
    ensures keeps { Keeps (at memory.old (W.log world.old)) (at memory.new (W.log world.new)) }
{
    match left {
        true => Ok(logical(true)),
        false => {
            let right = switch(alloc, program, levels, frame, memory, world, place, b)?;
            Ok(logical(right))
        }
    }
}

/// Square brackets.
#[cycle(running)]
#[tactic(auto, using(pl_meaning::proofs::Cut::cut), unfolding(pl_meaning::specs::Parts::bracket))]
pub(crate) fn bracket<W: World>(
    alloc: Global,
    program: &Resolved,
    levels: u32,
    frame: Frame,
    memory: &mut Memory<'_>,
    world: &mut W,
    place: Place,
    lists: &Items<Items<Expr>>,
) -> Result<Value, Halt>
    ensures ok { IfOk result (λ gained. Went (bracket_part (value_in program.now (below program.now levels)) frame place lists.now) (at memory.old (W.log world.old)) gained (at memory.new (W.log world.new))) }
    ensures err { (x : Halt) → result ≡ Err x → Halts (bracket_part (value_in program.now (below program.now levels)) frame place lists.now) (at memory.old (W.log world.old)) x (at memory.new (W.log world.new)) }
    ensures keeps { Keeps (at memory.old (W.log world.old)) (at memory.new (W.log world.new)) }
{
    let all = rows(
        alloc,
        program,
        levels,
        frame,
        memory,
        world,
        lists.as_slice(),
    )?;
    settled!(alloc, place, rows_of(alloc, all.as_slice()))
}

/// The word `end`.
pub(crate) fn end_word<W: World>(
    alloc: Global,
    frame: Frame,
    memory: &Memory<'_>,
    world: &W,
    place: Place,
) -> Result<Value, Halt>
    ensures ok { IfOk result (λ gained. Went (end_part frame.ends place) (at memory.now (W.log world.now)) gained (at memory.now (W.log world.now))) }
    ensures err { (x : Halt) → result ≡ Err x → Halts (end_part frame.ends place) (at memory.now (W.log world.now)) x (at memory.now (W.log world.now)) }
{
    match frame.ends {
        None => Err(fail(alloc, ErrKind::BadIndex, place)),
        Some(ends) => {
            let extent = read_end(alloc, memory, world, ends, place)?;
            Ok(count_value(extent))
        }
    }
}
