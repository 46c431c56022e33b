//! Loops over workers: the ends of the range, the checks, the question to the world, and its answer.

ghost use Rattle.std.specs.Prelude.{◌≡◌, Result, Ok, Err, IfOk, Some, None, [], ◌∷◌};
ghost use Rattle.std.specs.Option.{option_copied};
ghost use Rattle.pl_syntax.specs.declared.expr.Name.{Name as Written};
ghost use Rattle.pl_meaning.specs.declared.halt.Halt.{Halt};
ghost use Rattle.pl_meaning.specs.Promises.{Went, Halts, Keeps, at};
ghost use Rattle.pl_meaning.specs.Parts.{below, level_at, value_in, ends_in, divided, shared, laid as laid_part, all_laid, written_in, answered, taken};
ghost use Rattle.pl_eval.specs.Pieces.{range_ends as range_ends_part, inner_ends as inner_ends_part, both_ends as both_ends_part, written_part};

use crate::expressions::value;
use crate::running::descend;
use pl_access::{array_at, ask, bounds_at, fail, take_turn, tell, write};
use pl_base::{ErrKind, Place};
use pl_meaning::{
    Answer, Event, Exit, Frame, Halt, Loop, Memory, Output, Question, World, slot_of,
};
use pl_resolve::Resolved;
use pl_syntax::{Expr, ExprKind, Name, Stmt, StmtKind, Target};
use pl_values::Value;
use sqlite_items::{Boxed, Items};
use std::alloc::Global;

/// The two ends of the range of a loop over workers.
#[cycle(running)]
#[tactic(auto, unfolding(pl_meaning::specs::Parts::ends_in))]
fn ends<W: World>(
    alloc: Global,
    program: &Resolved,
    levels: u32,
    frame: Frame,
    memory: &mut Memory<'_>,
    world: &mut W,
    e: &Expr,
) -> Result<(Value, Value), Halt>
    ensures ok { IfOk result (λ gained. Went (ends_in program.now (below program.now levels) frame e.now) (at memory.old (W.log world.old)) gained (at memory.new (W.log world.new))) }
    ensures err { (x : Halt) → result ≡ Err x → Halts (ends_in program.now (below program.now levels) frame e.now) (at memory.old (W.log world.old)) x (at memory.new (W.log world.new)) }
    ensures keeps { Keeps (at memory.old (W.log world.old)) (at memory.new (W.log world.new)) }
{
    match &e.kind {
        ExprKind::Range(first, step, last) => range_ends(
            alloc,
            program,
            levels,
            frame,
            memory,
            world,
            e.place,
            first.get(),
            step,
            last.get(),
        ),
        ExprKind::Number(_) => Err(fail(alloc, ErrKind::WrongPlace, e.place)),
        ExprKind::Chars(_) => Err(fail(alloc, ErrKind::WrongPlace, e.place)),
        ExprKind::Var(_) => Err(fail(alloc, ErrKind::WrongPlace, e.place)),
        ExprKind::Apply(_, _) => Err(fail(alloc, ErrKind::WrongPlace, e.place)),
        ExprKind::Brace(_, _, _) => Err(fail(alloc, ErrKind::WrongPlace, e.place)),
        ExprKind::Unary(_, _) => Err(fail(alloc, ErrKind::WrongPlace, e.place)),
        ExprKind::Binary(_, _, _) => Err(fail(alloc, ErrKind::WrongPlace, e.place)),
        ExprKind::Rows(_) => Err(fail(alloc, ErrKind::WrongPlace, e.place)),
        ExprKind::Func(_) => Err(fail(alloc, ErrKind::WrongPlace, e.place)),
        ExprKind::End => Err(fail(alloc, ErrKind::WrongPlace, e.place)),
        ExprKind::Colon => Err(fail(alloc, ErrKind::WrongPlace, e.place)),
        ExprKind::StateOf(_) => Err(fail(alloc, ErrKind::WrongPlace, e.place)),
    }
}

/// The two ends of a range; one with a step is not built yet.
#[cycle(running)]
fn range_ends<W: World>(
    alloc: Global,
    program: &Resolved,
    levels: u32,
    frame: Frame,
    memory: &mut Memory<'_>,
    world: &mut W,
    place: Place,
    first: &Expr,
    step: &Option<Boxed<Expr>>,
    last: &Expr,
) -> Result<(Value, Value), Halt>
    ensures ok { IfOk result (λ gained. Went (range_ends_part (below program.now levels) frame place first.now step.now last.now) (at memory.old (W.log world.old)) gained (at memory.new (W.log world.new))) }
    ensures err { (x : Halt) → result ≡ Err x → Halts (range_ends_part (below program.now levels) frame place first.now step.now last.now) (at memory.old (W.log world.old)) x (at memory.new (W.log world.new)) }
    ensures keeps { Keeps (at memory.old (W.log world.old)) (at memory.new (W.log world.new)) }
{
    match step {
        Some(_) => Err(fail(alloc, ErrKind::WrongPlace, place)),
        None => inner_ends(
            alloc, program, levels, frame, memory, world, place, first, last,
        ),
    }
}

/// The two ends of a range without a step, which goes down by a level.
#[cycle(running)]
fn inner_ends<W: World>(
    alloc: Global,
    program: &Resolved,
    levels: u32,
    frame: Frame,
    memory: &mut Memory<'_>,
    world: &mut W,
    place: Place,
    first: &Expr,
    last: &Expr,
) -> Result<(Value, Value), Halt>
    ensures ok { IfOk result (λ gained. Went (inner_ends_part (below program.now levels) frame place first.now last.now) (at memory.old (W.log world.old)) gained (at memory.new (W.log world.new))) }
    ensures err { (x : Halt) → result ≡ Err x → Halts (inner_ends_part (below program.now levels) frame place first.now last.now) (at memory.old (W.log world.old)) x (at memory.new (W.log world.new)) }
    ensures keeps { Keeps (at memory.old (W.log world.old)) (at memory.new (W.log world.new)) }
{
    let levels = descend(alloc, program, levels, place)?;
    both_ends(alloc, program, levels, frame, memory, world, first, last)
}

/// The same, below its level: the left end first.
#[cycle(running)]
fn both_ends<W: World>(
    alloc: Global,
    program: &Resolved,
    levels: u32,
    frame: Frame,
    memory: &mut Memory<'_>,
    world: &mut W,
    first: &Expr,
    last: &Expr,
) -> Result<(Value, Value), Halt>
    ensures ok { IfOk result (λ gained. Went (both_ends_part (value_in program.now (below program.now levels)) frame first.now last.now) (at memory.old (W.log world.old)) gained (at memory.new (W.log world.new))) }
    ensures err { (x : Halt) → result ≡ Err x → Halts (both_ends_part (value_in program.now (below program.now levels)) frame first.now last.now) (at memory.old (W.log world.old)) x (at memory.new (W.log world.new)) }
    ensures keeps { Keeps (at memory.old (W.log world.old)) (at memory.new (W.log world.new)) }
{
    let first = value(alloc, program, levels, frame, memory, world, first)?;
    let last = value(alloc, program, levels, frame, memory, world, last)?;
    Ok((first, last))
}

/// A loop over workers.
#[cycle(running)]
pub(crate) fn divide<W: World>(
    alloc: Global,
    program: &Resolved,
    levels: u32,
    frame: Frame,
    memory: &mut Memory<'_>,
    world: &mut W,
    place: Place,
    index: &Name,
    range: &Expr,
    most: &Option<Expr>,
    body: &Items<Stmt>,
) -> Result<Exit, Halt>
    ensures ok { IfOk result (λ gained. Went (divided program.now (level_at program.now (below program.now levels)) frame place index.now range.now most.now body.now) (at memory.old (W.log world.old)) gained (at memory.new (W.log world.new))) }
    ensures err { (x : Halt) → result ≡ Err x → Halts (divided program.now (level_at program.now (below program.now levels)) frame place index.now range.now most.now body.now) (at memory.old (W.log world.old)) x (at memory.new (W.log world.new)) }
    ensures keeps { Keeps (at memory.old (W.log world.old)) (at memory.new (W.log world.new)) }
{
    match most {
        Some(_) => Err(fail(alloc, ErrKind::WrongPlace, place)),
        None => {
            let (first, last) = ends(alloc, program, levels, frame, memory, world, range)?;
            share(
                alloc, program, frame, memory, world, place, index, body, &first, &last,
            )
        }
    }
}

/// A loop between two values: the checks, a turn, the question, its answer.
#[tactic(auto, unfolding(pl_meaning::specs::Parts::shared))]
fn share<W: World>(
    alloc: Global,
    program: &Resolved,
    frame: Frame,
    memory: &mut Memory<'_>,
    world: &mut W,
    place: Place,
    index: &Name,
    body: &Items<Stmt>,
    first: &Value,
    last: &Value,
) -> Result<Exit, Halt>
    ensures ok { IfOk result (λ gained. Went (shared program.now frame place index.now body.now first.now last.now) (at memory.old (W.log world.old)) gained (at memory.new (W.log world.new))) }
    ensures err { (x : Halt) → result ≡ Err x → Halts (shared program.now frame place index.now body.now first.now last.now) (at memory.old (W.log world.old)) x (at memory.new (W.log world.new)) }
    ensures keeps { Keeps (at memory.old (W.log world.old)) (at memory.new (W.log world.new)) }
{
    let bounds = bounds_at(alloc, place, first, last)?;
    lay_all(alloc, program, frame, memory, world, place, body)?;
    take_turn(alloc, memory, world, place)?;
    let question = Question::Loop(Loop {
        scope: frame.scope,
        place,
        index,
        body,
        first: bounds.first,
        count: bounds.count,
    });
    let answer = ask(memory, world, question)?;
    take_answer(alloc, memory, world, place, answer)
}

/// Each variable that the body writes has an array, or no value.
fn lay_all<W: World>(
    alloc: Global,
    program: &Resolved,
    frame: Frame,
    memory: &Memory<'_>,
    world: &W,
    place: Place,
    body: &Items<Stmt>,
) -> Result<(), Halt>
    ensures ok { IfOk result (λ gained. Went (all_laid program.now frame place (written_in body.now)) (at memory.now (W.log world.now)) gained (at memory.now (W.log world.now))) }
    ensures err { (x : Halt) → result ≡ Err x → Halts (all_laid program.now frame place (written_in body.now)) (at memory.now (W.log world.now)) x (at memory.now (W.log world.now)) }
{
    for s in body.as_slice() {
        if let Some(name) = written_by(s) {
            let slot = slot_of(program, frame, &name.text);
            lay(alloc, memory, world, place, slot)?;
        }
    }
    Ok(())
}

/// The variable of which a statement writes a part.
fn written_by(s: &Stmt) -> Option<&Name>
    ensures some { (n : Written) → option_copied result ≡ Some n → written_part s.now ≡ n ∷ [] }
    ensures none { option_copied result ≡ None → written_part s.now ≡ [] }
{
    match &s.kind {
        StmtKind::Assign(Target::Indexed(name, _), _) => Some(name),
        _ => None,
    }
}

/// A variable has an array, or no value.
fn lay<W: World>(
    alloc: Global,
    memory: &Memory<'_>,
    _world: &W,
    place: Place,
    slot: Option<u32>,
) -> Result<(), Halt>
    ensures ok { IfOk result (λ gained. Went (laid_part place slot) (at memory.now (W.log _world.now)) gained (at memory.now (W.log _world.now))) }
    ensures err { (x : Halt) → result ≡ Err x → Halts (laid_part place slot) (at memory.now (W.log _world.now)) x (at memory.now (W.log _world.now)) }
{
    let Some(slot) = slot else {
        return Ok(());
    };
    let Some(v) = memory.env.get(slot) else {
        return Ok(());
    };
    array_at(alloc, place, v)?;
    Ok(())
}

/// What the answer to a loop does: its text is printed, and its variables get their values; or it is an error.
fn take_answer<W: World>(
    alloc: Global,
    memory: &mut Memory<'_>,
    world: &mut W,
    place: Place,
    answer: Answer,
) -> Result<Exit, Halt>
    ensures ok { IfOk result (λ gained. Went (answered place answer) (at memory.old (W.log world.old)) gained (at memory.new (W.log world.new))) }
    ensures err { (x : Halt) → result ≡ Err x → Halts (answered place answer) (at memory.old (W.log world.old)) x (at memory.new (W.log world.new)) }
    ensures keeps { Keeps (at memory.old (W.log world.old)) (at memory.new (W.log world.new)) }
{
    match answer {
        Answer::Raised(error) => Err(Halt::Raise(error)),
        Answer::Extra(_, _, _) => Err(fail(alloc, ErrKind::WrongPlace, place)),
        Answer::Looped(looped) => {
            tell(memory, world, Event::Print(looped.text))?;
            take_outputs(alloc, memory, world, looped.outputs.into_vec())?;
            Ok(Exit::Onward)
        }
    }
}

/// The variables of a loop that is done get their values.
fn take_outputs<W: World>(
    alloc: Global,
    memory: &mut Memory<'_>,
    world: &W,
    outputs: Vec<Output>,
) -> Result<(), Halt>
    ensures ok { IfOk result (λ gained. Went (taken outputs.items) (at memory.old (W.log world.now)) gained (at memory.new (W.log world.now))) }
    ensures err { (x : Halt) → result ≡ Err x → Halts (taken outputs.items) (at memory.old (W.log world.now)) x (at memory.new (W.log world.now)) }
{
    for output in outputs {
        write(alloc, memory, world, output.slot, output.value)?;
    }
    Ok(())
}
