//! Operators, quotes and colons behind an operand.

ghost use Rattle.std.specs.Prelude.{◌≡◌, Some, Ok, IfOk};
ghost use Rattle.pl_steps.specs.Steps as spec;

use pl_base::{NoMemory, Place};
use pl_frames::{
    Additive, Frame, Held, Mark, Op, Operand, Pile, Stack, State, has_base_room, has_room, in_row,
    level, plain, plus, reduce, tree,
};
use pl_steps::{Step, laid, refused, roomy};
use pl_syntax::{Bin, Expr, ExprKind, Un};
use sqlite_items::Boxed;
use std::alloc::Global;

/// An operator of two operands behind its left one.
#[tactic(auto, unfolding(pl_steps::specs::Steps::join))]
pub fn join(alloc: Global, op: Bin, mark: Mark, held: Held) -> Step
    ensures { spec.Gives result (spec.join op mark held) }
{
    let Held { operand, stack } = held;
    let fits = has_room(plus(1, operand.height), &stack);
    let op = Op::Joined(operand, op, mark.place, Pile::new(alloc));
    let stack = laid(Frame::Op(op), stack)?;
    roomy(fits, State::Operand(stack))
}

/// `+` or `-` in a row behind white space may belong to what comes.
fn tear(operand: Operand, additive: Additive, mark: Mark, stack: Stack) -> Step
    ensures { spec.Gives result (spec.tear operand additive mark stack) }
{
    let fits = has_base_room(&stack);
    roomy(fits, State::Torn(operand, additive, mark, stack))
}

/// The sign of two operands that may also stand before one.
fn additive_of(op: Bin) -> Option<Additive>
    ensures { result ≡ spec.additive_of op }
{
    match op {
        Bin::Add => Some(Additive::Plus),
        Bin::Sub => Some(Additive::Minus),
        _ => None,
    }
}

/// `+` or `-` behind an operand.
fn sign_or_join(
    alloc: Global,
    additive: Additive,
    op: Bin,
    mark: Mark,
    operand: Operand,
    stack: Stack,
) -> Step
    ensures { spec.Gives result (spec.operator_by (Some additive) op mark operand stack) }
{
    if in_row(&stack) && mark.gap {
        tear(operand, additive, mark, stack)
    } else {
        join(alloc, op, mark, reduce(alloc, level(op), operand, stack)?)
    }
}

/// An operator of two operands.
#[tactic(auto, unfolding(pl_steps::specs::Steps::operator))]
pub fn operator(alloc: Global, op: Bin, mark: Mark, operand: Operand, stack: Stack) -> Step
    ensures { spec.Gives result (spec.operator op mark operand stack) }
{
    match additive_of(op) {
        Some(sign) => sign_or_join(alloc, sign, op, mark, operand, stack),
        None => join(alloc, op, mark, reduce(alloc, level(op), operand, stack)?),
    }
}

/// An operand and the quote behind it.
fn transposed(alloc: Global, mark: Mark, operand: Operand) -> Result<Operand, NoMemory>
    ensures { IfOk result (λ e. e ≡ spec.transposed mark operand) }
{
    let height = plus(1, operand.height);
    let (own, place) = (operand.mark, mark.place);
    let tree = tree(alloc, operand)?;
    let kind = ExprKind::Unary(Un::Transpose, Boxed::new(alloc, tree)?);
    Ok(plain(Expr { kind, place }, own, height))
}

/// A quote behind an operand.
#[tactic(auto, unfolding(pl_steps::specs::Steps::transpose))]
pub fn transpose(alloc: Global, mark: Mark, held: Held) -> Step
    ensures { spec.Gives result (spec.transpose mark held) }
{
    let Held { operand, stack } = held;
    let fits = has_room(plus(1, operand.height), &stack);
    let operand = transposed(alloc, mark, operand)?;
    roomy(fits, State::After(operand, stack))
}

/// The first colon of a range.
fn from(mark: Mark, operand: Operand, stack: Stack) -> Step
    ensures { spec.Gives result (spec.range_from mark operand stack) }
{
    let fits = has_room(plus(1, operand.height), &stack);
    let stack = laid(Frame::Op(Op::From(operand, mark.place)), stack)?;
    roomy(fits, State::Operand(stack))
}

/// The first colon of a range, with a frame below it.
fn from_on(mark: Mark, operand: Operand, frame: Frame, stack: Stack) -> Step
    ensures { spec.Gives result (spec.range_from mark operand (spec.laid frame stack)) }
{
    let stack = laid(frame, stack)?;
    from(mark, operand, stack)
}

/// The second colon of a range.
fn stepped(start: Operand, place: Place, operand: Operand, stack: Stack) -> Step
    ensures { spec.Gives result (Ok (State.Operand (spec.laid (Frame.Op (Op.Stepped start place operand)) stack))) }
{
    let stack = laid(Frame::Op(Op::Stepped(start, place, operand)), stack)?;
    Ok(State::Operand(stack))
}

/// A colon behind an operator and its operand: the second colon of a range.
fn range_op(mark: Mark, operand: Operand, op: Op, stack: Stack) -> Step
    ensures { spec.Gives result (spec.range_op mark operand op stack) }
{
    match op {
        Op::From(start, place) => stepped(start, place, operand, stack),
        Op::Stepped(start, place, step) => refused(Op::Stepped(start, place, step)),
        op => from_on(mark, operand, Frame::Op(op), stack),
    }
}

/// A colon: the first or the second of a range.
#[tactic(auto, unfolding(pl_steps::specs::Steps::range))]
pub fn range(mark: Mark, held: Held) -> Step
    ensures { spec.Gives result (spec.range mark held) }
{
    let Held { operand, stack } = held;
    let Stack { frames, bottom } = stack;
    let mut frames = frames;
    match frames.pop() {
        Some(Frame::Op(op)) => range_op(mark, operand, op, Stack { frames, bottom }),
        Some(frame) => from_on(mark, operand, frame, Stack { frames, bottom }),
        None => from(mark, operand, Stack { frames, bottom }),
    }
}
