//! Operators that are done: those on top that hold at least so strongly take the operand.

ghost use Rattle.std.specs.Prelude.{◌≡◌, ◌∷◌, true, false, nat_le, IfOk, MatchOption};
ghost use Rattle.pl_grammar.specs.Words as words;
ghost use Rattle.pl_frames.specs.Reduce as spec;

use crate::operand::{Op, Operand};
use crate::pile::Pile;
use crate::stack::{Frame, Stack};
use crate::trees::under;
use pl_base::NoMemory;
use pl_syntax::Bin;
use std::alloc::Global;

/// An operand, and the frames below it.
#[derive(Drop)]
pub struct Held {
    pub operand: Operand,
    pub stack: Stack,
}

/// How tightly an operator of two operands binds.
pub fn level(op: Bin) -> usize
    ensures { result ≡ words.level op }
{
    match op {
        Bin::OrElse => 1,
        Bin::AndAlso => 2,
        Bin::Or => 3,
        Bin::And => 4,
        Bin::Lt | Bin::Le | Bin::Gt | Bin::Ge | Bin::Eq | Bin::Ne => 5,
        Bin::Add | Bin::Sub => 7,
        Bin::Mul | Bin::Div | Bin::DotMul | Bin::DotDiv => 8,
        Bin::Pow | Bin::DotPow => 10,
    }
}

/// How tightly an operator holds its last operand.
fn strength(op: &Op) -> usize
    ensures { result ≡ spec.strength op.now }
{
    match op {
        Op::Joined(_, op, _, _) => level(*op),
        Op::Signed(_, _) => 9,
        Op::From(_, _) => 6,
        Op::Stepped(_, _, _) => 6,
    }
}

/// Whether the frame on top is an operator that holds at least so strongly.
fn pulls(least: usize, frames: &Pile<Frame>) -> bool
    ensures { result ≡ spec.pulls least frames.now }
{
    match frames.top() {
        Some(Frame::Op(op)) => least <= strength(op),
        _ => false,
    }
}

/// Takes off the operator on top, where it holds at least so strongly.
fn pull(least: usize, frames: &mut Pile<Frame>) -> Option<Op>
    ensures { MatchOption result ((frames.new ≡ frames.old) × (spec.pulls least frames.old ≡ false)) (λ op. (frames.old ≡ Frame.Op op ∷ frames.new) × (nat_le least (spec.strength op) ≡ true)) }
{
    if !pulls(least, frames) {
        return None;
    }
    match frames.pop() {
        Some(Frame::Op(op)) => Some(op),
        _ => unreachable!(),
    }
}

/// The operators on top that hold at least so strongly take the operand.
#[tactic(auto, unfolding(crate::specs::Reduce::reduce))]
pub fn reduce(alloc: Global, least: usize, operand: Operand, stack: Stack) -> Result<Held, NoMemory>
    ensures { IfOk result (λ h. h ≡ spec.reduce least operand stack) }
{
    let Stack { frames, bottom } = stack;
    let mut frames = frames;
    let mut operand = operand;
    while let Some(op) = pull(least, &mut frames) {
        operand = under(alloc, op, operand)?;
    }
    let stack = Stack { frames, bottom };
    Ok(Held { operand, stack })
}
