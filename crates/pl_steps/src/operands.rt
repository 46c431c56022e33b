//! Where an operand has to come.

ghost use Rattle.std.specs.Prelude.{◌≡◌, ◌∷◌, Some, Ok, Err, IfOk};
ghost use Rattle.pl_frames.specs.Outlist as outlist;
ghost use Rattle.pl_grammar.specs.Words as words;
ghost use Rattle.pl_steps.specs.Steps as spec;

use crate::refusing::{Step, refused, refused_both, refused_with, roomy, wanting};
use pl_base::NoMemory;
use pl_frames::{
    Bottom, Callee, Cells, Form, Frame, Listed, Mark, Op, Operand, Outgoing, Outlist, Pile, Rows,
    SignAt, Site, Stack, State, bracket, bracketed, broken, call, filled, has_room, in_index,
    level, name_at, plain, plus, skipped,
};
use pl_grammar::{Keyword, Word};
use pl_syntax::{Bin, Expr, ExprKind, Un};
use sqlite_items::Items;
use std::alloc::Global;

/// A stack with a frame more.
pub fn laid(frame: Frame, stack: Stack) -> Result<Stack, NoMemory>
    ensures { IfOk result (λ s. s ≡ spec.laid frame stack) }
{
    let Stack { frames, bottom } = stack;
    let mut frames = frames;
    frames.push(frame)?;
    Ok(Stack { frames, bottom })
}

/// An operand of one terminal.
pub fn atom(kind: ExprKind, mark: Mark) -> Operand
    ensures { result ≡ spec.atom kind mark }
{
    let place = mark.place;
    plain(Expr { kind, place }, mark, 0)
}

/// The sign that an operator of two operands may also be.
pub fn sign_of(op: Bin) -> Option<Un>
    ensures { result ≡ spec.sign_of op }
{
    match op {
        Bin::Add => Some(Un::Plus),
        Bin::Sub => Some(Un::Minus),
        _ => None,
    }
}

/// A power, whose right operand has its signs with it.
fn is_power(op: Bin) -> bool
    ensures { result ≡ words.is_power op }
{
    level(op) == 10
}

/// Whether the operator on top is a power.
fn takes_signs(stack: &Stack) -> bool
    ensures { result ≡ spec.takes_signs stack.now.frames }
{
    match stack.frames.top() {
        Some(Frame::Op(Op::Joined(_, op, _, _))) => is_power(*op),
        _ => false,
    }
}

/// A sign more before the right operand of an operator.
fn with_sign(at: SignAt, op: Op) -> Result<Op, NoMemory>
    ensures { IfOk result (λ o. o ≡ spec.with_sign at op) }
{
    match op {
        Op::Joined(left, op, place, signs) => {
            let mut signs = signs;
            signs.push(at)?;
            Ok(Op::Joined(left, op, place, signs))
        }
        op => Ok(op),
    }
}

fn frame_with_sign(at: SignAt, frame: Frame) -> Result<Frame, NoMemory>
    ensures { IfOk result (λ f. f ≡ spec.frame_with_sign at frame) }
{
    match frame {
        Frame::Op(op) => {
            let op = with_sign(at, op)?;
            Ok(Frame::Op(op))
        }
        frame => Ok(frame),
    }
}

/// A sign more on the operator on top.
fn signed_top(at: SignAt, stack: Stack) -> Result<Stack, NoMemory>
    ensures { IfOk result (λ s. s ≡ spec.signed_top at stack) }
{
    let Stack { frames, bottom } = stack;
    let mut frames = frames;
    match frames.pop() {
        None => Ok(Stack { frames, bottom }),
        Some(frame) => {
            let frame = frame_with_sign(at, frame)?;
            laid(frame, Stack { frames, bottom })
        }
    }
}

/// A sign before an operand.
#[tactic(auto, unfolding(crate::specs::Steps::sign))]
pub fn read_sign(sign: Un, mark: Mark, stack: Stack) -> Step
    ensures { spec.Gives result (spec.sign sign mark stack) }
{
    let fits = has_room(1, &stack);
    if takes_signs(&stack) {
        let place = mark.place;
        let stack = signed_top(SignAt { sign, place }, stack)?;
        roomy(fits, State::Operand(stack))
    } else {
        let stack = laid(Frame::Op(Op::Signed(mark, sign)), stack)?;
        roomy(fits, State::Operand(stack))
    }
}

/// An operator of two operands where an operand has to come.
#[tactic(auto, unfolding(crate::specs::Steps::sign_operator))]
fn sign_operator(op: Bin, mark: Mark, stack: Stack) -> Step
    ensures { spec.Gives result (spec.sign_operator op mark stack) }
{
    match sign_of(op) {
        Some(sign) => read_sign(sign, mark, stack),
        None => refused(stack),
    }
}

/// An operand that ends with its own list or braces: an output where no expression stands.
#[tactic(auto, unfolding(crate::specs::Steps::answered))]
pub fn answered(operand: Operand, stack: Stack) -> Step
    ensures { spec.Gives result (spec.answered operand stack) }
{
    let Stack { frames, bottom } = stack;
    if !frames.is_empty() {
        return Ok(State::After(operand, Stack { frames, bottom }));
    }
    match bottom {
        Bottom::Outputs(mark, before, site) => output_read(operand, mark, before, site, frames),
        bottom => Ok(State::After(operand, Stack { frames, bottom })),
    }
}

fn output_read(
    operand: Operand,
    mark: Mark,
    before: Outgoing,
    site: Site,
    frames: Pile<Frame>,
) -> Step
    ensures { spec.Gives result (spec.output_done operand mark before site frames) }
{
    let Operand {
        form,
        mark: own,
        height,
    } = operand;
    match form {
        Form::Target(target) => Ok(State::OutputRead(mark, before, own, Some(target), site)),
        form => {
            let operand = Operand {
                form,
                mark: own,
                height,
            };
            let bottom = Bottom::Outputs(mark, before, site);
            Ok(State::After(operand, Stack { frames, bottom }))
        }
    }
}

/// A list of arguments is done.
pub fn called(callee: Callee, mark: Mark, height: usize, list: Listed, stack: Stack) -> Step
    ensures { spec.Gives result (spec.called callee mark height list stack) }
{
    let height = height.max(plus(1, list.height));
    answered(call(callee, mark, height, list.trees), stack)
}

/// `)` where an operand has to come: the list is empty.
#[tactic(auto, unfolding(crate::specs::Steps::close_empty))]
fn close_empty(alloc: Global, stack: Stack) -> Step
    ensures { spec.Gives result (spec.close_empty stack) }
{
    let Stack { frames, bottom } = stack;
    let mut frames = frames;
    match frames.pop() {
        Some(Frame::Args(callee, mark, height, None)) => {
            let trees = Items::new(alloc);
            let list = Listed { trees, height: 0 };
            called(callee, mark, height, list, Stack { frames, bottom })
        }
        other => refused_with(other, Stack { frames, bottom }),
    }
}

/// `]` behind elements of a row.
fn square_cells(alloc: Global, mark: Mark, rows: Rows, cells: Cells, stack: Stack) -> Step
    ensures { spec.Gives result (spec.square_row mark rows (Some cells) stack) }
{
    if cells.space {
        return refused_both(rows, stack);
    }
    match filled(alloc, rows, cells) {
        Ok(rows) => Ok(State::After(bracketed(mark, rows), stack)),
        Err(NoMemory) => wanting(stack),
    }
}

/// `]` where an element has to come.
fn square_row(alloc: Global, mark: Mark, rows: Rows, cells: Option<Cells>, stack: Stack) -> Step
    ensures { spec.Gives result (spec.square_row mark rows cells stack) }
{
    match cells {
        None => Ok(State::After(bracket(mark, rows), stack)),
        Some(cells) => square_cells(alloc, mark, rows, cells, stack),
    }
}

/// `]` behind outputs, of which the last is `~`.
fn outputs_shut(list: Option<Outlist>) -> Step
    ensures { spec.Gives result (spec.shut_outlist list) }
{
    match list {
        None => refused(()),
        Some(list) => Ok(State::OutputsShut(list.mark, list.outputs, list.site)),
    }
}

/// `]` where no row is open: it can only shut outputs.
fn square_outputs(alloc: Global, frame: Frame, stack: Stack) -> Step
    ensures { spec.Gives result (spec.shut_outlist (outlist.skipped (frame ∷ stack.frames) stack.bottom)) }
{
    let stack = laid(frame, stack)?;
    outputs_shut(skipped(alloc, stack)?)
}

/// `]` where an operand has to come.
#[tactic(auto, unfolding(crate::specs::Steps::square_empty))]
fn square_empty(alloc: Global, stack: Stack) -> Step
    ensures { spec.Gives result (spec.square_empty stack) }
{
    let Stack { frames, bottom } = stack;
    let mut frames = frames;
    match frames.pop() {
        Some(Frame::Row(mark, rows, cells)) => {
            square_row(alloc, mark, rows, cells, Stack { frames, bottom })
        }
        Some(frame) => square_outputs(alloc, frame, Stack { frames, bottom }),
        None => refused(bottom),
    }
}

/// A row comes behind these.
fn next_row(mark: Mark, rows: Rows, stack: Stack) -> Step
    ensures { spec.Gives result (spec.next_row mark rows stack) }
{
    let stack = laid(Frame::Row(mark, rows, None), stack)?;
    Ok(State::Operand(stack))
}

/// A row's end behind its elements.
fn break_cells(alloc: Global, mark: Mark, rows: Rows, cells: Cells, stack: Stack) -> Step
    ensures { spec.Gives result (spec.break_row mark rows (Some cells) stack) }
{
    if cells.space {
        return refused_both(rows, stack);
    }
    match filled(alloc, rows, cells) {
        Ok(rows) => next_row(mark, rows, stack),
        Err(NoMemory) => wanting(stack),
    }
}

/// A row's end where an element has to come.
fn break_row(alloc: Global, mark: Mark, rows: Rows, cells: Option<Cells>, stack: Stack) -> Step
    ensures { spec.Gives result (spec.break_row mark rows cells stack) }
{
    match cells {
        None => next_row(mark, broken(rows), stack),
        Some(cells) => break_cells(alloc, mark, rows, cells, stack),
    }
}

/// A row's end where an operand has to come.
#[tactic(auto, unfolding(crate::specs::Steps::break_empty))]
fn break_empty(alloc: Global, stack: Stack) -> Step
    ensures { spec.Gives result (spec.break_empty stack) }
{
    let Stack { frames, bottom } = stack;
    let mut frames = frames;
    match frames.pop() {
        Some(Frame::Row(mark, rows, cells)) => {
            break_row(alloc, mark, rows, cells, Stack { frames, bottom })
        }
        other => refused_with(other, Stack { frames, bottom }),
    }
}

/// A comma where an operand has to come: it can only follow a `~` that is an output.
#[tactic(auto, unfolding(crate::specs::Steps::comma_empty))]
fn comma_empty(alloc: Global, stack: Stack) -> Step
    ensures { spec.Gives result (spec.comma_empty stack) }
{
    match skipped(alloc, stack)? {
        None => refused(()),
        Some(list) => {
            let outputs = list.outputs;
            let before = Outgoing { outputs, run: 0 };
            Ok(State::Output(list.mark, before, list.site))
        }
    }
}

/// A colon where an operand has to come: an argument of its own.
#[tactic(auto, unfolding(crate::specs::Steps::colon_arg))]
fn colon_arg(mark: Mark, stack: Stack) -> Step
    ensures { spec.Gives result (spec.colon_arg mark stack) }
{
    match stack.frames.top() {
        Some(Frame::Args(_, _, _, _)) => Ok(State::Coloned(mark, stack)),
        _ => refused(stack),
    }
}

/// A parenthesis, or a bracket without rows.
fn opening(frame: Frame, stack: Stack) -> Step
    ensures { spec.Gives result (spec.opening frame stack) }
{
    let fits = has_room(1, &stack);
    let stack = laid(frame, stack)?;
    roomy(fits, State::Operand(stack))
}

/// `end` where an operand has to come.
#[tactic(auto, unfolding(crate::specs::Steps::last))]
fn last(word: Keyword, mark: Mark, stack: Stack) -> Step
    ensures { spec.Gives result (spec.last word mark stack) }
{
    if is_end(word) && in_index(&stack) {
        Ok(State::After(atom(ExprKind::End, mark), stack))
    } else {
        refused(stack)
    }
}

pub fn is_end(word: Keyword) -> bool
    ensures { result ≡ spec.end_word word }
{
    matches!(word, Keyword::End)
}

/// A terminal where an operand has to come.
#[tactic(auto, unfolding(crate::specs::Steps::read_operand))]
pub fn read_operand(alloc: Global, word: &Word, mark: Mark, stack: Stack) -> Step
    ensures { spec.Gives result (spec.read_operand word.now mark stack) }
{
    match word {
        Word::Name(text) => Ok(State::After(name_at(text.copy(alloc)?, mark), stack)),
        Word::Chars(text) => {
            let kind = ExprKind::Chars(text.copy(alloc)?);
            Ok(State::After(atom(kind, mark), stack))
        }
        Word::Number(number) => Ok(State::After(atom(ExprKind::Number(*number), mark), stack)),
        Word::Binary(op) => sign_operator(*op, mark, stack),
        Word::Not => read_sign(Un::Not, mark, stack),
        Word::Colon => colon_arg(mark, stack),
        Word::Comma => comma_empty(alloc, stack),
        Word::Semicolon | Word::LineEnd => break_empty(alloc, stack),
        Word::Open => opening(Frame::Paren(mark), stack),
        Word::Close => close_empty(alloc, stack),
        Word::OpenSquare => opening(Frame::Row(mark, no_rows(alloc), None), stack),
        Word::CloseSquare => square_empty(alloc, stack),
        Word::At => Ok(State::AtSign(mark, stack)),
        Word::Key(word) => last(*word, mark, stack),
        _ => refused(stack),
    }
}

fn no_rows(alloc: Global) -> Rows
    ensures { result ≡ spec.no_rows }
{
    Rows {
        first: true,
        trees: Items::new(alloc),
        height: 0,
    }
}
