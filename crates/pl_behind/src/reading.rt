//! A terminal behind an operand, or behind a sign that had white space before it.

ghost use Rattle.std.specs.Prelude.{◌≡◌, ◌∷◌, Err, IfOk};
ghost use Rattle.pl_steps.specs.Steps as spec;

use crate::closing::{close, close_brace, close_square};
use crate::ending::{end_comma, end_row};
use crate::joining::{operator, range, transpose};
use pl_base::{NoMemory, Or};
use pl_frames::{
    Additive, Callee, Cells, Form, Frame, Held, Mark, Op, Operand, Pile, Rows, Stack, State,
    celled, has_room, in_index, in_row, plus, reduce,
};
use pl_grammar::Word;
use pl_steps::{
    Step, assign, has_state, is_end, laid, nothing, nothing_with, read_operand, refused, roomy,
    target_name,
};
use pl_syntax::{Bin, Name, Target, Un};
use std::alloc::Global;

fn bin_of(additive: Additive) -> Bin
    ensures { result ≡ spec.bin_of additive }
{
    match additive {
        Additive::Plus => Bin::Add,
        Additive::Minus => Bin::Sub,
    }
}

fn un_of(additive: Additive) -> Un
    ensures { result ≡ spec.un_of additive }
{
    match additive {
        Additive::Plus => Un::Plus,
        Additive::Minus => Un::Minus,
    }
}

/// A target that a list may stand behind.
fn target_callee(target: Target) -> Option<Callee>
    ensures { result ≡ spec.target_callee target }
{
    match target {
        Target::Whole(name) => Some(Callee::Alone(name)),
        Target::Braced(name, inside) => Some(Callee::Braced(name, inside)),
        other => nothing(other),
    }
}

/// What a list may stand behind.
fn callee_of(form: Form) -> Option<Callee>
    ensures { result ≡ spec.callee_of form }
{
    match form {
        Form::Target(target) => target_callee(target),
        Form::Dotted(name) => Some(Callee::Dotted(name)),
        other => nothing(other),
    }
}

/// `(` behind an operand.
#[tactic(auto, unfolding(pl_steps::specs::Steps::list_of))]
fn list_of(operand: Operand, stack: Stack) -> Step
    ensures { spec.Gives result (spec.list_of operand stack) }
{
    let Operand { form, mark, height } = operand;
    match callee_of(form) {
        None => refused(stack),
        Some(callee) => {
            let fits = has_room(1, &stack);
            let stack = laid(Frame::Args(callee, mark, height, None), stack)?;
            roomy(fits, State::Operand(stack))
        }
    }
}

/// A name alone.
fn name_of(form: Form) -> Option<Name>
    ensures { result ≡ spec.name_of form }
{
    match form {
        Form::Target(target) => target_name(target),
        other => nothing(other),
    }
}

/// `{` behind an operand.
#[tactic(auto, unfolding(pl_steps::specs::Steps::brace))]
fn brace(operand: Operand, stack: Stack) -> Step
    ensures { spec.Gives result (spec.brace operand stack) }
{
    let mark = operand.mark;
    match name_of(operand.form) {
        None => refused(stack),
        Some(name) => {
            let fits = has_room(1, &stack);
            let stack = laid(Frame::Brace(name, mark), stack)?;
            roomy(fits, State::Operand(stack))
        }
    }
}

/// A dot behind an operand.
fn dot_behind(operand: Operand, stack: Stack) -> Step
    ensures { spec.Gives result (spec.dot_behind operand stack) }
{
    if has_state(&operand.form) {
        Ok(State::Dot(operand, stack))
    } else {
        refused(stack)
    }
}

/// A terminal that goes on with an expression, or ends it.
#[tactic(auto, unfolding(pl_steps::specs::Steps::go_on))]
fn go_on(alloc: Global, word: &Word, mark: Mark, operand: Operand, stack: Stack) -> Step
    ensures { spec.Gives result (spec.go_on word.now mark operand stack) }
{
    match word {
        Word::Binary(op) => operator(alloc, *op, mark, operand, stack),
        Word::Quote => transpose(alloc, mark, reduce(alloc, 10, operand, stack)?),
        Word::Colon => range(mark, reduce(alloc, 7, operand, stack)?),
        Word::Equal => assign(alloc, operand, stack),
        Word::Comma => end_comma(alloc, reduce(alloc, 0, operand, stack)?),
        Word::Semicolon => end_row(alloc, false, reduce(alloc, 0, operand, stack)?),
        Word::LineEnd => end_row(alloc, true, reduce(alloc, 0, operand, stack)?),
        Word::Open => list_of(operand, stack),
        Word::Close => close(alloc, reduce(alloc, 0, operand, stack)?),
        Word::CloseSquare => close_square(alloc, reduce(alloc, 0, operand, stack)?),
        Word::OpenBrace => brace(operand, stack),
        Word::CloseBrace => close_brace(alloc, reduce(alloc, 0, operand, stack)?),
        Word::Dot => dot_behind(operand, stack),
        _ => refused(stack),
    }
}

/// Whether a word begins an element of a row behind white space; `+` and `-` are another matter.
fn begins_element(word: &Word, stack: &Stack) -> bool
    ensures { result ≡ spec.begins_element word.now stack.now }
{
    match word {
        Word::Name(_) | Word::Chars(_) | Word::Number(_) => true,
        Word::Not | Word::Open | Word::OpenSquare | Word::At => true,
        Word::Key(word) => is_end(*word) && in_index(stack),
        _ => false,
    }
}

/// The element is one more of its row, and white space separates what comes.
fn apart_in(
    alloc: Global,
    mark: Mark,
    rows: Rows,
    cells: Option<Cells>,
    operand: Operand,
    stack: Stack,
) -> Result<Option<Stack>, NoMemory>
    ensures { IfOk result (λ s. s ≡ spec.apart_on operand (Frame.Row mark rows cells ∷ stack.frames) stack.bottom) }
{
    let cells = celled(alloc, cells, operand, true)?;
    let stack = laid(Frame::Row(mark, rows, Some(cells)), stack)?;
    Ok(Some(stack))
}

/// The element is done, and white space separates what comes; nothing, where no row is open.
fn apart(alloc: Global, held: Held) -> Result<Option<Stack>, NoMemory>
    ensures { IfOk result (λ s. s ≡ spec.apart held) }
{
    let Held { operand, stack } = held;
    let Stack { frames, bottom } = stack;
    let mut frames = frames;
    match frames.pop() {
        Some(Frame::Row(mark, rows, cells)) => {
            apart_in(alloc, mark, rows, cells, operand, Stack { frames, bottom })
        }
        other => Ok(nothing_with(other, Stack { frames, bottom })),
    }
}

/// A terminal behind an operand.
#[tactic(auto, unfolding(pl_steps::specs::Steps::read_after))]
pub fn read_after(alloc: Global, word: &Word, mark: Mark, operand: Operand, stack: Stack) -> Step
    ensures { spec.Gives result (spec.read_after word.now mark operand stack) }
{
    if !(begins_element(word, &stack) && in_row(&stack) && mark.gap) {
        return go_on(alloc, word, mark, operand, stack);
    }
    match apart(alloc, reduce(alloc, 0, operand, stack)?)? {
        None => refused(()),
        Some(row) => read_operand(alloc, word, mark, row),
    }
}

/// A `+` or `-` that had white space before it stands between operands.
#[tactic(auto, unfolding(pl_steps::specs::Steps::untear_between))]
fn untear_between(alloc: Global, op: Bin, at: Mark, held: Held, word: &Word, mark: Mark) -> Step
    ensures { spec.Gives result (spec.untear_between op at held word.now mark) }
{
    let Held { operand, stack } = held;
    let fits = has_room(plus(1, operand.height), &stack);
    let op = Op::Joined(operand, op, at.place, Pile::new(alloc));
    let stack = laid(Frame::Op(op), stack)?;
    match read_operand(alloc, word, mark, stack) {
        Ok(state) => roomy(fits, state),
        Err(Or::Memory) => Err(Or::Memory),
        Err(Or::Is(fault)) => Err(Or::Is(fault)),
    }
}

/// It belongs to the element that it begins.
#[tactic(auto, unfolding(pl_steps::specs::Steps::untear_before))]
fn untear_before(alloc: Global, sign: Un, at: Mark, held: Held, word: &Word, mark: Mark) -> Step
    ensures { spec.Gives result (spec.untear_before sign at held word.now mark) }
{
    match apart(alloc, held)? {
        None => refused(()),
        Some(row) => {
            let row = laid(Frame::Op(Op::Signed(at, sign)), row)?;
            read_operand(alloc, word, mark, row)
        }
    }
}

/// A terminal behind a `+` or `-` that had white space before it.
#[tactic(auto, unfolding(pl_steps::specs::Steps::untear))]
pub fn untear(
    alloc: Global,
    operand: Operand,
    additive: Additive,
    at: Mark,
    stack: Stack,
    word: &Word,
    mark: Mark,
) -> Step
    ensures { spec.Gives result (spec.untear operand additive at stack word.now mark) }
{
    if mark.gap {
        let held = reduce(alloc, 7, operand, stack)?;
        untear_between(alloc, bin_of(additive), at, held, word, mark)
    } else {
        let held = reduce(alloc, 0, operand, stack)?;
        untear_before(alloc, un_of(additive), at, held, word, mark)
    }
}
