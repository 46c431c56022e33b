//! Closing brackets behind an operand.

ghost use Rattle.std.specs.Prelude.{◌≡◌, ◌∷◌, IfOk};
ghost use Rattle.pl_steps.specs.Steps as spec;

use pl_base::NoMemory;
use pl_frames::{
    Bottom, Callee, Cells, Form, Frame, Heading, Held, Listed, Mark, Operand, Rows, Stack, State,
    argument, celled, plain, plus, row_bracket, tree,
};
use pl_steps::{Step, answered, called, refused_both, refused_with};
use pl_syntax::{Expr, Name, Target};
use sqlite_items::Boxed;
use std::alloc::Global;

/// A header that wants its separator.
fn ready(value: Expr, bottom: Bottom) -> Step
    ensures { spec.Gives result (spec.shut_by value bottom) }
{
    match bottom {
        Bottom::Inner(inner, spot) => Ok(State::Ready(Heading::Shut(inner, value), spot)),
        bottom => refused_both(value, bottom),
    }
}

/// `)` behind the expression of a header. The bottom is let go as a whole where memory is wanting.
fn close_header(alloc: Global, operand: Operand, bottom: Bottom) -> Step
    ensures { spec.Gives result (spec.close_header operand bottom) }
{
    let value = tree(alloc, operand)?;
    ready(value, bottom)
}

/// An operand in parentheses.
fn in_parens(alloc: Global, mark: Mark, operand: Operand, stack: Stack) -> Step
    ensures { spec.Gives result (spec.close_on operand (Frame.Paren mark ∷ stack.frames) stack.bottom) }
{
    let height = plus(1, operand.height);
    let tree = tree(alloc, operand)?;
    Ok(State::After(plain(tree, mark, height), stack))
}

/// `)` behind the last argument.
fn close_list(
    alloc: Global,
    callee: Callee,
    mark: Mark,
    height: usize,
    list: Option<Listed>,
    operand: Operand,
    stack: Stack,
) -> Step
    ensures { spec.Gives result (spec.close_on operand (Frame.Args callee mark height list ∷ stack.frames) stack.bottom) }
{
    let list = argument(alloc, list, operand)?;
    called(callee, mark, height, list, stack)
}

/// `)` behind an operand.
#[tactic(auto, unfolding(pl_steps::specs::Steps::close))]
pub fn close(alloc: Global, held: Held) -> Step
    ensures { spec.Gives result (spec.close held) }
{
    let Held { operand, stack } = held;
    let Stack { frames, bottom } = stack;
    let mut frames = frames;
    match frames.pop() {
        None => close_header(alloc, operand, bottom),
        Some(Frame::Paren(mark)) => in_parens(alloc, mark, operand, Stack { frames, bottom }),
        Some(Frame::Args(callee, mark, height, list)) => {
            let stack = Stack { frames, bottom };
            close_list(alloc, callee, mark, height, list, operand, stack)
        }
        other => refused_with(other, Stack { frames, bottom }),
    }
}

/// `]` behind an element.
fn close_row(
    alloc: Global,
    mark: Mark,
    rows: Rows,
    cells: Option<Cells>,
    operand: Operand,
    stack: Stack,
) -> Step
    ensures { spec.Gives result (spec.close_square_on operand (Frame.Row mark rows cells ∷ stack.frames) stack.bottom) }
{
    let cells = celled(alloc, cells, operand, false)?;
    let operand = row_bracket(alloc, mark, rows, cells)?;
    Ok(State::After(operand, stack))
}

/// `]` behind an operand.
#[tactic(auto, unfolding(pl_steps::specs::Steps::close_square))]
pub fn close_square(alloc: Global, held: Held) -> Step
    ensures { spec.Gives result (spec.close_square held) }
{
    let Held { operand, stack } = held;
    let Stack { frames, bottom } = stack;
    let mut frames = frames;
    match frames.pop() {
        Some(Frame::Row(mark, rows, cells)) => {
            close_row(alloc, mark, rows, cells, operand, Stack { frames, bottom })
        }
        other => refused_with(other, Stack { frames, bottom }),
    }
}

/// What stands in the braces behind a name.
fn in_braces(alloc: Global, name: Name, mark: Mark, operand: Operand) -> Result<Operand, NoMemory>
    ensures { IfOk result (λ e. e ≡ spec.braced name mark operand) }
{
    let height = plus(1, operand.height);
    let tree = tree(alloc, operand)?;
    let inside = Boxed::new(alloc, tree)?;
    let form = Form::Target(Target::Braced(name, inside));
    Ok(Operand { form, mark, height })
}

/// `}` behind what stands in the braces of a name.
fn close_name(alloc: Global, name: Name, mark: Mark, operand: Operand, stack: Stack) -> Step
    ensures { spec.Gives result (spec.close_brace_on operand (Frame.Brace name mark ∷ stack.frames) stack.bottom) }
{
    let operand = in_braces(alloc, name, mark, operand)?;
    answered(operand, stack)
}

/// `}` behind an operand.
#[tactic(auto, unfolding(pl_steps::specs::Steps::close_brace))]
pub fn close_brace(alloc: Global, held: Held) -> Step
    ensures { spec.Gives result (spec.close_brace held) }
{
    let Held { operand, stack } = held;
    let Stack { frames, bottom } = stack;
    let mut frames = frames;
    match frames.pop() {
        Some(Frame::Brace(name, mark)) => {
            close_name(alloc, name, mark, operand, Stack { frames, bottom })
        }
        other => refused_with(other, Stack { frames, bottom }),
    }
}
