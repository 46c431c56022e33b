//! Separators behind an operand.

ghost use Rattle.std.specs.Prelude.{◌≡◌, ◌∷◌, Ok};
ghost use Rattle.pl_frames.specs.Parts as parts;
ghost use Rattle.pl_frames.specs.Trees as trees;
ghost use Rattle.pl_steps.specs.Steps as spec;

use pl_base::NoMemory;
use pl_frames::{
    Bottom, Callee, Cells, Frame, Goal, Heading, Held, Inner, Lead, Listed, Mark, Operand, Part,
    Pile, Rows, Site, Spot, Stack, State, argument, celled, enter, filled, tree,
};
use pl_grammar::Keyword;
use pl_steps::{Step, ended, laid, refused, refused_both, refused_with, settle, wanting};
use pl_syntax::Expr;
use std::alloc::Global;

/// A separator behind a simple statement's expression.
fn end_goal(alloc: Global, show: bool, operand: Operand, goal: Goal, site: Site) -> Step
    ensures { spec.Gives result (spec.end_bottom show operand (Bottom.Goal goal site)) }
{
    let done = settle(alloc, goal, operand)?;
    let site = ended(done, show, site)?;
    Ok(State::Start(site))
}

/// A header up to its expression. In a struct, so that it is let go as a whole.
#[derive(Drop)]
struct Begun {
    lead: Lead,
    spot: Spot,
}

/// The block of a part.
fn entered(alloc: Global, part: Part, spot: Spot) -> Step
    ensures { spec.Gives result (Ok (State.Start (parts.enter part spot))) }
{
    let site = enter(alloc, part, spot)?;
    Ok(State::Start(site))
}

/// The block behind a header's expression.
fn headed(alloc: Global, begun: Begun, value: Expr) -> Step
    ensures { spec.Gives result (Ok (State.Start (parts.enter (Part.Headed (Heading.Upto begun.lead value)) begun.spot))) }
{
    let Begun { lead, spot } = begun;
    entered(alloc, Part::Headed(Heading::Upto(lead, value)), spot)
}

/// A separator behind a header's expression.
fn end_lead(alloc: Global, show: bool, operand: Operand, begun: Begun) -> Step
    ensures { spec.Gives result (spec.end_bottom show operand (Bottom.Lead begun.lead begun.spot)) }
{
    match tree(alloc, operand) {
        Ok(value) => headed(alloc, begun, value),
        Err(NoMemory) => wanting(begun),
    }
}

/// A separator behind a statement's or a header's expression.
fn end_bottom(alloc: Global, show: bool, operand: Operand, bottom: Bottom) -> Step
    ensures { spec.Gives result (spec.end_bottom show operand bottom) }
{
    match bottom {
        Bottom::Goal(goal, site) => end_goal(alloc, show, operand, goal, site),
        Bottom::Lead(lead, spot) => end_lead(alloc, show, operand, Begun { lead, spot }),
        bottom => refused(bottom),
    }
}

/// The end of a row behind an element.
fn row_ended(
    alloc: Global,
    show: bool,
    mark: Mark,
    rows: Rows,
    cells: Option<Cells>,
    operand: Operand,
    stack: Stack,
) -> Step
    ensures { spec.Gives result (spec.end_row_on show operand (Frame.Row mark rows cells ∷ stack.frames) stack.bottom) }
{
    let cells = celled(alloc, cells, operand, false)?;
    let rows = filled(alloc, rows, cells)?;
    let stack = laid(Frame::Row(mark, rows, None), stack)?;
    Ok(State::Operand(stack))
}

/// A semicolon or a line end behind an operand.
#[tactic(auto, unfolding(pl_steps::specs::Steps::end_row))]
pub fn end_row(alloc: Global, show: bool, held: Held) -> Step
    ensures { spec.Gives result (spec.end_row show held) }
{
    let Held { operand, stack } = held;
    let Stack { frames, bottom } = stack;
    let mut frames = frames;
    match frames.pop() {
        None => end_bottom(alloc, show, operand, bottom),
        Some(Frame::Row(mark, rows, cells)) => {
            let stack = Stack { frames, bottom };
            row_ended(alloc, show, mark, rows, cells, operand, stack)
        }
        other => refused_with(other, Stack { frames, bottom }),
    }
}

/// The bound of a `parfor` has to come.
fn bound_in(alloc: Global, range: Expr, inner: Inner, spot: Spot) -> Step
    ensures { spec.Gives result (spec.bound_by range (Bottom.Inner inner spot)) }
{
    match inner {
        Inner::EachIn(Keyword::Parfor, mark, name) => {
            let bottom = Bottom::Inner(Inner::Bound(mark, name, range), spot);
            let frames = Pile::new(alloc);
            Ok(State::Operand(Stack { frames, bottom }))
        }
        inner => refused_both(range, Bottom::Inner(inner, spot)),
    }
}

fn bound_of(alloc: Global, range: Expr, bottom: Bottom) -> Step
    ensures { spec.Gives result (spec.bound_by range bottom) }
{
    match bottom {
        Bottom::Inner(inner, spot) => bound_in(alloc, range, inner, spot),
        bottom => refused_both(range, bottom),
    }
}

/// A comma behind the range of a `parfor`. The bottom is let go as a whole where memory is wanting.
fn bound(alloc: Global, operand: Operand, bottom: Bottom) -> Step
    ensures { spec.Gives result (spec.bound_by (trees.tree operand) bottom) }
{
    let range = tree(alloc, operand)?;
    bound_of(alloc, range, bottom)
}

/// A comma behind the range of a loop: a bound on the workers of a `parfor` follows.
fn end_inner(alloc: Global, inner: Inner, spot: Spot, operand: Operand) -> Step
    ensures { spec.Gives result (spec.end_inner inner spot operand) }
{
    match inner {
        Inner::EachIn(Keyword::Parfor, mark, name) => {
            let inner = Inner::EachIn(Keyword::Parfor, mark, name);
            bound(alloc, operand, Bottom::Inner(inner, spot))
        }
        inner => refused(Bottom::Inner(inner, spot)),
    }
}

/// A comma in a header.
fn end_header(alloc: Global, operand: Operand, bottom: Bottom) -> Step
    ensures { spec.Gives result (spec.end_header operand bottom) }
{
    match bottom {
        Bottom::Inner(inner, spot) => end_inner(alloc, inner, spot, operand),
        bottom => end_bottom(alloc, true, operand, bottom),
    }
}

/// A comma behind an argument.
fn next_argument(
    alloc: Global,
    callee: Callee,
    mark: Mark,
    height: usize,
    list: Option<Listed>,
    operand: Operand,
    stack: Stack,
) -> Step
    ensures { spec.Gives result (spec.end_comma_on operand (Frame.Args callee mark height list ∷ stack.frames) stack.bottom) }
{
    let list = argument(alloc, list, operand)?;
    let frame = Frame::Args(callee, mark, height, Some(list));
    Ok(State::Operand(laid(frame, stack)?))
}

/// A comma behind an element.
fn next_element(
    alloc: Global,
    mark: Mark,
    rows: Rows,
    cells: Option<Cells>,
    operand: Operand,
    stack: Stack,
) -> Step
    ensures { spec.Gives result (spec.end_comma_on operand (Frame.Row mark rows cells ∷ stack.frames) stack.bottom) }
{
    let cells = celled(alloc, cells, operand, false)?;
    let frame = Frame::Row(mark, rows, Some(cells));
    Ok(State::Operand(laid(frame, stack)?))
}

/// A comma behind an operand.
#[tactic(auto, unfolding(pl_steps::specs::Steps::end_comma))]
pub fn end_comma(alloc: Global, held: Held) -> Step
    ensures { spec.Gives result (spec.end_comma held) }
{
    let Held { operand, stack } = held;
    let Stack { frames, bottom } = stack;
    let mut frames = frames;
    match frames.pop() {
        None => end_header(alloc, operand, bottom),
        Some(Frame::Args(callee, mark, height, list)) => {
            let stack = Stack { frames, bottom };
            next_argument(alloc, callee, mark, height, list, operand, stack)
        }
        Some(Frame::Row(mark, rows, cells)) => {
            next_element(alloc, mark, rows, cells, operand, Stack { frames, bottom })
        }
        other => refused_with(other, Stack { frames, bottom }),
    }
}
