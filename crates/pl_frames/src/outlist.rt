//! Frames that turn out to be outputs of a statement.

ghost use Rattle.std.specs.Prelude.{◌≡◌, ◌++◌, Some, None, [], ◌∷◌, Ok, Err, IfOk, OnOk};
ghost use Rattle.pl_frames.specs.Outlist as spec;

use crate::operand::{Element, Mark, Op};
use crate::pile::Pile;
use crate::stack::{Bottom, Cells, Frame, Goal, Rows, Site, Stack};
use crate::trees::plus;
use pl_base::{NoMemory, Seq};
use pl_syntax::{Target, Un};
use sqlite_items::Items;
use std::alloc::Global;

/// Outputs behind `[`, whether white space alone separates the next one, how many `~` put a level over it, and
/// where their statement stands.
#[derive(Drop)]
pub struct Outlist {
    pub mark: Mark,
    pub outputs: Items<Option<Target>>,
    pub run: usize,
    pub space: bool,
    pub site: Site,
}

/// Outputs and a `~` for each mark.
#[tactic(auto, using(crate::proofs::Skipping::skips_more))]
fn with_skips(
    outputs: Items<Option<Target>>,
    marks: &[Mark],
) -> Result<Items<Option<Target>>, NoMemory>
    ensures { IfOk result (λ os. os ≡ outputs ++ spec.skips marks.now) }
{
    let mut outputs = outputs;
    for _mark in marks {
        outputs.push(None)?;
    }
    Ok(outputs)
}

/// Outputs and those of an element: a `~` for each mark, and the target.
fn with_outputs(
    outputs: Items<Option<Target>>,
    marks: &[Mark],
    target: Target,
) -> Result<Items<Option<Target>>, NoMemory>
    ensures { IfOk result (λ os. os ≡ outputs ++ spec.element_outputs marks.now target) }
{
    let mut outputs = with_skips(outputs, marks)?;
    outputs.push(Some(target))?;
    Ok(outputs)
}

/// Outputs and those of an element, if it may be outputs.
fn with_element(
    outputs: Items<Option<Target>>,
    element: Element,
) -> Result<Option<Items<Option<Target>>>, NoMemory>
    ensures { IfOk result (λ os. os ≡ spec.with_element outputs element) }
{
    match element {
        Element::Outputs(marks, target) => {
            let outputs = with_outputs(outputs, marks.as_slice(), target)?;
            Ok(Some(outputs))
        }
        Element::Tree(_) => Ok(None),
    }
}

/// The outputs that a row is, if all its elements may be outputs.
pub fn row_outputs(
    alloc: Global,
    elements: Seq<Element>,
) -> Result<Option<Items<Option<Target>>>, NoMemory>
    ensures { IfOk result (λ os. os ≡ spec.row_outputs [] elements) }
{
    let mut outputs = Items::new(alloc);
    for element in elements.into_vec() {
        match with_element(outputs, element)? {
            None => return Ok(None),
            Some(more) => outputs = more,
        }
    }
    Ok(Some(outputs))
}

/// The mark of a `~` that is an operator.
fn not_mark(op: &Op) -> Option<Mark>
    ensures { result ≡ spec.not_mark op.now }
{
    match op {
        Op::Signed(mark, Un::Not) => Some(*mark),
        _ => None,
    }
}

/// Outputs and one more `~`, which white space alone separates only where it has some before it.
fn skip_onto(mark: Mark, below: Option<Outlist>) -> Result<Option<Outlist>, NoMemory>
    ensures { IfOk result (λ l. l ≡ spec.skip_onto mark below) }
{
    let Some(below) = below else {
        return Ok(None);
    };
    let Outlist {
        mark: bracket,
        outputs,
        run,
        space,
        site,
    } = below;
    if space && !mark.gap {
        return Ok(None);
    }
    let mut outputs = outputs;
    outputs.push(None)?;
    Ok(Some(Outlist {
        mark: bracket,
        outputs,
        run: plus(1, run),
        space: true,
        site,
    }))
}

/// The outputs that the elements before the next one are.
fn cell_outputs(
    alloc: Global,
    mark: Mark,
    cells: Option<Cells>,
    site: Site,
) -> Result<Option<Outlist>, NoMemory>
    ensures { IfOk result (λ l. l ≡ spec.cell_outputs mark cells site) }
{
    match cells {
        None => Ok(Some(Outlist {
            mark,
            outputs: Items::new(alloc),
            run: 0,
            space: false,
            site,
        })),
        Some(cells) => {
            let space = cells.space;
            match row_outputs(alloc, cells.elements)? {
                None => Ok(None),
                Some(outputs) => Ok(Some(Outlist {
                    mark,
                    outputs,
                    run: 0,
                    space,
                    site,
                })),
            }
        }
    }
}

/// The site of a statement that has only begun.
pub fn shown_site(bottom: Bottom) -> Option<Site>
    ensures { result ≡ spec.shown_site bottom }
{
    match bottom {
        Bottom::Goal(goal, site) => match goal {
            Goal::Shown => Some(site),
            _ => None,
        },
        _ => None,
    }
}

/// The outputs that a row is at a statement's start.
fn row_outlist(
    alloc: Global,
    mark: Mark,
    rows: Rows,
    cells: Option<Cells>,
    stack: Stack,
) -> Result<Option<Outlist>, NoMemory>
    ensures { IfOk result (λ l. l ≡ spec.row_outlist mark rows cells stack.frames stack.bottom) }
{
    if !rows.first || !stack.frames.is_empty() {
        return Ok(None);
    }
    match shown_site(stack.bottom) {
        None => Ok(None),
        Some(site) => cell_outputs(alloc, mark, cells, site),
    }
}

/// The outputs that frames may be: `[` at a statement's start, elements, and `~`.
fn as_outputs(
    alloc: Global,
    frames: Pile<Frame>,
    bottom: Bottom,
) -> Result<Option<Outlist>, NoMemory>
    ensures { IfOk result (λ l. l ≡ spec.as_outputs frames bottom) }
{
    let mut frames = frames;
    match frames.pop() {
        Some(Frame::Op(op)) => match not_mark(&op) {
            None => Ok(None),
            Some(mark) => {
                let below = as_outputs(alloc, frames, bottom)?;
                skip_onto(mark, below)
            }
        },
        Some(Frame::Row(mark, rows, cells)) => {
            row_outlist(alloc, mark, rows, cells, Stack { frames, bottom })
        }
        _ => Ok(None),
    }
}

/// Whether an operator is on top.
fn has_op(frames: &Pile<Frame>) -> bool
    ensures { result ≡ spec.has_op frames.now }
{
    match frames.top() {
        Some(Frame::Op(_)) => true,
        _ => false,
    }
}

/// The same, where at least one `~` is on top.
#[tactic(auto, unfolding(crate::specs::Outlist::skipped))]
pub fn skipped(alloc: Global, stack: Stack) -> Result<Option<Outlist>, NoMemory>
    ensures { IfOk result (λ l. l ≡ spec.skipped stack.frames stack.bottom) }
{
    let Stack { frames, bottom } = stack;
    if !has_op(&frames) {
        return Ok(None);
    }
    as_outputs(alloc, frames, bottom)
}
