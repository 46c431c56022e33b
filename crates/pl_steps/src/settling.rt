//! Assignments, and simple statements that are done.

ghost use Rattle.std.specs.Prelude.{◌≡◌, Ok, Err, IfOk};
ghost use Rattle.pl_frames.specs.Trees as tree_of;
ghost use Rattle.pl_steps.specs.Steps as spec;

use crate::refusing::{Step, refused};
use pl_base::{NoMemory, Seq};
use pl_frames::{
    Bottom, Done, Element, Form, Frame, Goal, Mark, Operand, Pile, Site, Stack, State, row_outputs,
    shown_site, tree,
};
use pl_syntax::{Expr, Name, Stmt, StmtKind, Target};
use sqlite_items::Items;
use std::alloc::Global;

/// The value of an assignment has to come.
fn value_of(goal: Goal, site: Site, frames: Pile<Frame>) -> Step
    ensures { spec.Gives result (spec.goal_step goal site frames) }
{
    let bottom = Bottom::Goal(goal, site);
    Ok(State::Operand(Stack { frames, bottom }))
}

/// The values of several outputs have to come, if the elements of the row are outputs.
fn spread_to(
    outputs: Option<Items<Option<Target>>>,
    mark: Mark,
    site: Site,
    frames: Pile<Frame>,
) -> Step
    ensures { spec.Gives result (spec.spread_to outputs mark site frames) }
{
    match outputs {
        None => refused(site),
        Some(outputs) => value_of(Goal::Spread(mark, outputs), site, frames),
    }
}

/// `=` behind a row at a statement's start.
fn spread_row(
    alloc: Global,
    elements: Seq<Element>,
    mark: Mark,
    site: Site,
    frames: Pile<Frame>,
) -> Step
    ensures { spec.Gives result (spec.assign_form (Form.Row elements) mark site frames) }
{
    let outputs = row_outputs(alloc, elements)?;
    spread_to(outputs, mark, site, frames)
}

/// `=` behind an operand at a statement's start.
fn assign_to(alloc: Global, operand: Operand, site: Site, frames: Pile<Frame>) -> Step
    ensures { spec.Gives result (spec.assign_to operand site frames) }
{
    let Operand { form, mark, .. } = operand;
    match form {
        Form::Target(target) => value_of(Goal::Into(target, mark), site, frames),
        Form::Row(elements) => spread_row(alloc, elements, mark, site, frames),
        other => refused(other),
    }
}

/// `=` behind an operand.
#[tactic(auto, unfolding(crate::specs::Steps::assign))]
pub fn assign(alloc: Global, operand: Operand, stack: Stack) -> Step
    ensures { spec.Gives result (spec.assign operand stack) }
{
    let Stack { frames, bottom } = stack;
    if !frames.is_empty() {
        return refused(bottom);
    }
    match shown_site(bottom) {
        Some(site) => assign_to(alloc, operand, site, frames),
        None => refused(operand),
    }
}

fn is_nothing(form: &Form) -> bool
    ensures { result ≡ spec.is_nothing form.now }
{
    matches!(form, Form::Nothing)
}

/// `name(list) = ` and a value: a deletion, where that is `[]`.
fn into_list(
    alloc: Global,
    name: Name,
    list: Items<Expr>,
    operand: Operand,
) -> Result<StmtKind, NoMemory>
    ensures { IfOk result (λ s. s ≡ spec.assigned (Target.Indexed name list) operand) }
{
    if is_nothing(&operand.form) {
        Ok(StmtKind::Delete(name, list))
    } else {
        let value = tree(alloc, operand)?;
        Ok(StmtKind::Assign(Target::Indexed(name, list), value))
    }
}

/// An assignment to a target, which isn't a deletion.
fn into_target(alloc: Global, target: Target, operand: Operand) -> Result<StmtKind, NoMemory>
    ensures { IfOk result (λ s. s ≡ StmtKind.Assign target (tree_of.tree operand)) }
{
    let value = tree(alloc, operand)?;
    Ok(StmtKind::Assign(target, value))
}

/// An assignment that is done.
fn assigned(alloc: Global, target: Target, operand: Operand) -> Result<StmtKind, NoMemory>
    ensures { IfOk result (λ s. s ≡ spec.assigned target operand) }
{
    match target {
        Target::Indexed(name, list) => into_list(alloc, name, list, operand),
        target => into_target(alloc, target, operand),
    }
}

/// The outputs of a statement and their value.
fn spread(
    alloc: Global,
    mark: Mark,
    outputs: Items<Option<Target>>,
    operand: Operand,
) -> Result<Done, NoMemory>
    ensures { IfOk result (λ d. d ≡ spec.settle (Goal.Spread mark outputs) operand) }
{
    let value = tree(alloc, operand)?;
    let kind = StmtKind::AssignList(outputs, value);
    Ok(Done { kind, mark })
}

/// A simple statement that is done.
pub fn settle(alloc: Global, goal: Goal, operand: Operand) -> Result<Done, NoMemory>
    ensures { IfOk result (λ d. d ≡ spec.settle goal operand) }
{
    match goal {
        Goal::Shown => {
            let mark = operand.mark;
            let kind = StmtKind::Eval(tree(alloc, operand)?);
            Ok(Done { kind, mark })
        }
        Goal::Into(target, mark) => {
            let kind = assigned(alloc, target, operand)?;
            Ok(Done { kind, mark })
        }
        Goal::Spread(mark, outputs) => spread(alloc, mark, outputs, operand),
    }
}

/// A statement behind those of its block, with its separator.
pub fn ended(done: Done, show: bool, site: Site) -> Result<Site, NoMemory>
    ensures { IfOk result (λ s. s ≡ spec.ended done show site) }
{
    let Done { kind, mark } = done;
    let Site {
        root,
        levels,
        block,
    } = site;
    let mut block = block;
    let place = mark.place;
    block.push(Stmt { kind, place, show })?;
    Ok(Site {
        root,
        levels,
        block,
    })
}
