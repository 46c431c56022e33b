//! The names of statements.

ghost use Rattle.std.specs.Prelude.{◌≡◌, ◌++◌, IfOk, OnOk};
ghost use Rattle.pl_resolve.specs.Occurrences.{of_target, of_targets, of_arms, of_stmt, of_block};

use crate::expressions::{add, add_expr, add_exprs};
use crate::occurrence::{Occurrence, Use};
use pl_base::{NoMemory, Seq};
use pl_syntax::{Arm, Stmt, StmtKind, Target};
use sqlite_items::Items;
use std::alloc::Global;

/// The names of statements in the order of the text, and what is done with each. A name that turns out to
/// be a function's is among them, so ask its scope whether it is a variable.
pub fn occurrences(alloc: Global, body: &Items<Stmt>) -> Result<Seq<Occurrence>, NoMemory>
    ensures { IfOk result (λ s. s ≡ of_block body.now) }
{
    let mut names = Vec::new(alloc);
    add_block(&mut names, body)?;
    Ok(Seq::of(names))
}

/// Adds the names of a target.
fn add_target(out: &mut Vec<Occurrence>, target: &Target) -> Result<(), NoMemory>
    ensures { OnOk result (out.new.items ≡ out.old.items ++ of_target target.now) }
{
    match target {
        Target::Whole(name) => add(out, Use::Assign, name)?,
        Target::Indexed(name, list) => {
            add(out, Use::AssignAt, name)?;
            add_exprs(out, list)?;
        }
        Target::Braced(name, place) => {
            add(out, Use::AssignIn, name)?;
            add_expr(out, place.get())?;
        }
    }
    Ok(())
}

/// Adds the names of an output list.
fn add_targets(out: &mut Vec<Occurrence>, list: &Items<Option<Target>>) -> Result<(), NoMemory>
    ensures { OnOk result (out.new.items ≡ out.old.items ++ of_targets list.now) }
{
    for target in list.as_slice() {
        if let Some(target) = target {
            add_target(out, target)?;
        }
    }
    Ok(())
}

/// Adds the names of a statement.
#[cycle(blocks)]
fn add_stmt(out: &mut Vec<Occurrence>, s: &Stmt) -> Result<(), NoMemory>
    ensures { OnOk result (out.new.items ≡ out.old.items ++ of_stmt s.now) }
{
    match &s.kind {
        StmtKind::Eval(e) => add_expr(out, e)?,
        StmtKind::Assign(target, e) => {
            add_target(out, target)?;
            add_expr(out, e)?;
        }
        StmtKind::AssignList(targets, e) => {
            add_targets(out, targets)?;
            add_expr(out, e)?;
        }
        StmtKind::Delete(name, list) => {
            add(out, Use::Delete, name)?;
            add_exprs(out, list)?;
        }
        StmtKind::If(arms, last) => {
            add_arms(out, arms)?;
            add_block(out, last)?;
        }
        StmtKind::While(test, body) => {
            add_expr(out, test)?;
            add_block(out, body)?;
        }
        StmtKind::For(name, range, body) => {
            add(out, Use::Assign, name)?;
            add_expr(out, range)?;
            add_block(out, body)?;
        }
        StmtKind::Parfor(name, range, most, body) => {
            add(out, Use::Assign, name)?;
            add_expr(out, range)?;
            if let Some(most) = most {
                add_expr(out, most)?;
            }
            add_block(out, body)?;
        }
        StmtKind::Switch(value, cases, last) => {
            add_expr(out, value)?;
            add_arms(out, cases)?;
            add_block(out, last)?;
        }
        StmtKind::Try(body, handler) => {
            add_block(out, body)?;
            add_block(out, handler)?;
        }
        StmtKind::Spmd(workers, body) => {
            if let Some(workers) = workers {
                add_expr(out, workers)?;
            }
            add_block(out, body)?;
        }
        StmtKind::Break | StmtKind::Continue | StmtKind::Return => {}
    }
    Ok(())
}

/// Adds the names of statements.
#[cycle(blocks)]
pub(crate) fn add_block(out: &mut Vec<Occurrence>, body: &Items<Stmt>) -> Result<(), NoMemory>
    ensures { OnOk result (out.new.items ≡ out.old.items ++ of_block body.now) }
{
    for s in body.as_slice() {
        add_stmt(out, s)?;
    }
    Ok(())
}

/// Adds the names of tests and of what they guard.
#[cycle(blocks)]
fn add_arms(out: &mut Vec<Occurrence>, arms: &Items<Arm>) -> Result<(), NoMemory>
    ensures { OnOk result (out.new.items ≡ out.old.items ++ of_arms arms.now) }
{
    for arm in arms.as_slice() {
        add_expr(out, &arm.test)?;
        add_block(out, &arm.body)?;
    }
    Ok(())
}
