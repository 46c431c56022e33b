//! Nodes that nothing carries out yet.

ghost use Rattle.std.specs.Prelude.{◌≡◌, ◌++◌, OnOk, IfOk};
ghost use Rattle.pl_unbuilt.specs.Nodes.{of_expr, of_exprs, of_target, of_targets, of_workers, is_between as is_between_two, of_arms, of_stmt, of_block, frame_of, of_functions, of_program};

use pl_base::{NoMemory, Place};
use pl_forms::is_form;
use pl_meaning::Frame;
use pl_resolve::Resolved;
use pl_syntax::{Arm, Expr, ExprKind, Stmt, StmtKind, Target};
use sqlite_items::Items;
use std::alloc::Global;

/// Adds the nodes of an expression.
#[cycle(walking)]
fn add_expr(out: &mut Vec<Place>, e: &Expr) -> Result<(), NoMemory>
    ensures { OnOk result (out.new.items ≡ out.old.items ++ of_expr e.now) }
{
    match &e.kind {
        ExprKind::Number(_) | ExprKind::Chars(_) | ExprKind::End | ExprKind::Colon => Ok(()),
        ExprKind::Var(_) | ExprKind::Func(_) => Ok(()),
        ExprKind::Apply(_, list) => {
            add_exprs(out, list)?;
            Ok(())
        }
        ExprKind::Brace(_, place, list) => {
            out.push(e.place)?;
            add_expr(out, place.get())?;
            if let Some(list) = list {
                add_exprs(out, list)?;
            }
            Ok(())
        }
        ExprKind::Unary(_, a) => add_expr(out, a.get()),
        ExprKind::Binary(_, a, b) => {
            add_expr(out, a.get())?;
            add_expr(out, b.get())?;
            Ok(())
        }
        ExprKind::Range(first, step, last) => {
            add_expr(out, first.get())?;
            if let Some(step) = step {
                add_expr(out, step.get())?;
            }
            add_expr(out, last.get())?;
            Ok(())
        }
        ExprKind::Rows(rows) => {
            for row in rows.as_slice() {
                add_exprs(out, row)?;
            }
            Ok(())
        }
        ExprKind::StateOf(a) => {
            out.push(e.place)?;
            add_expr(out, a.get())?;
            Ok(())
        }
    }
}

/// Adds the nodes of a list of expressions.
#[cycle(walking)]
fn add_exprs(out: &mut Vec<Place>, list: &Items<Expr>) -> Result<(), NoMemory>
    ensures { OnOk result (out.new.items ≡ out.old.items ++ of_exprs list.now) }
{
    for e in list.as_slice() {
        add_expr(out, e)?;
    }
    Ok(())
}

/// Adds the nodes of a target.
fn add_target(out: &mut Vec<Place>, target: &Target) -> Result<(), NoMemory>
    ensures { OnOk result (out.new.items ≡ out.old.items ++ of_target target.now) }
{
    match target {
        Target::Whole(_) => Ok(()),
        Target::Indexed(_, list) => {
            add_exprs(out, list)?;
            Ok(())
        }
        Target::Braced(name, place) => {
            out.push(name.place)?;
            add_expr(out, place.get())?;
            Ok(())
        }
    }
}

/// Adds the nodes of an output list.
fn add_targets(out: &mut Vec<Place>, list: &Items<Option<Target>>) -> Result<(), NoMemory>
    ensures { OnOk result (out.new.items ≡ out.old.items ++ of_targets list.now) }
{
    for target in list.as_slice() {
        if let Some(target) = target {
            add_target(out, target)?;
        }
    }
    Ok(())
}

/// Whether a range goes from one number to another in steps of 1.
fn is_between(range: &Expr) -> bool
    ensures { result ≡ is_between_two range.now }
{
    match &range.kind {
        ExprKind::Range(_, step, _) => step.is_none(),
        ExprKind::Number(_) | ExprKind::Chars(_) | ExprKind::End | ExprKind::Colon => false,
        ExprKind::Var(_) | ExprKind::Func(_) | ExprKind::Apply(_, _) => false,
        ExprKind::Brace(_, _, _) | ExprKind::StateOf(_) | ExprKind::Rows(_) => false,
        ExprKind::Unary(_, _) | ExprKind::Binary(_, _, _) => false,
    }
}

/// Adds the nodes of a loop over workers, whose body is of the form that is built or isn't.
fn add_workers(
    out: &mut Vec<Place>,
    range: &Expr,
    most: &Option<Expr>,
    fits: bool,
    place: Place,
) -> Result<(), NoMemory>
    ensures { OnOk result (out.new.items ≡ out.old.items ++ of_workers range.now most.now fits place) }
{
    if most.is_none() && is_between(range) && fits {
        add_expr(out, range)?;
    } else {
        out.push(place)?;
    }
    Ok(())
}

/// Adds the nodes of a statement.
#[cycle(blocks)]
fn add_stmt(
    alloc: Global,
    out: &mut Vec<Place>,
    program: &Resolved,
    frame: Frame,
    s: &Stmt,
) -> Result<(), NoMemory>
    ensures { OnOk result (out.new.items ≡ out.old.items ++ of_stmt program.now frame s.now) }
{
    match &s.kind {
        StmtKind::Eval(e) => add_expr(out, e)?,
        StmtKind::Assign(target, e) => {
            add_target(out, target)?;
            add_expr(out, e)?;
        }
        StmtKind::AssignList(targets, e) => {
            add_targets(out, targets)?;
            add_expr(out, e)?;
        }
        StmtKind::Delete(_, list) => add_exprs(out, list)?,
        StmtKind::If(arms, last) => {
            add_arms(alloc, out, program, frame, arms)?;
            add_block(alloc, out, program, frame, last)?;
        }
        StmtKind::While(test, body) => {
            add_expr(out, test)?;
            add_block(alloc, out, program, frame, body)?;
        }
        StmtKind::For(_, range, body) => {
            add_expr(out, range)?;
            add_block(alloc, out, program, frame, body)?;
        }
        StmtKind::Parfor(index, range, most, body) => {
            let fits = is_form(alloc, program, frame, index, body)?;
            add_workers(out, range, most, fits, s.place)?;
        }
        StmtKind::Spmd(_, _) => out.push(s.place)?,
        StmtKind::Switch(value, cases, last) => {
            add_expr(out, value)?;
            add_arms(alloc, out, program, frame, cases)?;
            add_block(alloc, out, program, frame, last)?;
        }
        StmtKind::Try(body, handler) => {
            add_block(alloc, out, program, frame, body)?;
            add_block(alloc, out, program, frame, handler)?;
        }
        StmtKind::Break | StmtKind::Continue | StmtKind::Return => {}
    }
    Ok(())
}

/// Adds the nodes of statements.
#[cycle(blocks)]
fn add_block(
    alloc: Global,
    out: &mut Vec<Place>,
    program: &Resolved,
    frame: Frame,
    body: &Items<Stmt>,
) -> Result<(), NoMemory>
    ensures { OnOk result (out.new.items ≡ out.old.items ++ of_block program.now frame body.now) }
{
    for s in body.as_slice() {
        add_stmt(alloc, out, program, frame, s)?;
    }
    Ok(())
}

/// Adds the nodes of tests and of what they guard.
#[cycle(blocks)]
fn add_arms(
    alloc: Global,
    out: &mut Vec<Place>,
    program: &Resolved,
    frame: Frame,
    arms: &Items<Arm>,
) -> Result<(), NoMemory>
    ensures { OnOk result (out.new.items ≡ out.old.items ++ of_arms program.now frame arms.now) }
{
    for arm in arms.as_slice() {
        add_expr(out, &arm.test)?;
        add_block(alloc, out, program, frame, &arm.body)?;
    }
    Ok(())
}

/// Adds the nodes of the statements of a scope.
fn add_scope(
    alloc: Global,
    out: &mut Vec<Place>,
    program: &Resolved,
    scope: usize,
    body: &Items<Stmt>,
) -> Result<(), NoMemory>
    ensures { OnOk result (out.new.items ≡ out.old.items ++ of_block program.now (frame_of scope) body.now) }
{
    let frame = Frame {
        client: false,
        scope,
        given: 0,
        wanted: 0,
        ends: None,
    };
    add_block(alloc, out, program, frame, body)
}

/// Adds the nodes of functions.
fn add_functions(alloc: Global, out: &mut Vec<Place>, program: &Resolved) -> Result<(), NoMemory>
    ensures { OnOk result (out.new.items ≡ out.old.items ++ of_functions program.now 1 program.now.program.functions) }
{
    for (i, function) in program.program.functions.as_slice().iter().enumerate() {
        add_scope(alloc, out, program, i + 1, &function.body)?;
    }
    Ok(())
}

/// The nodes of a program, in the order of the text.
pub(crate) fn nodes(alloc: Global, program: &Resolved) -> Result<Vec<Place>, NoMemory>
    ensures { IfOk result (λ v. v.items ≡ of_program program.now) }
{
    let mut out = Vec::new(alloc);
    add_scope(alloc, &mut out, program, 0, &program.program.body)?;
    add_functions(alloc, &mut out, program)?;
    Ok(out)
}
