//! The form of loop over workers that is built: a body of assignments to parts of variables by the loop's index.

ghost use Rattle.std.specs.Prelude.{◌≡◌, map, option_map, is_some, IfOk};
ghost use Rattle.std.specs.List.{list_all};
ghost use Rattle.pl_meaning.specs.Names.{slot_of as slot_named};
ghost use Rattle.pl_meaning.specs.Known.{known_of};
ghost use Rattle.pl_meaning.specs.Parts.{written_in};
ghost use Rattle.pl_meaning.specs.Forms.{is_among, all_fit as all_read_fit, step_fits as step_read_fits, is_plain as is_plain_known, stands as stands_for, read_of, is_own_place as is_own_place_in, is_item as is_item_in, is_form as is_of_form};

use crate::body::{Body, written_names};
use pl_base::{NoMemory, Text};
use pl_meaning::{Frame, Known, function_of, slot_of};
use pl_resolve::Resolved;
use pl_syntax::{Expr, ExprKind, Name, Stmt, StmtKind, Target};
use sqlite_items::{Boxed, Items};
use std::alloc::Global;

/// Whether a name stands for a variable of the frame's scope.
fn is_variable(program: &Resolved, frame: Frame, name: &Text) -> bool
    ensures { result ≡ is_some (slot_named program.now frame name.now) }
{
    slot_of(program, frame, name).is_some()
}

/// Whether a name stands for a function of the library that calls no other.
fn is_plain(name: &Text) -> bool
    ensures { result ≡ is_plain_known (known_of name.now) }
{
    match Known::of(name.bytes()) {
        None => false,
        Some(f) => !f.is_feval(),
    }
}

/// Whether a name stands for a variable, or for a function of the library that calls no other.
fn stands(program: &Resolved, frame: Frame, n: &Name) -> bool
    ensures { result ≡ stands_for program.now frame n.now }
{
    is_variable(program, frame, &n.text)
        || (function_of(program, &n.text).is_none() && is_plain(&n.text))
}

/// Whether a body writes parts of a variable.
fn is_written(body: &Body<'_>, n: &Name) -> bool
    ensures { result ≡ is_among (written_in body.now.items.now) n.now }
{
    body.written.contains(&n.text)
}

/// Whether an expression is the loop's index alone.
fn is_index(body: &Body<'_>, e: &Expr) -> bool
    ensures { result ≡ (read_of body.now.program.now body.now.frame body.now.index.now (written_in body.now.items.now) e.now).is_index }
{
    match &e.kind {
        ExprKind::Var(n) => n.text == body.index.text,
        ExprKind::Number(_) | ExprKind::Chars(_) | ExprKind::End | ExprKind::Colon => false,
        ExprKind::Func(_) | ExprKind::Apply(_, _) => false,
        ExprKind::Brace(_, _, _) | ExprKind::StateOf(_) | ExprKind::Rows(_) => false,
        ExprKind::Unary(_, _) | ExprKind::Binary(_, _, _) | ExprKind::Range(_, _, _) => false,
    }
}

/// Whether an index list is the loop's index alone.
fn is_own_place(body: &Body<'_>, list: &Items<Expr>) -> bool
    ensures { result ≡ is_own_place_in body.now.program.now body.now.frame body.now.index.now (written_in body.now.items.now) list.now }
{
    let Some((first, more)) = list.as_slice().split_first() else {
        return false;
    };
    more.is_empty() && is_index(body, first)
}

/// Whether an expression of a body has the form.
#[cycle(reading)]
fn fits(body: &Body<'_>, e: &Expr) -> bool
    ensures { result ≡ (read_of body.now.program.now body.now.frame body.now.index.now (written_in body.now.items.now) e.now).fits }
{
    match &e.kind {
        ExprKind::Number(_) | ExprKind::Chars(_) | ExprKind::End | ExprKind::Colon => true,
        ExprKind::Var(n) => stands(body.program, body.frame, n) && !is_written(body, n),
        ExprKind::Apply(n, list) => {
            stands(body.program, body.frame, n)
                && if is_written(body, n) {
                    is_own_place(body, list)
                } else {
                    all_fit(body, list)
                }
        }
        ExprKind::Unary(_, a) => fits(body, a.get()),
        ExprKind::Binary(_, a, b) => fits(body, a.get()) && fits(body, b.get()),
        ExprKind::Range(first, step, last) => {
            fits(body, first.get()) && step_fits(body, step) && fits(body, last.get())
        }
        ExprKind::Rows(rows) => {
            for row in rows.as_slice() {
                if !all_fit(body, row) {
                    return false;
                }
            }
            true
        }
        ExprKind::Brace(_, _, _) | ExprKind::Func(_) | ExprKind::StateOf(_) => false,
    }
}

/// Whether the step of a range has the form, if there is one.
#[cycle(reading)]
fn step_fits(body: &Body<'_>, step: &Option<Boxed<Expr>>) -> bool
    ensures { result ≡ step_read_fits (option_map (read_of body.now.program.now body.now.frame body.now.index.now (written_in body.now.items.now)) step.now) }
{
    match step {
        None => true,
        Some(e) => fits(body, e.get()),
    }
}

/// Whether all of a list have the form.
#[cycle(reading)]
fn all_fit(body: &Body<'_>, list: &Items<Expr>) -> bool
    ensures { result ≡ all_read_fit (map (read_of body.now.program.now body.now.frame body.now.index.now (written_in body.now.items.now)) list.now) }
{
    for e in list.as_slice() {
        if !fits(body, e) {
            return false;
        }
    }
    true
}

/// Whether a statement of a body is such an assignment.
fn is_item(body: &Body<'_>, s: &Stmt) -> bool
    ensures { result ≡ is_item_in body.now.program.now body.now.frame body.now.index.now (written_in body.now.items.now) s.now }
{
    match &s.kind {
        StmtKind::Assign(Target::Indexed(n, list), e) => {
            !s.show
                && is_variable(body.program, body.frame, &n.text)
                && n.text != body.index.text
                && is_own_place(body, list)
                && fits(body, e)
        }
        StmtKind::Assign(Target::Whole(_), _) | StmtKind::Assign(Target::Braced(_, _), _) => false,
        StmtKind::Eval(_) | StmtKind::AssignList(_, _) | StmtKind::Delete(_, _) => false,
        StmtKind::If(_, _) | StmtKind::While(_, _) | StmtKind::For(_, _, _) => false,
        StmtKind::Parfor(_, _, _, _) | StmtKind::Spmd(_, _) => false,
        StmtKind::Switch(_, _, _) | StmtKind::Try(_, _) => false,
        StmtKind::Break | StmtKind::Continue | StmtKind::Return => false,
    }
}

/// Whether all statements of a body are such assignments.
fn all_items(body: &Body<'_>) -> bool
    ensures { result ≡ list_all (is_item_in body.now.program.now body.now.frame body.now.index.now (written_in body.now.items.now)) body.now.items.now }
{
    for s in body.items.as_slice() {
        if !is_item(body, s) {
            return false;
        }
    }
    true
}

/// Whether a loop's body has the form, where its statements stand in this frame.
pub fn is_form(
    alloc: Global,
    program: &Resolved,
    frame: Frame,
    index: &Name,
    items: &Items<Stmt>,
) -> Result<bool, NoMemory>
    ensures { IfOk result (λ has. has ≡ is_of_form program.now frame index.now items.now) }
{
    if !is_variable(program, frame, &index.text) {
        return Ok(false);
    }
    let body = Body {
        program,
        frame,
        index,
        items,
        written: written_names(alloc, items)?,
    };
    Ok(all_items(&body))
}
