//! The trees of operands, and what an operator makes of its last operand.

ghost use Rattle.std.specs.Prelude.{◌≡◌, ◌+◌, min, max, map, IfOk};
ghost use Rattle.pl_frames.specs.Trees as spec;

use crate::operand::{Callee, Element, Form, Mark, Op, Operand, SignAt};
use crate::pile::Pile;
use pl_base::{NoMemory, Place, Seq, Text};
use pl_syntax::{Bin, Expr, ExprKind, Name, Target, Un};
use sqlite_items::{Boxed, Items};
use std::alloc::Global;

/// Where heights stop; any number past the limit on nesting serves.
const TOP: usize = 1000;

/// A sum that stops at 1000.
pub fn plus(a: usize, b: usize) -> usize
    ensures { result ≡ spec.plus a b }
{
    a.saturating_add(b).min(TOP)
}

/// The tree of a target that stands where it is read.
fn target_tree(target: Target) -> Expr
    ensures { result ≡ spec.target_tree target }
{
    match target {
        Target::Whole(name) => {
            let place = name.place;
            let kind = ExprKind::Var(name);
            Expr { kind, place }
        }
        Target::Indexed(name, list) => {
            let place = name.place;
            let kind = ExprKind::Apply(name, list);
            Expr { kind, place }
        }
        Target::Braced(name, inside) => {
            let place = name.place;
            let kind = ExprKind::Brace(name, inside, None);
            Expr { kind, place }
        }
    }
}

/// A sign over an operand.
fn unary(alloc: Global, sign: Un, place: Place, tree: Expr) -> Result<Expr, NoMemory>
    ensures { IfOk result (λ e. e ≡ spec.unary sign place tree) }
{
    let kind = ExprKind::Unary(sign, Boxed::new(alloc, tree)?);
    Ok(Expr { kind, place })
}

/// `~` over an operand, once for each mark, the first innermost.
fn negated(alloc: Global, marks: &[Mark], tree: Expr) -> Result<Expr, NoMemory>
    ensures { IfOk result (λ e. e ≡ spec.negated marks.now tree) }
{
    let mut tree = tree;
    for mark in marks {
        tree = unary(alloc, Un::Not, mark.place, tree)?;
    }
    Ok(tree)
}

/// The tree of an element.
fn element_tree(alloc: Global, element: Element) -> Result<Expr, NoMemory>
    ensures { IfOk result (λ e. e ≡ spec.element_tree element) }
{
    match element {
        Element::Outputs(marks, target) => {
            let tree = target_tree(target);
            negated(alloc, marks.as_slice(), tree)
        }
        Element::Tree(tree) => Ok(tree),
    }
}

/// The trees of a row.
pub fn row_trees(alloc: Global, elements: Seq<Element>) -> Result<Items<Expr>, NoMemory>
    ensures { IfOk result (λ es. es ≡ map spec.element_tree elements) }
{
    let mut trees = Items::new(alloc);
    for element in elements.into_vec() {
        trees.push(element_tree(alloc, element)?)?;
    }
    Ok(trees)
}

/// The tree of an operand whose first terminal is at this place.
fn form_tree(alloc: Global, form: Form, place: Place) -> Result<Expr, NoMemory>
    ensures { IfOk result (λ e. e ≡ spec.form_tree form place) }
{
    match form {
        Form::Target(target) => Ok(target_tree(target)),
        Form::Dotted(name) => Ok(target_tree(Target::Whole(name))),
        Form::Skips(marks, target) => {
            let tree = target_tree(target);
            negated(alloc, marks.as_slice(), tree)
        }
        Form::Nothing => {
            let kind = ExprKind::Rows(Items::new(alloc));
            Ok(Expr { kind, place })
        }
        Form::Row(elements) => {
            let mut rows = Items::new(alloc);
            rows.push(row_trees(alloc, elements)?)?;
            let kind = ExprKind::Rows(rows);
            Ok(Expr { kind, place })
        }
        Form::Tree(tree) => Ok(tree),
    }
}

pub fn tree(alloc: Global, operand: Operand) -> Result<Expr, NoMemory>
    ensures { IfOk result (λ e. e ≡ spec.tree operand) }
{
    form_tree(alloc, operand.form, operand.mark.place)
}

/// The signs of a right operand over it, the innermost on top.
fn under_signs(alloc: Global, signs: Pile<SignAt>, tree: Expr) -> Result<Expr, NoMemory>
    ensures { IfOk result (λ e. e ≡ spec.under_signs signs tree) }
{
    let mut signs = signs;
    let mut tree = tree;
    while let Some(at) = signs.pop() {
        tree = unary(alloc, at.sign, at.place, tree)?;
    }
    Ok(tree)
}

/// An operand that is only a tree.
pub fn plain(tree: Expr, mark: Mark, height: usize) -> Operand
    ensures { result ≡ spec.plain tree mark height }
{
    let form = Form::Tree(tree);
    Operand { form, mark, height }
}

/// `~` over what may be outputs.
fn skip(alloc: Global, mark: Mark, form: Form, gap: bool, place: Place) -> Result<Form, NoMemory>
    ensures { IfOk result (λ f. f ≡ spec.skip mark form gap place) }
{
    match form {
        Form::Target(target) if gap => {
            let mut marks = Items::new(alloc);
            marks.push(mark)?;
            Ok(Form::Skips(marks, target))
        }
        Form::Skips(marks, target) if gap => {
            let mut marks = marks;
            marks.push(mark)?;
            Ok(Form::Skips(marks, target))
        }
        form => {
            let tree = form_tree(alloc, form, place)?;
            let tree = unary(alloc, Un::Not, mark.place, tree)?;
            Ok(Form::Tree(tree))
        }
    }
}

/// A sign over a form.
fn sign_form(alloc: Global, mark: Mark, sign: Un, form: Form, own: Mark) -> Result<Form, NoMemory>
    ensures { IfOk result (λ f. f ≡ spec.sign_form mark sign form own.gap own.place) }
{
    match sign {
        Un::Not => skip(alloc, mark, form, own.gap, own.place),
        _ => {
            let tree = form_tree(alloc, form, own.place)?;
            let tree = unary(alloc, sign, mark.place, tree)?;
            Ok(Form::Tree(tree))
        }
    }
}

/// A sign before an operand, with it.
fn signed(alloc: Global, mark: Mark, sign: Un, operand: Operand) -> Result<Operand, NoMemory>
    ensures { IfOk result (λ e. e ≡ spec.signed mark sign operand) }
{
    let height = plus(1, operand.height);
    let own = operand.mark;
    let form = sign_form(alloc, mark, sign, operand.form, own)?;
    Ok(Operand { form, mark, height })
}

/// The tree of a right operand with its signs.
fn right_tree(alloc: Global, signs: Pile<SignAt>, right: Operand) -> Result<Expr, NoMemory>
    ensures { IfOk result (λ e. e ≡ spec.under_signs signs (spec.tree right)) }
{
    let right = tree(alloc, right)?;
    under_signs(alloc, signs, right)
}

/// The tree of an operand, in a box.
fn boxed_tree(alloc: Global, operand: Operand) -> Result<Boxed<Expr>, NoMemory>
    ensures { IfOk result (λ e. e ≡ spec.tree operand) }
{
    let tree = tree(alloc, operand)?;
    Ok(Boxed::new(alloc, tree)?)
}

/// The tree of a right operand with its signs, in a box.
fn boxed_right(alloc: Global, signs: Pile<SignAt>, right: Operand) -> Result<Boxed<Expr>, NoMemory>
    ensures { IfOk result (λ e. e ≡ spec.under_signs signs (spec.tree right)) }
{
    let tree = right_tree(alloc, signs, right)?;
    Ok(Boxed::new(alloc, tree)?)
}

fn binary(op: Bin, place: Place, left: Boxed<Expr>, right: Boxed<Expr>) -> Expr
    ensures { result ≡ spec.binary op place left right }
{
    let kind = ExprKind::Binary(op, left, right);
    Expr { kind, place }
}

/// An operator of two operands, with both.
fn joined(
    alloc: Global,
    left: Operand,
    op: Bin,
    place: Place,
    signs: Pile<SignAt>,
    right: Operand,
) -> Result<Operand, NoMemory>
    ensures { IfOk result (λ e. e ≡ spec.joined left op place signs right) }
{
    let weight = plus(1, signs.elements().len());
    let height = plus(1, left.height).max(plus(weight, right.height));
    let mark = left.mark;
    let right = boxed_right(alloc, signs, right)?;
    let left = boxed_tree(alloc, left)?;
    Ok(plain(binary(op, place, left, right), mark, height))
}

/// Where a range begins and where it ends, in boxes.
#[derive(Drop)]
struct Ends {
    from: Boxed<Expr>,
    to: Boxed<Expr>,
}

fn ends_of(alloc: Global, from: Operand, to: Operand) -> Result<Ends, NoMemory>
    ensures from { IfOk result (λ ends. ends.from ≡ spec.tree from) }
    ensures to { IfOk result (λ ends. ends.to ≡ spec.tree to) }
{
    let from = boxed_tree(alloc, from)?;
    let to = boxed_tree(alloc, to)?;
    Ok(Ends { from, to })
}

fn range(place: Place, ends: Ends, step: Option<Boxed<Expr>>) -> Expr
    ensures { result ≡ spec.range place ends.from step ends.to }
{
    let Ends { from, to } = ends;
    let kind = ExprKind::Range(from, step, to);
    Expr { kind, place }
}

fn range_tree(
    alloc: Global,
    place: Place,
    from: Operand,
    step: Option<Operand>,
    to: Operand,
) -> Result<Expr, NoMemory>
    ensures { IfOk result (λ e. e ≡ spec.range place (spec.tree from) (spec.step_tree step) (spec.tree to)) }
{
    let step = step_tree(alloc, step)?;
    let ends = ends_of(alloc, from, to)?;
    Ok(range(place, ends, step))
}

/// A range, with its step or none.
fn ranged(
    alloc: Global,
    from: Operand,
    place: Place,
    step: Option<Operand>,
    to: Operand,
) -> Result<Operand, NoMemory>
    ensures { IfOk result (λ e. e ≡ spec.ranged from place step to) }
{
    let mark = from.mark;
    let low = from.height.max(step_height(&step));
    let height = plus(1, low).max(plus(1, to.height));
    let tree = range_tree(alloc, place, from, step, to)?;
    Ok(plain(tree, mark, height))
}

fn step_tree(alloc: Global, step: Option<Operand>) -> Result<Option<Boxed<Expr>>, NoMemory>
    ensures { IfOk result (λ e. e ≡ spec.step_tree step) }
{
    match step {
        None => Ok(None),
        Some(step) => Ok(Some(boxed_tree(alloc, step)?)),
    }
}

fn step_height(step: &Option<Operand>) -> usize
    ensures { result ≡ spec.step_height step.now }
{
    match step {
        None => 0,
        Some(step) => step.height,
    }
}

/// An operator takes its last operand.
#[tactic(auto, unfolding(crate::specs::Trees::under))]
pub fn under(alloc: Global, op: Op, operand: Operand) -> Result<Operand, NoMemory>
    ensures { IfOk result (λ e. e ≡ spec.under op operand) }
{
    match op {
        Op::Joined(left, op, place, signs) => joined(alloc, left, op, place, signs, operand),
        Op::Signed(mark, sign) => signed(alloc, mark, sign, operand),
        Op::From(from, place) => ranged(alloc, from, place, None, operand),
        Op::Stepped(from, place, step) => ranged(alloc, from, place, Some(step), operand),
    }
}

fn call_form(callee: Callee, list: Items<Expr>) -> Form
    ensures { result ≡ spec.call_form callee list }
{
    match callee {
        Callee::Alone(name) => Form::Target(Target::Indexed(name, list)),
        Callee::Dotted(name) => {
            let place = name.place;
            let kind = ExprKind::Apply(name, list);
            Form::Tree(Expr { kind, place })
        }
        Callee::Braced(name, inside) => {
            let place = name.place;
            let kind = ExprKind::Brace(name, inside, Some(list));
            Form::Tree(Expr { kind, place })
        }
    }
}

/// A list behind a callee, with it.
pub fn call(callee: Callee, mark: Mark, height: usize, list: Items<Expr>) -> Operand
    ensures { result ≡ spec.call callee mark height list }
{
    let form = call_form(callee, list);
    Operand { form, mark, height }
}

/// The name itself, where it stands alone.
pub fn name_at(text: Text, mark: Mark) -> Operand
    ensures { result ≡ spec.name_at text mark }
{
    let place = mark.place;
    let form = Form::Target(Target::Whole(Name { text, place }));
    let height = 0;
    Operand { form, mark, height }
}
