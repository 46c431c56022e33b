//! Expressions, with parentheses only where an operand binds too loosely without.

ghost use Rattle.std.specs.Prelude.{◌≡◌, option_map, OnOk};
ghost use Rattle.pl_grammar.specs.Words as words;
ghost use Rattle.pl_printing.specs.Canonical.{as_tight, shown, all_shown, expr_words, list_words, in_brackets, in_braces, perhaps_step, right_of, unary};
ghost use Rattle.pl_print.specs.Pages.{Writes, row_words, func_words, state_words};

use crate::dots::head;
use crate::page::{Page, Sign};
use pl_base::NoMemory;
use pl_grammar::Keyword;
use pl_syntax::{Bin, Expr, ExprKind, Name, Un};
use sqlite_items::{Boxed, Items};

/// How tightly an operator of two operands binds.
fn level(operator: Bin) -> usize
    ensures { result ≡ words.level operator }
{
    match operator {
        Bin::OrElse => 1,
        Bin::AndAlso => 2,
        Bin::Or => 3,
        Bin::And => 4,
        Bin::Lt | Bin::Le | Bin::Gt | Bin::Ge | Bin::Eq | Bin::Ne => 5,
        Bin::Add | Bin::Sub => 7,
        Bin::Mul | Bin::Div | Bin::DotMul | Bin::DotDiv => 8,
        Bin::Pow | Bin::DotPow => 10,
    }
}

/// Whether an operator is a power, whose right operand has its signs without parentheses.
fn is_power(operator: Bin) -> bool
    ensures { result ≡ words.is_power operator }
{
    level(operator) == 10
}

/// How tightly an expression binds.
fn bind(e: &Expr) -> usize
    ensures { result ≡ (shown e.now).bind }
{
    match &e.kind {
        ExprKind::Number(_) | ExprKind::Chars(_) | ExprKind::Var(_) | ExprKind::Apply(_, _) => 11,
        ExprKind::Brace(_, _, _) | ExprKind::Rows(_) | ExprKind::Func(_) => 11,
        ExprKind::End | ExprKind::Colon | ExprKind::StateOf(_) => 11,
        ExprKind::Unary(Un::Transpose, _) => 10,
        ExprKind::Unary(Un::Plus, _) | ExprKind::Unary(Un::Minus, _) => 9,
        ExprKind::Unary(Un::Not, _) => 9,
        ExprKind::Binary(operator, _, _) => level(*operator),
        ExprKind::Range(_, _, _) => 6,
    }
}

/// A function's name behind `@`.
fn func(page: &mut Page, gap: bool, name: &Name) -> Result<(), NoMemory>
    ensures { OnOk result (Writes page.old page.new (func_words name.now gap)) }
{
    page.sign(gap, Sign::At)?;
    page.name(false, &name.text)?;
    Ok(())
}

/// The `.State` behind a future.
fn state(page: &mut Page) -> Result<(), NoMemory>
    ensures { OnOk result (Writes page.old page.new state_words) }
{
    page.sign(false, Sign::Dot)?;
    page.part(false, b"State")?;
    Ok(())
}

/// An expression.
#[cycle(printing)]
pub fn expr(page: &mut Page, gap: bool, e: &Expr) -> Result<(), NoMemory>
    ensures { OnOk result (Writes page.old page.new (expr_words e.now gap)) }
{
    match &e.kind {
        ExprKind::Number(number) => page.number(gap, *number),
        ExprKind::Chars(text) => page.chars(gap, text),
        ExprKind::Var(name) => head(page, gap, &name.text),
        ExprKind::Func(name) => func(page, gap, name),
        ExprKind::End => page.key(gap, Keyword::End),
        ExprKind::Colon => page.sign(gap, Sign::Colon),
        ExprKind::Apply(name, list) => {
            head(page, gap, &name.text)?;
            arguments(page, list)?;
            Ok(())
        }
        ExprKind::Brace(name, place, list) => {
            page.name(gap, &name.text)?;
            braces(page, place.get())?;
            match list {
                None => Ok(()),
                Some(list) => arguments(page, list),
            }
        }
        ExprKind::Unary(operator, a) => unary(page, gap, *operator, a.get()),
        ExprKind::Binary(operator, a, b) => {
            tight(page, level(*operator), gap, a.get())?;
            page.operator(*operator)?;
            right(page, *operator, b.get())?;
            Ok(())
        }
        ExprKind::Range(first, step, last) => {
            tight(page, 7, gap, first.get())?;
            page.sign(false, Sign::Colon)?;
            stepped(page, step)?;
            tight(page, 7, false, last.get())?;
            Ok(())
        }
        ExprKind::Rows(rows) => {
            page.sign(gap, Sign::OpenSquare)?;
            let mut is_first = true;
            for es in rows.as_slice() {
                row(page, is_first, es)?;
                is_first = false;
            }
            page.sign(false, Sign::CloseSquare)?;
            Ok(())
        }
        ExprKind::StateOf(a) => {
            stated(page, gap, a.get())?;
            state(page)?;
            Ok(())
        }
    }
}

/// An operator of one operand, and the operand.
#[cycle(printing)]
fn unary(page: &mut Page, gap: bool, operator: Un, a: &Expr) -> Result<(), NoMemory>
    ensures { OnOk result (Writes page.old page.new ((unary operator (shown a.now)).words gap)) }
{
    match operator {
        Un::Plus => {
            page.sign(gap, Sign::Plus)?;
            tight(page, 9, false, a)?;
            Ok(())
        }
        Un::Minus => {
            page.sign(gap, Sign::Minus)?;
            tight(page, 9, false, a)?;
            Ok(())
        }
        Un::Not => {
            page.sign(gap, Sign::Not)?;
            tight(page, 9, false, a)?;
            Ok(())
        }
        Un::Transpose => {
            tight(page, 10, gap, a)?;
            page.sign(false, Sign::Quote)?;
            Ok(())
        }
    }
}

/// The right operand of an operator.
#[cycle(printing)]
fn right(page: &mut Page, operator: Bin, e: &Expr) -> Result<(), NoMemory>
    ensures { OnOk result (Writes page.old page.new (right_of operator (shown e.now))) }
{
    if is_power(operator) {
        raised(page, true, e)
    } else {
        tight(page, level(operator) + 1, true, e)
    }
}

/// The step of a range and its colon, or nothing.
#[cycle(printing)]
fn stepped(page: &mut Page, step: &Option<Boxed<Expr>>) -> Result<(), NoMemory>
    ensures { OnOk result (Writes page.old page.new (perhaps_step (option_map shown step.now))) }
{
    match step {
        None => Ok(()),
        Some(step) => {
            tight(page, 7, false, step.get())?;
            page.sign(false, Sign::Colon)?;
            Ok(())
        }
    }
}

/// An operand that has to bind so tightly: in parentheses where it doesn't.
#[cycle(printing)]
fn tight(page: &mut Page, least: usize, gap: bool, e: &Expr) -> Result<(), NoMemory>
    ensures { OnOk result (Writes page.old page.new (as_tight least (shown e.now) gap)) }
{
    if least <= bind(e) {
        return expr(page, gap, e);
    }
    page.sign(gap, Sign::Open)?;
    expr(page, false, e)?;
    page.sign(false, Sign::Close)?;
    Ok(())
}

/// The right operand of a power: its signs need no parentheses.
#[cycle(printing)]
fn raised(page: &mut Page, gap: bool, e: &Expr) -> Result<(), NoMemory>
    ensures { OnOk result (Writes page.old page.new ((shown e.now).raised gap)) }
{
    match &e.kind {
        ExprKind::Unary(Un::Plus, a) => {
            page.sign(gap, Sign::Plus)?;
            raised(page, false, a.get())?;
            Ok(())
        }
        ExprKind::Unary(Un::Minus, a) => {
            page.sign(gap, Sign::Minus)?;
            raised(page, false, a.get())?;
            Ok(())
        }
        ExprKind::Unary(Un::Not, a) => {
            page.sign(gap, Sign::Not)?;
            raised(page, false, a.get())?;
            Ok(())
        }
        ExprKind::Unary(Un::Transpose, _) | ExprKind::Binary(_, _, _) => tight(page, 11, gap, e),
        ExprKind::Range(_, _, _) | ExprKind::Number(_) | ExprKind::Chars(_) => {
            tight(page, 11, gap, e)
        }
        ExprKind::Var(_) | ExprKind::Apply(_, _) | ExprKind::Brace(_, _, _) => {
            tight(page, 11, gap, e)
        }
        ExprKind::Rows(_) | ExprKind::Func(_) | ExprKind::End => tight(page, 11, gap, e),
        ExprKind::Colon | ExprKind::StateOf(_) => tight(page, 11, gap, e),
    }
}

/// What stands before `.State`, where no name has dots.
#[cycle(printing)]
fn stated(page: &mut Page, gap: bool, e: &Expr) -> Result<(), NoMemory>
    ensures { OnOk result (Writes page.old page.new ((shown e.now).stated gap)) }
{
    match &e.kind {
        ExprKind::Var(name) => page.name(gap, &name.text),
        ExprKind::Apply(name, list) => {
            page.name(gap, &name.text)?;
            arguments(page, list)?;
            Ok(())
        }
        ExprKind::Unary(_, _) | ExprKind::Binary(_, _, _) => expr(page, gap, e),
        ExprKind::Range(_, _, _) | ExprKind::Number(_) | ExprKind::Chars(_) => expr(page, gap, e),
        ExprKind::Brace(_, _, _) | ExprKind::Rows(_) | ExprKind::Func(_) => expr(page, gap, e),
        ExprKind::End | ExprKind::Colon | ExprKind::StateOf(_) => expr(page, gap, e),
    }
}

/// Expressions with commas between them.
#[cycle(printing)]
fn list(page: &mut Page, gap: bool, list: &Items<Expr>) -> Result<(), NoMemory>
    ensures { OnOk result (Writes page.old page.new (list_words (all_shown list.now) gap)) }
{
    let Some((first, more)) = list.as_slice().split_first() else {
        return Ok(());
    };
    expr(page, gap, first)?;
    for e in more {
        page.sign(false, Sign::Comma)?;
        expr(page, true, e)?;
    }
    Ok(())
}

/// A list in parentheses.
#[cycle(printing)]
pub fn arguments(page: &mut Page, es: &Items<Expr>) -> Result<(), NoMemory>
    ensures { OnOk result (Writes page.old page.new (in_brackets (all_shown es.now))) }
{
    page.sign(false, Sign::Open)?;
    list(page, false, es)?;
    page.sign(false, Sign::Close)?;
    Ok(())
}

/// A place in braces.
#[cycle(printing)]
pub fn braces(page: &mut Page, e: &Expr) -> Result<(), NoMemory>
    ensures { OnOk result (Writes page.old page.new (in_braces (shown e.now))) }
{
    page.sign(false, Sign::OpenBrace)?;
    expr(page, false, e)?;
    page.sign(false, Sign::CloseBrace)?;
    Ok(())
}

/// A row, behind a semicolon where it isn't the first.
#[cycle(printing)]
fn row(page: &mut Page, is_first: bool, es: &Items<Expr>) -> Result<(), NoMemory>
    ensures { OnOk result (Writes page.old page.new (row_words is_first (all_shown es.now))) }
{
    if is_first {
        return list(page, false, es);
    }
    page.sign(false, Sign::Semicolon)?;
    list(page, true, es)?;
    Ok(())
}
