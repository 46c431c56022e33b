//! Statements that have no blocks.

ghost use Rattle.std.specs.Prelude.{◌≡◌, false, map, OnOk};
ghost use Rattle.pl_grammar.specs.declared.terminal.Word.TheVariants as w;
ghost use Rattle.pl_printing.specs.Canonical.{shown, target_words, output_words, separated, assigned, ending};
ghost use Rattle.pl_print.specs.Pages.{Writes, assign_words, spread_words, delete_words};

use crate::expressions::{arguments, braces, expr};
use crate::page::{Page, Sign};
use pl_base::NoMemory;
use pl_syntax::{Expr, ExprKind, Name, Target};
use sqlite_items::Items;

/// What an assignment writes.
fn target(page: &mut Page, gap: bool, target: &Target) -> Result<(), NoMemory>
    ensures { OnOk result (Writes page.old page.new (target_words target.now gap)) }
{
    match target {
        Target::Whole(name) => page.name(gap, &name.text),
        Target::Indexed(name, list) => {
            page.name(gap, &name.text)?;
            arguments(page, list)?;
            Ok(())
        }
        Target::Braced(name, place) => {
            page.name(gap, &name.text)?;
            braces(page, place.get())?;
            Ok(())
        }
    }
}

fn output(page: &mut Page, gap: bool, output: &Option<Target>) -> Result<(), NoMemory>
    ensures { OnOk result (Writes page.old page.new (output_words output.now gap)) }
{
    match output {
        None => page.sign(gap, Sign::Not),
        Some(to) => target(page, gap, to),
    }
}

/// Whether an expression is `[]`.
#[tactic(auto, using(crate::proofs::Lists::no_row))]
fn is_nothing(e: &Expr) -> bool
    ensures { result ≡ (shown e.now).is_nothing }
{
    match &e.kind {
        ExprKind::Rows(rows) => rows.len() == 0,
        ExprKind::Number(_) | ExprKind::Chars(_) | ExprKind::Var(_) | ExprKind::Apply(_, _) =>
            false,
        ExprKind::Brace(_, _, _) | ExprKind::Func(_) | ExprKind::End => false,
        ExprKind::Unary(_, _) | ExprKind::Binary(_, _, _) | ExprKind::Range(_, _, _) => false,
        ExprKind::Colon | ExprKind::StateOf(_) => false,
    }
}

/// The value of an assignment: `[;]` where `[]` would be a deletion.
fn value(page: &mut Page, to: &Target, e: &Expr) -> Result<(), NoMemory>
    ensures { OnOk result (Writes page.old page.new (assigned to.now (shown e.now))) }
{
    match to {
        Target::Indexed(_, _) => {
            if is_nothing(e) {
                page.sign(true, Sign::OpenSquare)?;
                page.sign(false, Sign::Semicolon)?;
                page.sign(false, Sign::CloseSquare)
            } else {
                expr(page, true, e)
            }
        }
        Target::Whole(_) | Target::Braced(_, _) => expr(page, true, e),
    }
}

pub fn assign(page: &mut Page, gap: bool, to: &Target, e: &Expr) -> Result<(), NoMemory>
    ensures { OnOk result (Writes page.old page.new (assign_words to.now e.now gap)) }
{
    target(page, gap, to)?;
    page.sign(true, Sign::Equal)?;
    value(page, to, e)?;
    Ok(())
}

/// Outputs with commas between them.
fn outputs(page: &mut Page, list: &Items<Option<Target>>) -> Result<(), NoMemory>
    ensures { OnOk result (Writes page.old page.new (separated w.Comma (map output_words list.now) false)) }
{
    let Some((first, more)) = list.as_slice().split_first() else {
        return Ok(());
    };
    output(page, false, first)?;
    for to in more {
        page.sign(false, Sign::Comma)?;
        output(page, true, to)?;
    }
    Ok(())
}

pub fn spread(
    page: &mut Page,
    gap: bool,
    list: &Items<Option<Target>>,
    e: &Expr,
) -> Result<(), NoMemory>
    ensures { OnOk result (Writes page.old page.new (spread_words list.now e.now gap)) }
{
    page.sign(gap, Sign::OpenSquare)?;
    outputs(page, list)?;
    page.sign(false, Sign::CloseSquare)?;
    page.sign(true, Sign::Equal)?;
    expr(page, true, e)?;
    Ok(())
}

pub fn delete(page: &mut Page, gap: bool, name: &Name, list: &Items<Expr>) -> Result<(), NoMemory>
    ensures { OnOk result (Writes page.old page.new (delete_words name.now list.now gap)) }
{
    page.name(gap, &name.text)?;
    arguments(page, list)?;
    page.sign(true, Sign::Equal)?;
    page.sign(true, Sign::OpenSquare)?;
    page.sign(false, Sign::CloseSquare)?;
    Ok(())
}

/// The end of a statement's line.
pub fn ending(page: &mut Page, show: bool) -> Result<(), NoMemory>
    ensures { OnOk result (Writes page.old page.new (ending show)) }
{
    if show {
        return page.line_end();
    }
    page.sign(false, Sign::Semicolon)?;
    page.line_end()?;
    Ok(())
}
