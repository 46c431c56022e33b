//! Statements, each on lines of its own.

ghost use Rattle.std.specs.Prelude.{map, OnOk};
ghost use Rattle.pl_printing.specs.Canonical.{stmt_words, block_words, each_words, parfor_words, workers_words, arms_words, last_words};
ghost use Rattle.pl_print.specs.Pages.{Writes, arm_words, kind_words, ended_words, closed_words};

use crate::expressions::expr;
use crate::page::{Page, Sign};
use crate::simple::{assign, delete, ending, spread};
use pl_base::NoMemory;
use pl_grammar::Keyword;
use pl_syntax::{Arm, Expr, Name, Stmt, StmtKind};
use sqlite_items::Items;

/// A loop's index and its range.
fn each(page: &mut Page, gap: bool, name: &Name, range: &Expr) -> Result<(), NoMemory>
    ensures { OnOk result (Writes page.old page.new (each_words name.now range.now gap)) }
{
    page.name(gap, &name.text)?;
    page.sign(true, Sign::Equal)?;
    expr(page, true, range)?;
    Ok(())
}

/// The same of a loop over workers, with a bound on them or without.
fn bounded(page: &mut Page, name: &Name, range: &Expr, bound: &Option<Expr>) -> Result<(), NoMemory>
    ensures { OnOk result (Writes page.old page.new (parfor_words name.now range.now bound.now)) }
{
    match bound {
        None => each(page, true, name, range),
        Some(bound) => {
            page.sign(true, Sign::Open)?;
            each(page, false, name, range)?;
            page.sign(false, Sign::Comma)?;
            expr(page, true, bound)?;
            page.sign(false, Sign::Close)?;
            Ok(())
        }
    }
}

/// The number of workers of a block, or nothing.
fn workers(page: &mut Page, count: &Option<Expr>) -> Result<(), NoMemory>
    ensures { OnOk result (Writes page.old page.new (workers_words count.now)) }
{
    match count {
        None => Ok(()),
        Some(count) => {
            page.sign(true, Sign::Open)?;
            expr(page, false, count)?;
            page.sign(false, Sign::Close)?;
            Ok(())
        }
    }
}

/// A statement and the end of its line.
#[cycle(blocks)]
pub fn stmt(page: &mut Page, indented: bool, s: &Stmt) -> Result<(), NoMemory>
    ensures { OnOk result (Writes page.old page.new (stmt_words s.now indented)) }
{
    kind(page, indented, &s.kind)?;
    ending(page, s.show)?;
    Ok(())
}

/// A statement without the end of its line.
#[cycle(blocks)]
fn kind(page: &mut Page, indented: bool, kind: &StmtKind) -> Result<(), NoMemory>
    ensures { OnOk result (Writes page.old page.new (kind_words kind.now indented)) }
{
    match kind {
        StmtKind::Eval(e) => expr(page, indented, e),
        StmtKind::Assign(to, e) => assign(page, indented, to, e),
        StmtKind::AssignList(list, e) => spread(page, indented, list, e),
        StmtKind::Delete(name, list) => delete(page, indented, name, list),
        StmtKind::Break => page.key(indented, Keyword::Break),
        StmtKind::Continue => page.key(indented, Keyword::Continue),
        StmtKind::Return => page.key(indented, Keyword::Return),
        StmtKind::While(test, body) => {
            page.key(indented, Keyword::While)?;
            expr(page, true, test)?;
            closed(page, indented, body)?;
            Ok(())
        }
        StmtKind::For(name, range, body) => {
            page.key(indented, Keyword::For)?;
            each(page, true, name, range)?;
            closed(page, indented, body)?;
            Ok(())
        }
        StmtKind::Parfor(name, range, bound, body) => {
            page.key(indented, Keyword::Parfor)?;
            bounded(page, name, range, bound)?;
            closed(page, indented, body)?;
            Ok(())
        }
        StmtKind::Spmd(count, body) => {
            page.key(indented, Keyword::Spmd)?;
            workers(page, count)?;
            closed(page, indented, body)?;
            Ok(())
        }
        StmtKind::If(tests, last) => {
            arms(page, indented, Keyword::If, Keyword::Elseif, tests)?;
            ended(page, indented, Keyword::Else, last)?;
            Ok(())
        }
        StmtKind::Switch(value, cases, last) => {
            page.key(indented, Keyword::Switch)?;
            expr(page, true, value)?;
            page.line_end()?;
            arms(page, indented, Keyword::Case, Keyword::Case, cases)?;
            ended(page, indented, Keyword::Otherwise, last)?;
            Ok(())
        }
        StmtKind::Try(body, handler) => {
            page.key(indented, Keyword::Try)?;
            block(page, body)?;
            ended(page, indented, Keyword::Catch, handler)?;
            Ok(())
        }
    }
}

/// A block and its `end`.
#[cycle(blocks)]
fn closed(page: &mut Page, indented: bool, body: &Items<Stmt>) -> Result<(), NoMemory>
    ensures { OnOk result (Writes page.old page.new (closed_words (map stmt_words body.now) indented)) }
{
    block(page, body)?;
    page.key(indented, Keyword::End)?;
    Ok(())
}

/// The end of a header's line, and the statements of a block.
#[cycle(blocks)]
pub fn block(page: &mut Page, body: &Items<Stmt>) -> Result<(), NoMemory>
    ensures { OnOk result (Writes page.old page.new (block_words (map stmt_words body.now))) }
{
    page.line_end()?;
    for s in body.as_slice() {
        stmt(page, true, s)?;
    }
    Ok(())
}

/// A test or a case behind its keyword, and what it guards.
#[cycle(blocks)]
fn arm(page: &mut Page, indented: bool, word: Keyword, arm: &Arm) -> Result<(), NoMemory>
    ensures { OnOk result (Writes page.old page.new (arm_words arm.now word indented)) }
{
    page.key(indented, word)?;
    expr(page, true, &arm.test)?;
    block(page, &arm.body)?;
    Ok(())
}

/// Tests or cases, the first behind one keyword and the others behind another.
#[cycle(blocks)]
fn arms(
    page: &mut Page,
    indented: bool,
    first: Keyword,
    other: Keyword,
    list: &Items<Arm>,
) -> Result<(), NoMemory>
    ensures { OnOk result (Writes page.old page.new (arms_words first other (map arm_words list.now) indented)) }
{
    let mut word = first;
    for a in list.as_slice() {
        arm(page, indented, word, a)?;
        word = other;
    }
    Ok(())
}

/// The block behind `else`, `otherwise` or `catch`, unless it is empty.
#[cycle(blocks)]
fn last_part(
    page: &mut Page,
    indented: bool,
    word: Keyword,
    body: &Items<Stmt>,
) -> Result<(), NoMemory>
    ensures { OnOk result (Writes page.old page.new (last_words word (map stmt_words body.now) indented)) }
{
    let Some((_first, _more)) = body.as_slice().split_first() else {
        return Ok(());
    };
    page.key(indented, word)?;
    block(page, body)?;
    Ok(())
}

/// The same, and the `end`.
#[cycle(blocks)]
fn ended(page: &mut Page, indented: bool, word: Keyword, body: &Items<Stmt>) -> Result<(), NoMemory>
    ensures { OnOk result (Writes page.old page.new (ended_words word (map stmt_words body.now) indented)) }
{
    last_part(page, indented, word, body)?;
    page.key(indented, Keyword::End)?;
    Ok(())
}
