//! Functions and whole programs.

ghost use Rattle.std.specs.Prelude.{◌≡◌, ℕ, List, map, true, false, OnOk, IfOk};
ghost use Rattle.pl_grammar.specs.declared.terminal.Word.TheVariants as w;
ghost use Rattle.pl_printing.specs.Canonical.{param_words, outs_words, out_words, separated, function_words, functions_words};
ghost use Rattle.pl_printed.specs.Printed.{printed, IsSourceOf, ReadsBack};
ghost use Rattle.pl_print.specs.Pages.{Writes};

use crate::page::{Page, Sign};
use crate::statements::{block, stmt};
use pl_base::NoMemory;
use pl_grammar::Keyword;
use pl_syntax::{Function, Name, Program};
use std::alloc::Global;

fn param(page: &mut Page, gap: bool, param: &Option<Name>) -> Result<(), NoMemory>
    ensures { OnOk result (Writes page.old page.new (param_words param.now gap)) }
{
    match param {
        None => page.sign(gap, Sign::Not),
        Some(name) => page.name(gap, &name.text),
    }
}

/// Parameters with commas between them.
fn params(page: &mut Page, list: &[Option<Name>]) -> Result<(), NoMemory>
    ensures { OnOk result (Writes page.old page.new (separated w.Comma (map param_words list.now) false)) }
{
    let Some((first, more)) = list.split_first() else {
        return Ok(());
    };
    param(page, false, first)?;
    for name in more {
        page.sign(false, Sign::Comma)?;
        param(page, true, name)?;
    }
    Ok(())
}

fn out(page: &mut Page, gap: bool, name: &Name) -> Result<(), NoMemory>
    ensures { OnOk result (Writes page.old page.new (out_words name.now gap)) }
{
    page.name(gap, &name.text)
}

/// Names with commas between them.
fn names(page: &mut Page, list: &[Name]) -> Result<(), NoMemory>
    ensures { OnOk result (Writes page.old page.new (separated w.Comma (map out_words list.now) false)) }
{
    let Some((first, more)) = list.split_first() else {
        return Ok(());
    };
    out(page, false, first)?;
    for name in more {
        page.sign(false, Sign::Comma)?;
        out(page, true, name)?;
    }
    Ok(())
}

/// The outputs of a function and the `=` behind them, or nothing.
fn outs(page: &mut Page, list: &[Name]) -> Result<(), NoMemory>
    ensures { OnOk result (Writes page.old page.new (outs_words list.now)) }
{
    let Some((first, more)) = list.split_first() else {
        return Ok(());
    };
    if more.len() == 0 {
        out(page, true, first)?;
        return page.sign(true, Sign::Equal);
    }
    page.sign(true, Sign::OpenSquare)?;
    names(page, list)?;
    page.sign(false, Sign::CloseSquare)?;
    page.sign(true, Sign::Equal)?;
    Ok(())
}

fn function(page: &mut Page, f: &Function) -> Result<(), NoMemory>
    ensures { OnOk result (Writes page.old page.new (function_words f.now)) }
{
    page.key(false, Keyword::Function)?;
    outs(page, f.outs.items())?;
    page.name(true, &f.name.text)?;
    page.sign(false, Sign::Open)?;
    params(page, f.params.items())?;
    page.sign(false, Sign::Close)?;
    block(page, &f.body)?;
    page.key(false, Keyword::End)?;
    page.line_end()?;
    Ok(())
}

/// Functions, with an empty line before each that isn't at the beginning.
fn functions(page: &mut Page, at_start: bool, list: &[Function]) -> Result<(), NoMemory>
    ensures { OnOk result (Writes page.old page.new (functions_words at_start list.now)) }
{
    let mut at_start = at_start;
    for f in list {
        if !at_start {
            page.line_end()?;
        }
        function(page, f)?;
        at_start = false;
    }
    Ok(())
}

/// The text of a program.
pub fn print(alloc: Global, program: &Program) -> Result<Vec<u8>, NoMemory>
    // The bytes are the canonical spelling, laid out.
    ensures text { IfOk result (λ v. v.items ≡ printed program.now) }

    // If some source has the program, the bytes are a source of it, too, but for places.
    ensures again { (limit : ℕ) (source : List ℕ) → IsSourceOf limit source program.now → IfOk result (λ v. ReadsBack limit v.items program.now) }
{
    let mut page = Page::new(alloc);
    for s in program.body.as_slice() {
        stmt(&mut page, false, s)?;
    }
    let at_start = program.body.len() == 0;
    functions(&mut page, at_start, program.functions.as_slice())?;
    Ok(page.into_bytes())
}
