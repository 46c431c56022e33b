//! Lists of arguments and the rows of square brackets, as they grow.

ghost use Rattle.std.specs.Prelude.{◌≡◌, Ok, Err, IfOk};
ghost use Rattle.pl_frames.specs.Rows as spec;

use crate::operand::{Element, Form, Mark, Operand};
use crate::stack::{Cells, Listed, Rows};
use crate::trees::{plain, plus, row_trees, tree};
use pl_base::{NoMemory, Seq};
use pl_syntax::{Expr, ExprKind};
use sqlite_items::Items;
use std::alloc::Global;

/// An argument behind those before.
pub fn listed(
    alloc: Global,
    list: Option<Listed>,
    tree: Expr,
    height: usize,
) -> Result<Listed, NoMemory>
    ensures { IfOk result (λ l. l ≡ spec.listed list tree height) }
{
    match list {
        None => {
            let mut trees = Items::new(alloc);
            trees.push(tree)?;
            Ok(Listed { trees, height })
        }
        Some(list) => {
            let Listed {
                trees,
                height: before,
            } = list;
            let mut trees = trees;
            trees.push(tree)?;
            let height = before.max(height);
            Ok(Listed { trees, height })
        }
    }
}

/// An operand as an argument.
pub fn argument(alloc: Global, list: Option<Listed>, operand: Operand) -> Result<Listed, NoMemory>
    ensures { IfOk result (λ l. l ≡ spec.argument list operand) }
{
    let height = operand.height;
    let tree = tree(alloc, operand)?;
    listed(alloc, list, tree, height)
}

/// An operand as an element: it may be outputs where white space alone doesn't separate it, or some stands before it.
fn element(alloc: Global, apart: bool, operand: Operand) -> Result<Element, NoMemory>
    ensures { IfOk result (λ e. e ≡ spec.element_of apart operand) }
{
    let Operand { form, mark, height } = operand;
    match form {
        Form::Target(target) if apart => Ok(Element::Outputs(Items::new(alloc), target)),
        Form::Skips(marks, target) if apart => Ok(Element::Outputs(marks, target)),
        form => Ok(Element::Tree(tree(alloc, Operand { form, mark, height })?)),
    }
}

/// An operand behind the elements before; white space alone separates what comes, or not.
pub fn celled(
    alloc: Global,
    cells: Option<Cells>,
    operand: Operand,
    space: bool,
) -> Result<Cells, NoMemory>
    ensures { IfOk result (λ c. c ≡ spec.celled cells operand space) }
{
    let height = operand.height;
    match cells {
        None => {
            let mut elements = Seq::empty(alloc);
            elements.push(element(alloc, true, operand)?)?;
            Ok(Cells {
                elements,
                height,
                space,
            })
        }
        Some(cells) => {
            let apart = !cells.space || operand.mark.gap;
            let height = cells.height.max(height);
            let mut elements = cells.elements;
            elements.push(element(alloc, apart, operand)?)?;
            Ok(Cells {
                elements,
                height,
                space,
            })
        }
    }
}

/// Rows with a break behind them.
pub fn broken(rows: Rows) -> Rows
    ensures { result ≡ spec.broken rows }
{
    let Rows { trees, height, .. } = rows;
    Rows {
        first: false,
        trees,
        height,
    }
}

/// Rows with a row behind them.
pub fn filled(alloc: Global, rows: Rows, cells: Cells) -> Result<Rows, NoMemory>
    ensures { IfOk result (λ r. r ≡ spec.filled rows cells) }
{
    let height = rows.height.max(cells.height);
    let mut trees = rows.trees;
    trees.push(row_trees(alloc, cells.elements)?)?;
    Ok(Rows {
        first: false,
        trees,
        height,
    })
}

/// Square brackets with these rows.
pub fn bracketed(mark: Mark, rows: Rows) -> Operand
    ensures { result ≡ spec.bracketed mark rows }
{
    let place = mark.place;
    let height = plus(1, rows.height);
    let kind = ExprKind::Rows(rows.trees);
    plain(Expr { kind, place }, mark, height)
}

/// Square brackets with these rows, or with nothing.
pub fn bracket(mark: Mark, rows: Rows) -> Operand
    ensures { result ≡ spec.bracket mark rows }
{
    if rows.first {
        let form = Form::Nothing;
        let height = plus(1, rows.height);
        return Operand { form, mark, height };
    }
    bracketed(mark, rows)
}

/// Square brackets with a row at their end.
pub fn row_bracket(alloc: Global, mark: Mark, rows: Rows, cells: Cells) -> Result<Operand, NoMemory>
    ensures { IfOk result (λ e. e ≡ spec.row_bracket mark rows cells) }
{
    if rows.first {
        let height = plus(1, rows.height.max(cells.height));
        let form = Form::Row(cells.elements);
        return Ok(Operand { form, mark, height });
    }
    Ok(bracketed(mark, filled(alloc, rows, cells)?))
}
