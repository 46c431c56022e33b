//! The names of expressions.

ghost use Rattle.std.specs.Prelude.{◌≡◌, ◌++◌, [], ◌∷◌, OnOk};
ghost use Rattle.pl_resolve.specs.Occurrences.{used, of_expr, of_exprs};

use crate::occurrence::{Occurrence, Use};
use pl_base::NoMemory;
use pl_syntax::{Expr, ExprKind, Name};
use sqlite_items::Items;

/// Adds a name.
pub(crate) fn add(out: &mut Vec<Occurrence>, how: Use, name: &Name) -> Result<(), NoMemory>
    ensures { OnOk result (out.new.items ≡ out.old.items ++ used how name.now ∷ []) }
{
    out.push(Occurrence {
        name: name.text.clone()?,
        place: name.place,
        how,
    })?;
    Ok(())
}

/// Adds the names of an expression.
#[cycle(walking)]
pub(crate) fn add_expr(out: &mut Vec<Occurrence>, e: &Expr) -> Result<(), NoMemory>
    ensures { OnOk result (out.new.items ≡ out.old.items ++ of_expr e.now) }
{
    match &e.kind {
        ExprKind::Number(_) | ExprKind::Chars(_) | ExprKind::End | ExprKind::Colon => Ok(()),
        ExprKind::Var(name) => add(out, Use::Read, name),
        ExprKind::Apply(name, list) => {
            add(out, Use::ReadAt, name)?;
            add_exprs(out, list)?;
            Ok(())
        }
        ExprKind::Brace(name, place, list) => {
            add(out, Use::ReadIn, name)?;
            add_expr(out, place.get())?;
            if let Some(list) = list {
                add_exprs(out, list)?;
            }
            Ok(())
        }
        ExprKind::Unary(_, a) => add_expr(out, a.get()),
        ExprKind::Binary(_, a, b) => {
            add_expr(out, a.get())?;
            add_expr(out, b.get())?;
            Ok(())
        }
        ExprKind::Range(first, step, last) => {
            add_expr(out, first.get())?;
            if let Some(step) = step {
                add_expr(out, step.get())?;
            }
            add_expr(out, last.get())?;
            Ok(())
        }
        ExprKind::Rows(rows) => {
            for row in rows.as_slice() {
                add_exprs(out, row)?;
            }
            Ok(())
        }
        ExprKind::Func(name) => add(out, Use::Handle, name),
        ExprKind::StateOf(a) => add_expr(out, a.get()),
    }
}

/// Adds the names of a list of expressions.
#[cycle(walking)]
pub(crate) fn add_exprs(out: &mut Vec<Occurrence>, list: &Items<Expr>) -> Result<(), NoMemory>
    ensures { OnOk result (out.new.items ≡ out.old.items ++ of_exprs list.now) }
{
    for e in list.as_slice() {
        add_expr(out, e)?;
    }
    Ok(())
}
