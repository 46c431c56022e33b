//! Functions of lines: whether some or each cell is true, and running sums.

ghost use Rattle.std.specs.Prelude.{◌≡◌, ℤ, pos, ◌||◌, ◌&&◌, Some, IfOk};
ghost use Rattle.std.specs.List.{list_any, list_all};
ghost use Rattle.pl_array.specs.Cellwise.{truth, is_true};
ghost use Rattle.pl_array.specs.declared.class.Class.{Class};
ghost use Rattle.pl_lines.specs.declared.dim.Dim.{Dim};
ghost use Rattle.pl_setfn.specs.declared.along.LineFn.{LineFn};
ghost use Rattle.pl_setfn.specs.Along.{line_fn_of, along};

use crate::arguments::dim_asked;
use crate::sums::cumsum;
use pl_array::{Arr, Class};
use pl_base::{ErrKind, Mode, Or};
use pl_lines::{Dim, Fold, default_dim, fold_lines};
use std::alloc::Global;

/// A function of lines.
#[derive(Clone, Copy, Debug, PartialEq, Eq)]
pub enum LineFn {
    /// Whether some cell is true.
    Any,
    /// Whether each cell is true.
    All,
    /// The running sums, in a mode.
    Sums(Mode),
}

/// A function of lines, by its arguments: along the default dimension, or along the one that is given.
pub(crate) fn call_along(alloc: Global, f: LineFn, args: &[Arr]) -> Result<Arr, Or<ErrKind>>
    ensures ok { IfOk result (λ o. along f args.now ≡ Ok o) }
    ensures err { (kind : ErrKind) → result ≡ Err (Or.Is kind) → along f args.now ≡ Err kind }
{
    match args {
        [a] => apply(alloc, f, a, default_dim(a.shape())),
        [a, d] => match dim_asked(d) {
            Ok(d) => apply(alloc, f, a, d),
            Err(kind) => Err(Or::Is(kind)),
        },
        _ => Err(Or::Is(ErrKind::ArgCount)),
    }
}

fn apply(alloc: Global, f: LineFn, a: &Arr, d: Dim) -> Result<Arr, Or<ErrKind>>
    ensures ok { IfOk result (λ o. line_fn_of f d a.now ≡ Ok o) }
    ensures err { (kind : ErrKind) → result ≡ Err (Or.Is kind) → line_fn_of f d a.now ≡ Err kind }
{
    match f {
        LineFn::Any => any(alloc, a, d),
        LineFn::All => all(alloc, a, d),
        LineFn::Sums(mode) => cumsum(alloc, mode, a, d),
    }
}

/// Whether some cell so far is true.
struct AnyTrue;

impl Fold for AnyTrue {
    ghost class = { λ _. Class.Logical };

    ghost start = { λ _. pos 0 };

    ghost step = { λ _ x y. Some (truth (is_true x || is_true y)) };

    fn class(&self) -> Class {
        Class::Logical
    }

    fn start(&self) -> i64 {
        0
    }

    fn step(&self, so_far: i64, cell: i64) -> Option<i64> {
        Some(i64::from(so_far != 0 || cell != 0))
    }
}

/// Whether each cell so far is true.
struct EachTrue;

impl Fold for EachTrue {
    ghost class = { λ _. Class.Logical };

    ghost start = { λ _. pos 1 };

    ghost step = { λ _ x y. Some (truth (is_true x && is_true y)) };

    fn class(&self) -> Class {
        Class::Logical
    }

    fn start(&self) -> i64 {
        1
    }

    fn step(&self, so_far: i64, cell: i64) -> Option<i64> {
        Some(i64::from(so_far != 0 && cell != 0))
    }
}

/// For each line, whether some cell is true.
fn any(alloc: Global, a: &Arr, d: Dim) -> Result<Arr, Or<ErrKind>>
    ensures ok { IfOk result (λ o. line_fn_of LineFn.Any d a.now ≡ Ok o) }
    ensures err { (kind : ErrKind) → result ≡ Err (Or.Is kind) → line_fn_of LineFn.Any d a.now ≡ Err kind }
{
    fold_lines(alloc, &AnyTrue, a, d)
}

/// For each line, whether each cell is true.
fn all(alloc: Global, a: &Arr, d: Dim) -> Result<Arr, Or<ErrKind>>
    ensures ok { IfOk result (λ o. line_fn_of LineFn.All d a.now ≡ Ok o) }
    ensures err { (kind : ErrKind) → result ≡ Err (Or.Is kind) → line_fn_of LineFn.All d a.now ≡ Err kind }
{
    fold_lines(alloc, &EachTrue, a, d)
}
