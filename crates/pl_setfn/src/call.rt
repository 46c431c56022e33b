//! A call by its arguments.

ghost use Rattle.std.specs.Prelude.{◌≡◌, ◌∷◌, [], IfOk};
ghost use Rattle.pl_base.specs.declared.mode.Mode.{Mode};
ghost use Rattle.pl_setfn.specs.Arguments.{with_one, with_three};
ghost use Rattle.pl_setfn.specs.Finding.{find_of, nnz_of};
ghost use Rattle.pl_setfn.specs.Layout.{reshape_of, repmat_of, fliplr_of, flipud_of};
ghost use Rattle.pl_setfn.specs.declared.set_fn.SetFn.{SetFn};
ghost use Rattle.pl_setfn.specs.Sorting.{in_asked_order, sort_cells, sort_sources, unique_of};
ghost use Rattle.pl_setfn.specs.Calls.{most_outputs, alone, first_output, both_outputs, call_set_of};

use crate::along::{LineFn, call_along};
use crate::arguments::is_descend;
use crate::finding::{find, nnz};
use crate::layout::{fliplr, flipud, repmat, reshape};
use crate::order::{Way, sort_both, sort_cells, unique};
use crate::set_fn::SetFn;
use pl_array::Arr;
use pl_base::{ErrKind, Mode, NoMemory, Or};
use std::alloc::Global;

/// What a function answers, with sums clamped to 64 bits. `nout` is how many outputs are asked for, and none is like one.
pub fn call_set(alloc: Global, f: SetFn, args: &[Arr], nout: u32) -> Result<Vec<Arr>, Or<ErrKind>>
    ensures ok { IfOk result (λ v. call_set_of Mode.Saturate f args.now nout ≡ Ok v.items) }
    ensures err { (kind : ErrKind) → result ≡ Err (Or.Is kind) → call_set_of Mode.Saturate f args.now nout ≡ Err kind }
{
    call_set_in(alloc, Mode::Saturate, f, args, nout)
}

/// The same in a mode: the strict one refuses a running sum that the other clamps.
pub fn call_set_in(
    alloc: Global,
    mode: Mode,
    f: SetFn,
    args: &[Arr],
    nout: u32,
) -> Result<Vec<Arr>, Or<ErrKind>>
    ensures ok { IfOk result (λ v. call_set_of mode f args.now nout ≡ Ok v.items) }
    ensures err { (kind : ErrKind) → result ≡ Err (Or.Is kind) → call_set_of mode f args.now nout ≡ Err kind }
{
    if nout > f.most_outputs() {
        return Err(Or::Is(ErrKind::ArgCount));
    }
    if nout == 2 {
        give_both(alloc, args)
    } else {
        give_first(alloc, mode, f, args)
    }
}

fn give_first(alloc: Global, mode: Mode, f: SetFn, args: &[Arr]) -> Result<Vec<Arr>, Or<ErrKind>>
    ensures ok { IfOk result (λ v. alone (first_output mode f args.now) ≡ Ok v.items) }
    ensures err { (kind : ErrKind) → result ≡ Err (Or.Is kind) → alone (first_output mode f args.now) ≡ Err kind }
{
    let output = first_output(alloc, mode, f, args)?;
    let mut outputs = Vec::with_capacity(alloc, 1)?;
    outputs.push(output)?;
    Ok(outputs)
}

fn first_output(alloc: Global, mode: Mode, f: SetFn, args: &[Arr]) -> Result<Arr, Or<ErrKind>>
    ensures ok { IfOk result (λ o. first_output mode f args.now ≡ Ok o) }
    ensures err { (kind : ErrKind) → result ≡ Err (Or.Is kind) → first_output mode f args.now ≡ Err kind }
{
    match f {
        SetFn::Find => call_find(alloc, args),
        SetFn::Reshape => call_reshape(alloc, args),
        SetFn::Repmat => call_repmat(alloc, args),
        SetFn::Sort => call_sort(alloc, args),
        SetFn::Unique => call_unique(alloc, args),
        SetFn::Any => call_along(alloc, LineFn::Any, args),
        SetFn::All => call_along(alloc, LineFn::All, args),
        SetFn::Cumsum => call_along(alloc, LineFn::Sums(mode), args),
        SetFn::Fliplr => call_fliplr(alloc, args),
        SetFn::Flipud => call_flipud(alloc, args),
        SetFn::Nnz => call_nnz(args),
    }
}

fn call_find(alloc: Global, args: &[Arr]) -> Result<Arr, Or<ErrKind>>
    ensures ok { IfOk result (λ o. with_one (λ a. Ok (find_of a)) args.now ≡ Ok o) }
    ensures err { (kind : ErrKind) → result ≡ Err (Or.Is kind) → with_one (λ a. Ok (find_of a)) args.now ≡ Err kind }
{
    match args {
        [a] => Ok(find(alloc, a)?),
        _ => Err(Or::Is(ErrKind::ArgCount)),
    }
}

fn call_reshape(alloc: Global, args: &[Arr]) -> Result<Arr, Or<ErrKind>>
    ensures ok { IfOk result (λ o. with_three reshape_of args.now ≡ Ok o) }
    ensures err { (kind : ErrKind) → result ≡ Err (Or.Is kind) → with_three reshape_of args.now ≡ Err kind }
{
    match args {
        [a, m, n] => reshape(alloc, a, m, n),
        _ => Err(Or::Is(ErrKind::ArgCount)),
    }
}

fn call_repmat(alloc: Global, args: &[Arr]) -> Result<Arr, Or<ErrKind>>
    ensures ok { IfOk result (λ o. with_three repmat_of args.now ≡ Ok o) }
    ensures err { (kind : ErrKind) → result ≡ Err (Or.Is kind) → with_three repmat_of args.now ≡ Err kind }
{
    match args {
        [a, m, n] => repmat(alloc, a, m, n),
        _ => Err(Or::Is(ErrKind::ArgCount)),
    }
}

fn call_sort(alloc: Global, args: &[Arr]) -> Result<Arr, Or<ErrKind>>
    ensures ok { IfOk result (λ o. in_asked_order sort_cells args.now ≡ Ok o) }
    ensures err { (kind : ErrKind) → result ≡ Err (Or.Is kind) → in_asked_order sort_cells args.now ≡ Err kind }
{
    match args {
        [a] => Ok(sort_cells(alloc, Way::Rising, a)?),
        [a, word] => if is_descend(word) {
            Ok(sort_cells(alloc, Way::Falling, a)?)
        } else {
            Err(Or::Is(ErrKind::ArgClass))
        },
        _ => Err(Or::Is(ErrKind::ArgCount)),
    }
}

/// Both outputs of a sort.
fn give_both(alloc: Global, args: &[Arr]) -> Result<Vec<Arr>, Or<ErrKind>>
    ensures ok { IfOk result (λ v. both_outputs args.now ≡ Ok v.items) }
    ensures err { (kind : ErrKind) → result ≡ Err (Or.Is kind) → both_outputs args.now ≡ Err kind }
{
    match args {
        [a] => Ok(sort_pair(alloc, Way::Rising, a)?),
        [a, word] => if is_descend(word) {
            Ok(sort_pair(alloc, Way::Falling, a)?)
        } else {
            Err(Or::Is(ErrKind::ArgClass))
        },
        _ => Err(Or::Is(ErrKind::ArgCount)),
    }
}

fn sort_pair(alloc: Global, way: Way, a: &Arr) -> Result<Vec<Arr>, NoMemory>
    ensures { IfOk result (λ v. v.items ≡ sort_cells way a.now ∷ sort_sources way a.now ∷ []) }
{
    let (cells, places) = sort_both(alloc, way, a)?;
    let mut outputs = Vec::with_capacity(alloc, 2)?;
    outputs.push(cells)?;
    outputs.push(places)?;
    Ok(outputs)
}

fn call_unique(alloc: Global, args: &[Arr]) -> Result<Arr, Or<ErrKind>>
    ensures ok { IfOk result (λ o. with_one (λ a. Ok (unique_of a)) args.now ≡ Ok o) }
    ensures err { (kind : ErrKind) → result ≡ Err (Or.Is kind) → with_one (λ a. Ok (unique_of a)) args.now ≡ Err kind }
{
    match args {
        [a] => Ok(unique(alloc, a)?),
        _ => Err(Or::Is(ErrKind::ArgCount)),
    }
}

fn call_fliplr(alloc: Global, args: &[Arr]) -> Result<Arr, Or<ErrKind>>
    ensures ok { IfOk result (λ o. with_one (λ a. Ok (fliplr_of a)) args.now ≡ Ok o) }
    ensures err { (kind : ErrKind) → result ≡ Err (Or.Is kind) → with_one (λ a. Ok (fliplr_of a)) args.now ≡ Err kind }
{
    match args {
        [a] => Ok(fliplr(alloc, a)?),
        _ => Err(Or::Is(ErrKind::ArgCount)),
    }
}

fn call_flipud(alloc: Global, args: &[Arr]) -> Result<Arr, Or<ErrKind>>
    ensures ok { IfOk result (λ o. with_one (λ a. Ok (flipud_of a)) args.now ≡ Ok o) }
    ensures err { (kind : ErrKind) → result ≡ Err (Or.Is kind) → with_one (λ a. Ok (flipud_of a)) args.now ≡ Err kind }
{
    match args {
        [a] => Ok(flipud(alloc, a)?),
        _ => Err(Or::Is(ErrKind::ArgCount)),
    }
}

fn call_nnz(args: &[Arr]) -> Result<Arr, Or<ErrKind>>
    ensures ok { IfOk result (λ o. with_one (λ a. Ok (nnz_of a)) args.now ≡ Ok o) }
    ensures err { (kind : ErrKind) → result ≡ Err (Or.Is kind) → with_one (λ a. Ok (nnz_of a)) args.now ≡ Err kind }
{
    match args {
        [a] => Ok(nnz(a)),
        _ => Err(Or::Is(ErrKind::ArgCount)),
    }
}
