//! Names of functions that nothing carries out yet.

ghost use Rattle.std.specs.Prelude.{◌≡◌, IfOk};
ghost use Rattle.pl_resolve.specs.Functions.{local_names};
ghost use Rattle.pl_resolve.specs.Occurrences.{of_block};
ghost use Rattle.pl_resolve.specs.Scopes.{is_handle as is_handle_use, is_among};
ghost use Rattle.pl_meaning.specs.Names.{names_in};
ghost use Rattle.pl_unbuilt.specs.Unbuilt.{is_variable_in, is_function as is_function_in, is_built as is_built_in, table_of, first_name as first_among, name_among, name_of};

use pl_base::{NoMemory, Place, Text};
use pl_meaning::Known;
use pl_resolve::{Occurrence, Resolved, Use, occurrences};
use pl_syntax::{Function, Stmt};
use sqlite_items::Items;
use std::alloc::Global;

fn is_handle(how: Use) -> bool
    ensures { result ≡ is_handle_use how }
{
    matches!(how, Use::Handle)
}

/// Whether a name stands for a variable of the scope of this number.
fn is_variable(resolved: &Resolved, i: usize, o: &Occurrence) -> bool
    ensures { result ≡ is_variable_in (names_in resolved.now i) o.now }
{
    match resolved.scopes.items().get(i) {
        None => false,
        Some(scope) => !is_handle(o.how) && scope.slot(&o.name).is_some(),
    }
}

/// Whether a program has a function of this name.
fn is_local(functions: &[Function], name: &Text) -> bool
    ensures { result ≡ is_among (local_names functions.now) name.now }
{
    for function in functions {
        if *name == function.name.text {
            return true;
        }
    }
    false
}

/// Whether a program's table of extras has this name.
fn is_extra(resolved: &Resolved, name: &Text) -> bool
    ensures { result ≡ is_among resolved.now.extras name.now }
{
    let extras = resolved.extras.items();
    extras.iter().any(|extra| name.bytes() == extra.bytes())
}

/// Whether a name stands for a function, or for an extra.
fn is_function(resolved: &Resolved, name: &Text) -> bool
    ensures { result ≡ is_function_in (table_of resolved.now) name.now }
{
    is_local(resolved.program.functions.as_slice(), name)
        || Known::of(name.bytes()).is_some()
        || is_extra(resolved, name)
}

fn is_built(resolved: &Resolved, i: usize, o: &Occurrence) -> bool
    ensures { result ≡ is_built_in (table_of resolved.now) (names_in resolved.now i) o.now }
{
    is_variable(resolved, i, o) || is_function(resolved, &o.name)
}

/// The first name in statements that stands for what isn't carried out.
fn first_name(
    alloc: Global,
    resolved: &Resolved,
    i: usize,
    body: &Items<Stmt>,
) -> Result<Option<Place>, NoMemory>
    ensures { IfOk result (λ p. p ≡ first_among (table_of resolved.now) (names_in resolved.now i) (of_block body.now)) }
{
    let names = occurrences(alloc, body)?;
    for o in names.items() {
        if !is_built(resolved, i, o) {
            return Ok(Some(o.place));
        }
    }
    Ok(None)
}

/// The first such name in functions, the scope of the first of which has this number.
fn first_in_functions(
    alloc: Global,
    resolved: &Resolved,
    functions: &[Function],
) -> Result<Option<Place>, NoMemory>
    ensures { IfOk result (λ p. p ≡ name_among resolved.now 1 functions.now) }
{
    for (i, function) in functions.iter().enumerate() {
        if let Some(place) = first_name(alloc, resolved, i + 1, &function.body)? {
            return Ok(Some(place));
        }
    }
    Ok(None)
}

/// The first such name of a program.
pub(crate) fn name(alloc: Global, resolved: &Resolved) -> Result<Option<Place>, NoMemory>
    ensures { IfOk result (λ p. p ≡ name_of resolved.now) }
{
    match first_name(alloc, resolved, 0, &resolved.program.body)? {
        Some(place) => Ok(Some(place)),
        None => first_in_functions(alloc, resolved, resolved.program.functions.as_slice()),
    }
}
