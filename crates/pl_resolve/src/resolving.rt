//! The scopes of a program, or the first name that stands for nothing.

ghost use Rattle.std.specs.Prelude.{◌≡◌, ◌++◌, None, Some, Err, filter, map, nat_eq, IfOk, OnOk};
ghost use Rattle.std.specs.Cmp.Lexicographic.{pointwise};
ghost use Rattle.indexmap.specs.IndexSet.{insert_all};
ghost use Rattle.pl_base.specs.declared.memory.Or.{Or};
ghost use Rattle.pl_base.specs.declared.mode.Mode.{Mode};
ghost use Rattle.pl_resolve.specs.declared.fault.NameFault.{NameFault};
ghost use Rattle.pl_resolve.specs.declared.occurrence.Use.TheVariants.{Assign};
ghost use Rattle.pl_resolve.specs.Functions.{extra_names};
ghost use Rattle.pl_resolve.specs.Occurrences.{used};
ghost use Rattle.pl_resolve.specs.Scopes as spec;

use crate::expressions::add;
use crate::extras::extra_table;
use crate::fault::NameFault;
use crate::functions::Functions;
use crate::occurrence::{Occurrence, Use};
use crate::resolved::Resolved;
use crate::scope::Scope;
use crate::statements::add_block;
use pl_base::{Mode, NoMemory, Or, Seq, Text};
use pl_syntax::{Function, Name, Program};
use std::alloc::Global;

impl Use {
    /// Whether the name gets a value.
    pub fn assigns(self) -> bool
        ensures { result ≡ spec.assigns self }
    {
        matches!(self, Use::Assign | Use::AssignAt | Use::AssignIn)
    }

    /// Whether the name stands behind `@`.
    pub fn is_handle(self) -> bool
        ensures { result ≡ spec.is_handle self }
    {
        matches!(self, Use::Handle)
    }
}

/// Adds the names of outputs.
fn add_outs(out: &mut Vec<Occurrence>, outs: &[Name]) -> Result<(), NoMemory>
    ensures { OnOk result (out.new.items ≡ out.old.items ++ map (used Assign) outs.now) }
{
    for name in outs {
        add(out, Use::Assign, name)?;
    }
    Ok(())
}

/// Adds the names of parameters.
fn add_params(out: &mut Vec<Occurrence>, params: &[Option<Name>]) -> Result<(), NoMemory>
    ensures { OnOk result (out.new.items ≡ out.old.items ++ spec.of_params params.now) }
{
    for param in params {
        if let Some(name) = param {
            add(out, Use::Assign, name)?;
        }
    }
    Ok(())
}

/// The names of a function, its outputs and parameters first.
fn function_names(alloc: Global, function: &Function) -> Result<Vec<Occurrence>, NoMemory>
    ensures { IfOk result (λ v. v.items ≡ (spec.function_text function.now).names) }
{
    let mut names = Vec::new(alloc);
    add_outs(&mut names, function.outs.items())?;
    add_params(&mut names, function.params.items())?;
    add_block(&mut names, &function.body)?;
    Ok(names)
}

/// Adds each name that is assigned.
fn add_assigned(alloc: Global, vars: &mut Scope, names: &[Occurrence]) -> Result<(), NoMemory>
    ensures { OnOk result (vars.new ≡ insert_all (pointwise nat_eq) vars.old (map (λ o. o.name) (filter (λ o. spec.assigns o.how) names.now))) }
{
    for o in names {
        if o.how.assigns() {
            vars.add(alloc, o.name.bytes())?;
        }
    }
    Ok(())
}

/// Whether a name stands for one of these variables.
fn stands_for_variable(vars: &Scope, o: &Occurrence) -> bool
    ensures { result ≡ spec.is_variable vars.now o.now }
{
    !o.how.is_handle() && vars.has(&o.name)
}

/// The scope of these names, given its variables.
fn scope_in(
    alloc: Global,
    functions: &Functions,
    vars: &Scope,
    names: &[Occurrence],
) -> Result<Scope, Or<NameFault>>
    ensures scope { IfOk result (λ s. s ≡ spec.scope_of vars.now names.now) }
    ensures known { OnOk result (spec.first_unknown functions.now vars.now names.now ≡ None) }
    ensures unknown { (fault : NameFault) → result ≡ Err (Or.Is fault) → spec.first_unknown functions.now vars.now names.now ≡ Some fault }
{
    let mut scope = Scope::new(alloc);
    for o in names {
        if stands_for_variable(vars, o) {
            scope.add(alloc, o.name.bytes())?;
        } else if functions.number(&o.name).is_none() {
            return Err(unknown(o));
        }
    }
    Ok(scope)
}

/// A name that stands for nothing.
fn unknown(o: &Occurrence) -> Or<NameFault>
    ensures { (fault : NameFault) → result ≡ Or.Is fault → fault ≡ record { name = o.now.name; place = o.now.place } }
{
    match o.name.clone() {
        Ok(name) => Or::Is(NameFault {
            name,
            place: o.place,
        }),
        Err(_) => Or::Memory,
    }
}

/// The scope of the script.
fn script_scope(
    alloc: Global,
    functions: &Functions,
    program: &Program,
) -> Result<Scope, Or<NameFault>>
    ensures scope { IfOk result (λ s. s ≡ spec.scope_in (spec.script_text program.now)) }
    ensures known { OnOk result (spec.unknown_in functions.now (spec.script_text program.now) ≡ None) }
    ensures unknown { (fault : NameFault) → result ≡ Err (Or.Is fault) → spec.unknown_in functions.now (spec.script_text program.now) ≡ Some fault }
{
    let mut names = Vec::new(alloc);
    add_block(&mut names, &program.body)?;
    let mut vars = Scope::new(alloc);
    add_assigned(alloc, &mut vars, names.as_slice())?;
    scope_in(alloc, functions, &vars, names.as_slice())
}

/// The scope of a function.
fn function_scope(
    alloc: Global,
    functions: &Functions,
    function: &Function,
) -> Result<Scope, Or<NameFault>>
    ensures scope { IfOk result (λ s. s ≡ spec.scope_in (spec.function_text function.now)) }
    ensures known { OnOk result (spec.unknown_in functions.now (spec.function_text function.now) ≡ None) }
    ensures unknown { (fault : NameFault) → result ≡ Err (Or.Is fault) → spec.unknown_in functions.now (spec.function_text function.now) ≡ Some fault }
{
    let names = function_names(alloc, function)?;
    let mut vars = Scope::new(alloc);
    vars.add(alloc, b"nargin")?;
    vars.add(alloc, b"nargout")?;
    add_assigned(alloc, &mut vars, names.as_slice())?;
    scope_in(alloc, functions, &vars, names.as_slice())
}

/// Adds the scopes of functions.
fn add_scopes(
    alloc: Global,
    scopes: &mut Seq<Scope>,
    functions: &Functions,
    all: &[Function],
) -> Result<(), Or<NameFault>>
    ensures scopes { OnOk result (scopes.new ≡ scopes.old ++ map spec.scope_in (map spec.function_text all.now)) }
    ensures known { OnOk result (spec.unknown_among functions.now (map spec.function_text all.now) ≡ None) }
    ensures unknown { (fault : NameFault) → result ≡ Err (Or.Is fault) → spec.unknown_among functions.now (map spec.function_text all.now) ≡ Some fault }
{
    for function in all {
        scopes.push(function_scope(alloc, functions, function)?)?;
    }
    Ok(())
}

/// The program with its scopes, or the first name in the text that is neither a variable of its scope nor
/// a function. A variable is what is assigned anywhere in its scope, the index of a loop, a parameter or an
/// output; in a function `nargin` and `nargout` are variables too. A name behind `@` is a function or
/// unknown.
pub fn resolve(alloc: Global, program: Program) -> Result<Resolved, Or<NameFault>>
    ensures program { IfOk result (λ r. r.program ≡ program) }
    ensures scopes { IfOk result (λ r. r.scopes ≡ spec.scopes_of program) }
    ensures mode { IfOk result (λ r. r.mode ≡ Mode.Saturate) }
    ensures extras { IfOk result (λ r. r.extras ≡ extra_names) }
    // A program is resolved only where each name is known.
    ensures known { OnOk result (spec.unknown_of program ≡ None) }
    // It is refused for the first unknown name alone.
    ensures unknown { (fault : NameFault) → result ≡ Err (Or.Is fault) → spec.unknown_of program ≡ Some fault }
{
    resolve_beside(alloc, program, extra_table(alloc)?)
}

/// The same beside a table of extras of one's own. A name of the table is a function.
pub fn resolve_beside(
    alloc: Global,
    program: Program,
    extras: Seq<Text>,
) -> Result<Resolved, Or<NameFault>>
    ensures program { IfOk result (λ r. r.program ≡ program) }
    ensures scopes { IfOk result (λ r. r.scopes ≡ spec.scopes_of program) }
    ensures mode { IfOk result (λ r. r.mode ≡ Mode.Saturate) }
    ensures extras { IfOk result (λ r. r.extras ≡ extras) }
    ensures known { OnOk result (spec.unknown_beside extras program ≡ None) }
    ensures unknown { (fault : NameFault) → result ≡ Err (Or.Is fault) → spec.unknown_beside extras program ≡ Some fault }
{
    let functions = Functions::of(alloc, &program.functions, extras)?;
    let mut scopes = Seq::empty(alloc);
    scopes.push(script_scope(alloc, &functions, &program)?)?;
    add_scopes(alloc, &mut scopes, &functions, program.functions.as_slice())?;
    Ok(Resolved {
        program,
        scopes,
        mode: Mode::Saturate,
        extras: functions.into_extras(),
    })
}
