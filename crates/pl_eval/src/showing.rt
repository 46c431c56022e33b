//! Statements that show values.

ghost use Rattle.std.specs.Prelude.{◌≡◌, ℕ, Bool, List, [], Option, Result, Ok, Err, Some, None, length, option_map, IfOk};
ghost use Rattle.std.specs.Global.{Vec};
ghost use Rattle.pl_meaning.specs.declared.halt.Halt.{Halt};
ghost use Rattle.pl_values.specs.declared.value.Value.{Value as Held};
ghost use Rattle.pl_meaning.specs.Promises.{Went, Halts, Keeps, at};
ghost use Rattle.pl_meaning.specs.declared.event.Event.TheVariants.{Print};
ghost use Rattle.pl_operators.specs.Showing.{shown_value};
ghost use Rattle.pl_meaning.specs.Running.{tell as telling};
ghost use Rattle.pl_meaning.specs.declared.frame.Exit.{Exit as Leaving};
ghost use Rattle.pl_meaning.specs.Names.{slot_of as slot_named};
ghost use Rattle.pl_syntax.specs.declared.stmt.Target.TheVariants.{Whole};
ghost use Rattle.pl_meaning.specs.Parts.{shown as shown_part, shown_first, shown_slot, shown_target_of, shown_target as shown_target_part, shown_targets as shown_targets_part, name_of, title as title_part};

use pl_access::{fail, read, tell};
use pl_base::{ErrKind, Text};
use pl_meaning::{Event, Exit, Frame, Halt, Memory, World, slot_of};
use pl_operators::shown;
use pl_resolve::Resolved;
use pl_syntax::{Expr, ExprKind, Name, Target};
use pl_values::Value;
use std::alloc::Global;

/// A value under a name.
#[tactic(auto, using(pl_meaning::proofs::Cut::cut))]
fn show<W: World>(
    alloc: Global,
    memory: &Memory<'_>,
    world: &mut W,
    name: &[u8],
    v: &Value,
) -> Result<(), Halt>
    ensures ok { IfOk result (λ gained. Went (telling (Print (shown_value name.now v.now))) (at memory.now (W.log world.old)) gained (at memory.now (W.log world.new))) }
    ensures err { (x : Halt) → result ≡ Err x → Halts (telling (Print (shown_value name.now v.now))) (at memory.now (W.log world.old)) x (at memory.now (W.log world.new)) }
    ensures keeps { Keeps (at memory.now (W.log world.old)) (at memory.now (W.log world.new)) }
{
    let text = shown(alloc, name, v)?;
    tell(memory, world, Event::Print(Text::from_vec(text)))?;
    Ok(())
}

/// A value under a name, where it is wanted.
fn show_if<W: World>(
    alloc: Global,
    memory: &Memory<'_>,
    world: &mut W,
    wanted: bool,
    name: &[u8],
    v: &Value,
) -> Result<(), Halt>
    ensures ok { IfOk result (λ gained. Went (shown_part wanted name.now v.now) (at memory.now (W.log world.old)) gained (at memory.now (W.log world.new))) }
    ensures err { (x : Halt) → result ≡ Err x → Halts (shown_part wanted name.now v.now) (at memory.now (W.log world.old)) x (at memory.now (W.log world.new)) }
    ensures keeps { Keeps (at memory.now (W.log world.old)) (at memory.now (W.log world.new)) }
{
    match wanted {
        false => Ok(()),
        true => show(alloc, memory, world, name, v),
    }
}

/// The name under which the value of an expression is shown.
fn title<'e>(program: &Resolved, frame: Frame, e: &'e Expr) -> &'e [u8]
    ensures { result.now ≡ title_part program.now frame e.now }
{
    if let ExprKind::Var(name) = &e.kind
        && slot_of(program, frame, &name.text).is_some()
    {
        return name.text.bytes();
    }
    b"ans"
}

/// The value of an expression that is a statement.
pub(crate) fn show_first<W: World>(
    alloc: Global,
    program: &Resolved,
    frame: Frame,
    memory: &Memory<'_>,
    world: &mut W,
    wanted: bool,
    e: &Expr,
    values: &[Value],
) -> Result<Exit, Halt>
    ensures ok { IfOk result (λ gained. Went (shown_first wanted (title_part program.now frame e.now) values.now) (at memory.now (W.log world.old)) gained (at memory.now (W.log world.new))) }
    ensures err { (x : Halt) → result ≡ Err x → Halts (shown_first wanted (title_part program.now frame e.now) values.now) (at memory.now (W.log world.old)) x (at memory.now (W.log world.new)) }
    ensures keeps { Keeps (at memory.now (W.log world.old)) (at memory.now (W.log world.new)) }
{
    match values {
        [] => Ok(Exit::Onward),
        [v, ..] => {
            show_if(alloc, memory, world, wanted, title(program, frame, e), v)?;
            Ok(Exit::Onward)
        }
    }
}

/// The name of a target.
fn name_in(target: &Target) -> &Name
    ensures { result.now ≡ name_of target.now }
{
    match target {
        Target::Whole(name) | Target::Indexed(name, _) | Target::Braced(name, _) => name,
    }
}

/// A value under a variable's name.
fn show_named<W: World>(
    alloc: Global,
    memory: &Memory<'_>,
    world: &mut W,
    name: &Name,
    v: &Value,
) -> Result<(), Halt>
    ensures ok { IfOk result (λ gained. Went (telling (Print (shown_value name.now.text v.now))) (at memory.now (W.log world.old)) gained (at memory.now (W.log world.new))) }
    ensures err { (x : Halt) → result ≡ Err x → Halts (telling (Print (shown_value name.now.text v.now))) (at memory.now (W.log world.old)) x (at memory.now (W.log world.new)) }
    ensures keeps { Keeps (at memory.now (W.log world.old)) (at memory.now (W.log world.new)) }
{
    show(alloc, memory, world, name.text.bytes(), v)
}

/// A variable whole, as it stands.
fn show_slot<W: World>(
    alloc: Global,
    program: &Resolved,
    memory: &Memory<'_>,
    world: &mut W,
    name: &Name,
    slot: u32,
) -> Result<(), Halt>
    ensures ok { IfOk result (λ gained. Went (shown_slot program.now name.now (Some slot)) (at memory.now (W.log world.old)) gained (at memory.now (W.log world.new))) }
    ensures err { (x : Halt) → result ≡ Err x → Halts (shown_slot program.now name.now (Some slot)) (at memory.now (W.log world.old)) x (at memory.now (W.log world.new)) }
    ensures keeps { Keeps (at memory.now (W.log world.old)) (at memory.now (W.log world.new)) }
{
    let v = read(alloc, memory, world, slot, name.place)?;
    show_named(alloc, memory, world, name, &v)
}

/// A variable by its name.
fn show_variable<W: World>(
    alloc: Global,
    program: &Resolved,
    frame: Frame,
    memory: &Memory<'_>,
    world: &mut W,
    name: &Name,
) -> Result<(), Halt>
    ensures ok { IfOk result (λ gained. Went (shown_slot program.now name.now (slot_named program.now frame name.now.text)) (at memory.now (W.log world.old)) gained (at memory.now (W.log world.new))) }
    ensures err { (x : Halt) → result ≡ Err x → Halts (shown_slot program.now name.now (slot_named program.now frame name.now.text)) (at memory.now (W.log world.old)) x (at memory.now (W.log world.new)) }
    ensures keeps { Keeps (at memory.now (W.log world.old)) (at memory.now (W.log world.new)) }
{
    match slot_of(program, frame, &name.text) {
        Some(slot) => show_slot(alloc, program, memory, world, name, slot),
        None => Err(fail(alloc, ErrKind::NoValue, name.place)),
    }
}

/// A variable whole, as a target that is it is shown.
#[tactic(auto, unfolding(pl_meaning::specs::Parts::shown_target))]
pub(crate) fn show_name<W: World>(
    alloc: Global,
    program: &Resolved,
    frame: Frame,
    memory: &Memory<'_>,
    world: &mut W,
    wanted: bool,
    name: &Name,
) -> Result<(), Halt>
    ensures ok { IfOk result (λ gained. Went (shown_target_part program.now wanted frame (Whole name.now)) (at memory.now (W.log world.old)) gained (at memory.now (W.log world.new))) }
    ensures err { (x : Halt) → result ≡ Err x → Halts (shown_target_part program.now wanted frame (Whole name.now)) (at memory.now (W.log world.old)) x (at memory.now (W.log world.new)) }
    ensures keeps { Keeps (at memory.now (W.log world.old)) (at memory.now (W.log world.new)) }
{
    match wanted {
        false => Ok(()),
        true => show_variable(alloc, program, frame, memory, world, name),
    }
}

/// A target whole, as it stands behind its statement.
#[tactic(auto, unfolding(pl_meaning::specs::Parts::shown_target))]
pub(crate) fn show_target<W: World>(
    alloc: Global,
    program: &Resolved,
    frame: Frame,
    memory: &Memory<'_>,
    world: &mut W,
    wanted: bool,
    target: &Target,
) -> Result<(), Halt>
    ensures ok { IfOk result (λ gained. Went (shown_target_part program.now wanted frame target.now) (at memory.now (W.log world.old)) gained (at memory.now (W.log world.new))) }
    ensures err { (x : Halt) → result ≡ Err x → Halts (shown_target_part program.now wanted frame target.now) (at memory.now (W.log world.old)) x (at memory.now (W.log world.new)) }
    ensures keeps { Keeps (at memory.now (W.log world.old)) (at memory.now (W.log world.new)) }
{
    match wanted {
        false => Ok(()),
        true => show_variable(alloc, program, frame, memory, world, name_in(target)),
    }
}

/// A target of a list; one without a name shows nothing.
fn show_each<W: World>(
    alloc: Global,
    program: &Resolved,
    frame: Frame,
    memory: &Memory<'_>,
    world: &mut W,
    wanted: bool,
    target: &Option<Target>,
) -> Result<(), Halt>
    ensures ok { IfOk result (λ gained. Went (shown_target_of program.now wanted frame target.now) (at memory.now (W.log world.old)) gained (at memory.now (W.log world.new))) }
    ensures err { (x : Halt) → result ≡ Err x → Halts (shown_target_of program.now wanted frame target.now) (at memory.now (W.log world.old)) x (at memory.now (W.log world.new)) }
    ensures keeps { Keeps (at memory.now (W.log world.old)) (at memory.now (W.log world.new)) }
{
    match target {
        None => Ok(()),
        Some(target) => show_target(alloc, program, frame, memory, world, wanted, target),
    }
}

/// The targets of a list, in order.
pub(crate) fn show_targets<W: World>(
    alloc: Global,
    program: &Resolved,
    frame: Frame,
    memory: &Memory<'_>,
    world: &mut W,
    wanted: bool,
    targets: &[Option<Target>],
) -> Result<(), Halt>
    ensures ok { IfOk result (λ gained. Went (shown_targets_part program.now wanted frame targets.now) (at memory.now (W.log world.old)) gained (at memory.now (W.log world.new))) }
    ensures err { (x : Halt) → result ≡ Err x → Halts (shown_targets_part program.now wanted frame targets.now) (at memory.now (W.log world.old)) x (at memory.now (W.log world.new)) }
    ensures keeps { Keeps (at memory.now (W.log world.old)) (at memory.now (W.log world.new)) }
{
    for target in targets {
        show_each(alloc, program, frame, memory, world, wanted, target)?;
    }
    Ok(())
}
