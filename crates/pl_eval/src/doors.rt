//! Operations that may ask for an extra: operators on their operands, and what an index selects.

ghost use Rattle.std.specs.Prelude.{◌≡◌, ◌∷◌, [], Result, Ok, Err, IfOk};
ghost use Rattle.pl_syntax.specs.Signs.{unary_sign, binary_sign};
ghost use Rattle.pl_operators.specs.Operating.{unary_of as unary_result, binary_of as binary_result};
ghost use Rattle.pl_meaning.specs.declared.halt.Halt.{Halt};
ghost use Rattle.pl_meaning.specs.Extras.{function_door as function_door_of};
ghost use Rattle.pl_meaning.specs.Known.{known_of};
ghost use Rattle.pl_meaning.specs.Promises.{Went, Halts, Keeps, at};
ghost use Rattle.pl_meaning.specs.Parts.{operator, one_extra as one_part, picked as picked_part};

use crate::calling::first_of;
use pl_access::{extra, read_part, settled};
use pl_base::{NoMemory, Place, Text};
use pl_meaning::{
    Halt, Known, Memory, World, binary_door, function_door, read_door, read_operands, unary_door,
};
use pl_operators::{Argument, binary as binary_of, unary as unary_of};
use pl_resolve::Resolved;
use pl_syntax::{Bin, Un};
use pl_values::Value;
use std::alloc::Global;

/// An extra that is used as a value.
fn one_extra<W: World>(
    alloc: Global,
    memory: &mut Memory<'_>,
    world: &mut W,
    place: Place,
    operands: Vec<Value>,
    number: usize,
) -> Result<Value, Halt>
    ensures ok { IfOk result (λ gained. Went (one_part place operands.items number) (at memory.old (W.log world.old)) gained (at memory.new (W.log world.new))) }
    ensures err { (x : Halt) → result ≡ Err x → Halts (one_part place operands.items number) (at memory.old (W.log world.old)) x (at memory.new (W.log world.new)) }
    ensures keeps { Keeps (at memory.old (W.log world.old)) (at memory.new (W.log world.new)) }
{
    let outputs = extra(alloc, memory, world, place, number, operands, 1)?;
    first_of(alloc, place, outputs)
}

/// One operand.
fn alone(alloc: Global, x: Value) -> Result<Vec<Value>, NoMemory>
    ensures { IfOk result (λ v. v.items ≡ x ∷ []) }
{
    let mut operands = Vec::new(alloc);
    operands.push(x)?;
    Ok(operands)
}

/// Two operands.
fn both(alloc: Global, x: Value, y: Value) -> Result<Vec<Value>, NoMemory>
    ensures { IfOk result (λ v. v.items ≡ x ∷ y ∷ []) }
{
    let mut operands = Vec::new(alloc);
    operands.push(x)?;
    operands.push(y)?;
    Ok(operands)
}

/// What an operator makes of one operand, or an extra.
#[tactic(auto, using(pl_meaning::proofs::Cut::cut))]
pub(crate) fn operate_on_one<W: World>(
    alloc: Global,
    program: &Resolved,
    client: bool,
    memory: &mut Memory<'_>,
    world: &mut W,
    place: Place,
    op: Un,
    x: Value,
) -> Result<Value, Halt>
    ensures ok { IfOk result (λ gained. Went (operator program.now client place (unary_sign op) (x ∷ []) (unary_result program.now.mode op x)) (at memory.old (W.log world.old)) gained (at memory.new (W.log world.new))) }
    ensures err { (y : Halt) → result ≡ Err y → Halts (operator program.now client place (unary_sign op) (x ∷ []) (unary_result program.now.mode op x)) (at memory.old (W.log world.old)) y (at memory.new (W.log world.new)) }
    ensures keeps { Keeps (at memory.old (W.log world.old)) (at memory.new (W.log world.new)) }
{
    match unary_door(program, client, op, &x) {
        None => settled!(alloc, place, unary_of(alloc, program.mode, op, &x)),
        Some(number) => {
            let operands = alone(alloc, x)?;
            one_extra(alloc, memory, world, place, operands, number)
        }
    }
}

/// What an operator makes of two operands, or an extra.
#[tactic(auto, using(pl_meaning::proofs::Cut::cut))]
pub(crate) fn operate_on_two<W: World>(
    alloc: Global,
    program: &Resolved,
    client: bool,
    memory: &mut Memory<'_>,
    world: &mut W,
    place: Place,
    op: Bin,
    x: Value,
    y: Value,
) -> Result<Value, Halt>
    ensures ok { IfOk result (λ gained. Went (operator program.now client place (binary_sign op) (x ∷ y ∷ []) (binary_result program.now.mode op x y)) (at memory.old (W.log world.old)) gained (at memory.new (W.log world.new))) }
    ensures err { (z : Halt) → result ≡ Err z → Halts (operator program.now client place (binary_sign op) (x ∷ y ∷ []) (binary_result program.now.mode op x y)) (at memory.old (W.log world.old)) z (at memory.new (W.log world.new)) }
    ensures keeps { Keeps (at memory.old (W.log world.old)) (at memory.new (W.log world.new)) }
{
    match binary_door(program, client, op, &x, &y) {
        None => settled!(alloc, place, binary_of(alloc, program.mode, op, &x, &y)),
        Some(number) => {
            let operands = both(alloc, x, y)?;
            one_extra(alloc, memory, world, place, operands, number)
        }
    }
}

/// The function of the library with this name.
pub(crate) fn known_named(name: &Text) -> Option<Known>
    ensures { result ≡ known_of name.now }
{
    Known::of(name.bytes())
}

/// The extra that a function of this name asks for, if it asks.
pub(crate) fn call_door(
    program: &Resolved,
    client: bool,
    name: &Text,
    known: Option<Known>,
    given: &Vec<Value>,
) -> Option<usize>
    requires { known ≡ known_of name.now }
    ensures { result ≡ function_door_of program.now client name.now given.now.items }
{
    function_door(program, client, name.bytes(), known, given.as_slice())
}

/// What an index selects of a variable, or an extra.
#[tactic(auto, using(pl_meaning::proofs::Cut::cut), unfolding(pl_meaning::specs::Parts::picked))]
pub(crate) fn picked<W: World>(
    alloc: Global,
    program: &Resolved,
    client: bool,
    memory: &mut Memory<'_>,
    world: &mut W,
    slot: u32,
    place: Place,
    list: &[Argument],
) -> Result<Value, Halt>
    ensures ok { IfOk result (λ gained. Went (picked_part program.now client slot place list.now) (at memory.old (W.log world.old)) gained (at memory.new (W.log world.new))) }
    ensures err { (x : Halt) → result ≡ Err x → Halts (picked_part program.now client slot place list.now) (at memory.old (W.log world.old)) x (at memory.new (W.log world.new)) }
    ensures keeps { Keeps (at memory.old (W.log world.old)) (at memory.new (W.log world.new)) }
{
    match read_door(program, client, memory.env.get(slot), list) {
        None => read_part(alloc, memory, world, slot, place, list),
        Some(number) => {
            let operands = read_operands(alloc, memory.env.get(slot), list)?;
            one_extra(alloc, memory, world, place, operands, number)
        }
    }
}
