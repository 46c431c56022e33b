//! Events that are told.

ghost use Rattle.std.specs.Prelude.{◌≡◌, IfOk, Result, Ok, Err};
ghost use Rattle.pl_meaning.specs.declared.halt.Halt.{Halt};
ghost use Rattle.pl_meaning.specs.Promises.{Went, Halts, Keeps, at};
ghost use Rattle.pl_meaning.specs.Running.{tell as telling};

use pl_base::Or;
use pl_meaning::{Event, Halt, Memory, World};

/// Tells the world an event.
#[tactic(auto, using(crate::proofs::Tells::told, crate::proofs::Tells::told_part, crate::proofs::Tells::keeps, crate::proofs::Cuts::cut))]
pub fn tell<W: World>(memory: &Memory<'_>, world: &mut W, event: Event) -> Result<(), Halt>
    ensures ok { IfOk result (λ v. Went (telling event) (at memory.now (W.log world.old)) v (at memory.now (W.log world.new))) }
    ensures err { (x : Halt) → result ≡ Err x → Halts (telling event) (at memory.now (W.log world.old)) x (at memory.now (W.log world.new)) }
    ensures keeps { Keeps (at memory.now (W.log world.old)) (at memory.now (W.log world.new)) }
{
    match world.event(event) {
        Ok(()) => Ok(()),
        Err(Or::Memory) => Err(Halt::Memory),
        Err(Or::Is(_)) => Err(Halt::Stopped),
    }
}
