//! The answers of a step: the next state, or why a terminal can't stand there.

ghost use Rattle.std.specs.Prelude.{◌≡◌, None, Ok, Err};
ghost use Rattle.pl_steps.specs.Steps as spec;

use pl_base::Or;
use pl_frames::{Stack, State};
use pl_grammar::FaultKind;

/// The next state, or a fault; or memory was wanting.
pub type Step = Result<State, Or<FaultKind>>;

/// No program has the terminal there; what was held is let go.
pub fn refused<T: Drop>(held: T) -> Step
    ensures { result ≡ Err (Or.Is FaultKind.Unexpected) }
{
    drop(held);
    Err(Or::Is(FaultKind::Unexpected))
}

/// Memory was wanting; what was held is let go.
///
/// A `?` lets go of all that its function holds, and the prover shows it of each part of each; this shows it once.
pub fn wanting<T: Drop>(held: T) -> Step
    ensures { result ≡ Err Or.Memory }
{
    drop(held);
    Err(Or::Memory)
}

/// A refusal; a stack is let go too.
pub fn refused_with<T: Drop>(held: T, stack: Stack) -> Step
    ensures { result ≡ Err (Or.Is FaultKind.Unexpected) }
{
    drop(stack);
    refused(held)
}

/// A refusal; two things are let go.
pub fn refused_both<T: Drop, U: Drop>(held: T, other: U) -> Step
    ensures { result ≡ Err (Or.Is FaultKind.Unexpected) }
{
    drop(other);
    refused(held)
}

/// Nothing of what was held, which is let go.
pub fn nothing<T: Drop, U>(held: T) -> Option<U>
    ensures { result ≡ None }
{
    drop(held);
    None
}

/// The same; a stack is let go too.
pub fn nothing_with<T: Drop, U>(held: T, stack: Stack) -> Option<U>
    ensures { result ≡ None }
{
    drop(stack);
    nothing(held)
}

/// The next state, where there is room for it.
pub fn roomy(fits: bool, state: State) -> Step
    ensures { spec.Gives result (spec.roomy fits (Ok state)) }
{
    if fits {
        Ok(state)
    } else {
        Err(Or::Is(FaultKind::TooDeep))
    }
}
