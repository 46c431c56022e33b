//! What an operand's form is to a bracket or a dot behind it.

ghost use Rattle.std.specs.Prelude.{◌≡◌};
ghost use Rattle.pl_steps.specs.Steps as spec;

use crate::refusing::nothing;
use pl_frames::Form;
use pl_syntax::{Name, Target};

/// A target that is a name alone.
pub fn target_name(target: Target) -> Option<Name>
    ensures { result ≡ spec.target_name target }
{
    match target {
        Target::Whole(name) => Some(name),
        other => nothing(other),
    }
}

fn target_has_state(target: &Target) -> bool
    ensures { result ≡ spec.target_has_state target.now }
{
    match target {
        Target::Whole(_) => true,
        Target::Indexed(_, _) => true,
        Target::Braced(_, _) => false,
    }
}

/// A name without dots, or a call of one: what may stand before `.State`.
pub fn has_state(form: &Form) -> bool
    ensures { result ≡ spec.has_state form.now }
{
    match form {
        Form::Target(target) => target_has_state(target),
        _ => false,
    }
}
