//! What a name stands for in a scope.

ghost use Rattle.std.specs.Prelude.{◌≡◌};
ghost use Rattle.pl_meaning.specs.Names.{slot_of as slot_named, function_of as function_named};

use crate::frame::Frame;
use pl_base::Text;
use pl_resolve::Resolved;

/// The slot of a variable of the frame's scope.
pub fn slot_of(program: &Resolved, frame: Frame, name: &Text) -> Option<u32>
    ensures { result ≡ slot_named program.now frame name.now }
{
    let scope = program.scopes.items().get(frame.scope)?;
    scope.slot(name)
}

/// The number of a local function.
pub fn function_of(program: &Resolved, name: &Text) -> Option<usize>
    ensures { result ≡ function_named program.now name.now }
{
    let functions = program.program.functions.as_slice();
    functions.iter().position(|g| name == &g.name.text)
}
