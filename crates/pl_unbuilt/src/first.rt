//! The first use of what nothing carries out yet.

ghost use Rattle.std.specs.Prelude.{◌≡◌, IfOk};
ghost use Rattle.pl_unbuilt.specs.Unbuilt.{unbuilt_of, earlier as earlier_of};

use crate::names::name;
use crate::nodes::nodes;
use pl_base::{NoMemory, Place};
use pl_resolve::Resolved;
use std::alloc::Global;

/// The one of two places that stands first in the text.
fn earlier(a: Option<Place>, b: Option<Place>) -> Option<Place>
    ensures { result ≡ earlier_of a b }
{
    match (a, b) {
        (Some(a), Some(b)) => { if b.at < a.at { Some(b) } else { Some(a) } }
        (Some(a), None) => Some(a),
        (None, b) => b,
    }
}

/// Where a program first uses what nothing carries out yet.
pub fn unbuilt(alloc: Global, resolved: &Resolved) -> Result<Option<Place>, NoMemory>
    ensures { IfOk result (λ p. p ≡ unbuilt_of resolved.now) }
{
    let nodes = nodes(alloc, resolved)?;
    let node = nodes.first().copied();
    Ok(earlier(node, name(alloc, resolved)?))
}
