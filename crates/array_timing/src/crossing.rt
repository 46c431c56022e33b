//! That an array may cross threads: one is sent to another thread, and one is lent to two. That they run at once is
//! no clause's matter. None of this is timed.

ghost use Rattle.std.specs.Prelude.{◌≡◌, length, IfOk};

use pl_array::Arr;
use pl_base::NoMemory;
use std::alloc::Global;
use std::thread::{Threads, join};

/// The number of cells of a copy that went to a new thread, as that thread finds it, and of the array.
pub(crate) fn sent<R: Threads>(rt: &R, alloc: Global, a: &Arr) -> Result<(usize, usize), NoMemory>
    ensures { IfOk result (λ p. (p.0 ≡ length a.now.cells) × (p.1 ≡ length a.now.cells)) }
{
    let copy = a.copy(alloc)?;
    Ok(join(rt, move || copy.cells().len(), || a.cells().len()))
}

/// The number of cells, as a new thread and this one find it in the same array.
pub(crate) fn shared<R: Threads>(rt: &R, a: &Arr) -> (usize, usize)
    ensures there { result.0 ≡ length a.now.cells }
    ensures here { result.1 ≡ length a.now.cells }
{
    join(rt, || a.cells().len(), || a.cells().len())
}
