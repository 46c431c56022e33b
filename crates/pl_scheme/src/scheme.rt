//! Either sort of scheme.

ghost use Rattle.std.specs.Prelude.{◌≡◌, IfOk};

use crate::grid::Scheme2dbc;
use crate::partition::Scheme1d;
use pl_base::NoMemory;
use std::alloc::Global;

/// How an array lies over workers.
#[derive(Debug, Drop, PartialEq, Eq)]
pub enum Scheme {
    /// Whole rows, or whole columns, one stretch for each worker.
    One(Scheme1d),
    /// Blocks, dealt out over a grid of workers.
    Two(Scheme2dbc),
}

impl Scheme {
    /// An equal scheme.
    pub fn copy(&self, alloc: Global) -> Result<Scheme, NoMemory>
        ensures { IfOk result (λ s. s ≡ self.now) }
    {
        match self {
            Scheme::One(partition) => Ok(Scheme::One(partition.copy(alloc)?)),
            Scheme::Two(grid) => Ok(Scheme::Two(grid.copy())),
        }
    }
}
