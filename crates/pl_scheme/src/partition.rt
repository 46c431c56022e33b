//! A partition of the rows or of the columns.

ghost use Rattle.std.specs.Prelude.{◌≡◌, ◌^◌, ◌<◌, ◌≤◌, ◌==◌, length, IfOk};
ghost use Rattle.std.specs.List.{sum};
ghost use Rattle.pl_scheme.specs.Schemes.{along, partitioned};

use crate::fault::SchemeFault;
use crate::size::Size;
use pl_base::{NoMemory, Seq};
use std::alloc::Global;
use std::marker::Model;

/// A partition: dimension 1 divides the rows, dimension 2 the columns, and each worker in order has the
/// next stretch.
#[derive(Debug, Drop, PartialEq, Eq)]
pub struct Scheme1d {
    dim: u32,
    part: Seq<u32>,
    size: Size,
}

impl Model for Scheme1d {
    ghost use Rattle.pl_scheme.specs.Schemes.{Partition, Divides};

    ghost Value = { Partition };

    ghost use Rattle.pl_scheme.specs.Inner.{partition_of, partition_back};

    ghost view = { partition_of };

    ghost inverse = { partition_back };

    ghost invariant = { λ s. Divides (partition_of s) };
}

impl Scheme1d {
    /// The partition with these numbers, one for each worker, of an array of this size. `PartSum` exactly
    /// where they don't add up to the rows (dimension 1) or columns (dimension 2).
    pub fn new(dim: u32, part: Vec<u32>, size: Size) -> Result<Scheme1d, SchemeFault>
        requires dim { (0 < dim) × (dim ≤ 2) }
        requires some { 0 < length part.items }
        requires few { length part.items < 2 ^ 32 }
        ensures { result ≡ partitioned dim part.items size }
    {
        let extent = if dim == 1 { size.rows } else { size.cols };
        if !adds_up(part.as_slice(), extent) {
            return Err(SchemeFault::PartSum);
        }
        let part = Seq::of(part);
        Ok(Scheme1d { dim, part, size })
    }

    /// An equal partition.
    pub fn copy(&self, alloc: Global) -> Result<Scheme1d, NoMemory>
        ensures { IfOk result (λ s. s ≡ self.now) }
    {
        let part = Vec::from_slice(alloc, self.part.items())?;
        Ok(Scheme1d {
            dim: self.dim,
            part: Seq::of(part),
            size: self.size,
        })
    }

    /// The dimension that is divided.
    pub fn dim(&self) -> u32
        ensures { result ≡ self.now.dim }
    {
        self.dim
    }

    /// How many rows or columns each worker has.
    pub fn part(&self) -> &[u32]
        ensures part { result.now ≡ self.now.part }
        ensures adds { sum self.now.part ≡ along self.now.dim self.now.size }
    {
        self.part.items()
    }

    /// The size of the whole array.
    pub fn size(&self) -> Size
        ensures { result ≡ self.now.size }
    {
        self.size
    }
}

/// Whether the numbers add up to the extent.
fn adds_up(part: &[u32], extent: u32) -> bool
    requires { length part.now < 2 ^ 32 }
    ensures { result ≡ (sum part.now == extent) }
{
    let mut total: u64 = 0;
    for count in part {
        total += u64::from(*count);
    }
    total == u64::from(extent)
}
