//! Blocks on a grid of workers.

ghost use Rattle.std.specs.Prelude.{◌≡◌, ◌<◌};
ghost use Rattle.pl_scheme.specs.Schemes.{gridded};

use crate::fault::SchemeFault;
use crate::size::Size;
use std::marker::Model;

/// Blocks on a grid: block (I, J) lies at the grid's place (I mod p, J mod q). Workers are numbered along
/// the grid's rows, or along its columns.
#[derive(Debug, Drop, PartialEq, Eq)]
pub struct Scheme2dbc {
    p: u32,
    q: u32,
    blk: u32,
    by_rows: bool,
    size: Size,
}

impl Model for Scheme2dbc {
    ghost use Rattle.pl_scheme.specs.Schemes.{Grid, Tiles};

    ghost Value = { Grid };

    ghost use Rattle.pl_scheme.specs.Inner.{grid_of, grid_back};

    ghost view = { grid_of };

    ghost inverse = { grid_back };

    ghost invariant = { λ s. Tiles (grid_of s) };
}

impl Scheme2dbc {
    /// Blocks of `blk` rows and columns on a grid of `p` rows and `q` columns of workers, for an array of
    /// this size. `GridSize` exactly where the grid hasn't a place for each worker; else `BlockZero`
    /// exactly where the block is empty.
    pub fn new(
        p: u32,
        q: u32,
        blk: u32,
        by_rows: bool,
        size: Size,
        workers: u32,
    ) -> Result<Scheme2dbc, SchemeFault>
        requires { 0 < workers }
        ensures { result ≡ gridded p q blk by_rows size workers }
    {
        if u64::from(p) * u64::from(q) != u64::from(workers) {
            return Err(SchemeFault::GridSize);
        }
        if blk == 0 {
            return Err(SchemeFault::BlockZero);
        }
        Ok(Scheme2dbc {
            p,
            q,
            blk,
            by_rows,
            size,
        })
    }

    /// An equal scheme.
    pub fn copy(&self) -> Scheme2dbc
        ensures { result ≡ self.now }
    {
        Scheme2dbc {
            p: self.p,
            q: self.q,
            blk: self.blk,
            by_rows: self.by_rows,
            size: self.size,
        }
    }

    /// The grid's rows.
    pub fn p(&self) -> u32
        ensures { result ≡ self.now.p }
    {
        self.p
    }

    /// The grid's columns.
    pub fn q(&self) -> u32
        ensures { result ≡ self.now.q }
    {
        self.q
    }

    /// The rows and columns of a block.
    pub fn blk(&self) -> u32
        ensures { result ≡ self.now.blk }
    {
        self.blk
    }

    /// Whether workers are numbered along the grid's rows.
    pub fn by_rows(&self) -> bool
        ensures { result ≡ self.now.by_rows }
    {
        self.by_rows
    }

    /// The size of the whole array.
    pub fn size(&self) -> Size
        ensures { result ≡ self.now.size }
    {
        self.size
    }
}
