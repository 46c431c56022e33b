//! How the cells of an array are laid over workers: a partition of its rows or columns, or blocks on a
//! grid of workers.
//!
//! A scheme that exists is whole: its partition adds up to the extent that it divides, or its grid has
//! a place for each worker and its blocks aren't empty. The two constructors promise to refuse exactly
//! what is not so. The schemes are those of `codistributor1d` and `codistributor2dbc` in the MathWorks
//! Parallel Computing Toolbox User's Guide.
#![tactic(auto)]

mod fault;
mod grid;
mod partition;
mod scheme;
mod size;

pub use fault::SchemeFault;
pub use grid::Scheme2dbc;
pub use partition::Scheme1d;
pub use scheme::Scheme;
pub use size::{Cell, Size};
