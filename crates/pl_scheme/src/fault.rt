//! Why a scheme can't be made.

use thiserror::Error;

/// What doesn't fit.
#[derive(Clone, Copy, Debug, PartialEq, Eq, Error)]
pub enum SchemeFault {
    /// The numbers of the partition don't add up to the extent that they divide.
    #[error("partition does not fit")]
    PartSum,
    /// The grid has more places than workers, or fewer.
    #[error("grid does not fit")]
    GridSize,
    #[error("block size is zero")]
    BlockZero,
}
