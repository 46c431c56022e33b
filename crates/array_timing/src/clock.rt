//! The least time of several rounds.

use crate::work::{Operands, Work};
use anyhow::Result;
use std::rt::Clock;
use std::time::{Duration, Instant};

/// Does a work so many times, and answers what it gave last and the least time.
pub(crate) fn best<R: AllocGlobal + Clock>(
    rt: &R,
    work: Work,
    on: &mut Operands,
    rounds: u32,
) -> Result<(i64, Duration)> {
    let mut outcome = 0;
    let mut least = Duration::MAX;
    for _ in 0..rounds {
        let start = Instant::now(rt)?;
        outcome = work.run(rt.alloc(), on)?;
        let taken = start.elapsed(rt)?;
        if taken < least {
            least = taken;
        }
    }
    Ok((outcome, least))
}
