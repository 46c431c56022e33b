//! Numbers that look like chance and are the same at each run: a linear congruential generator.

use pl_base::NoMemory;
use std::alloc::Global;

/// A generator, which is the number that it has come to.
#[derive(Drop)]
pub struct Generator {
    state: u64,
}

impl Generator {
    pub fn new(seed: u64) -> Generator {
        Generator { state: seed }
    }

    /// The next 32 bits: the upper half, since the lowest bits repeat soon.
    fn next(&mut self) -> u64 {
        self.state = self
            .state
            .wrapping_mul(6_364_136_223_846_793_005)
            .wrapping_add(1_442_695_040_888_963_407);
        self.state >> 32
    }

    /// A number below the bound, and 0 where the bound is 0.
    pub fn below(&mut self, bound: u64) -> u64 {
        self.next() % bound.max(1)
    }

    pub fn one_in(&mut self, count: u64) -> bool {
        self.below(count) == 0
    }

    /// Mostly small, so that numbers come twice; else of middle size, any, or near one of the ends.
    pub fn number(&mut self) -> i64 {
        match self.below(10) {
            0..=4 => self.below(9).cast_signed().wrapping_sub(4),
            5 | 6 => self.below(2001).cast_signed().wrapping_sub(1000),
            7 => self.any(),
            8 => i64::MAX.wrapping_sub(self.below(4).cast_signed()),
            _ => i64::MIN.wrapping_add(self.below(4).cast_signed()),
        }
    }

    /// Any 64 bits.
    fn any(&mut self) -> i64 {
        let upper = self.next().wrapping_mul(4_294_967_296);
        upper.wrapping_add(self.next()).cast_signed()
    }

    pub fn numbers(&mut self, alloc: Global, count: u64) -> Result<Vec<i64>, NoMemory> {
        let mut numbers = Vec::new(alloc);
        for _ in 0..count {
            numbers.push(self.number())?;
        }
        Ok(numbers)
    }
}
