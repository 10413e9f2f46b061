//! Numbers that look random, the same on every machine.

ghost use Rattle.std.specs.Prelude.{◌<◌};

use rand_core::{Rng, SeedableRng};
use rand_xoshiro::SplitMix64;

/// The numbers of one seed.
#[derive(Drop)]
pub struct Random {
    generator: SplitMix64,
}

impl Random {
    /// The numbers that follow from a seed.
    pub fn new(seed: u64) -> Random {
        Random {
            generator: SplitMix64::seed_from_u64(seed),
        }
    }

    /// The next number, below `n`.
    pub fn below(&mut self, n: usize) -> usize
        requires { 0 < n }
        ensures { result < n }
    {
        (self.generator.next_u64() % n as u64) as usize
    }
}
