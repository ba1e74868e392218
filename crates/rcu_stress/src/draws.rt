//! The words that a worker draws.
ghost use Rattle.std.specs.Prelude.{◌≡◌};
ghost use Rattle.rand_pcg.specs.Pcg.{pcg32};
ghost use Rattle.rcu_stress.specs.Draws.{generator_of};

use rand_core::SeedableRng;
use rand_core::utils::NextWord;
use rand_pcg::Pcg32;
use std::marker::Model;

/// The words of a worker: those of a PCG generator, which the seed and the worker's number fix.
#[derive(Drop)]
pub struct Draws {
    generator: Pcg32,
}

impl Model for Draws {
    ghost use Rattle.rand_pcg.specs.Lcg.{Lcg};

    ghost Value = { Lcg };

    ghost view = { λ draws. draws.generator };
}

impl Draws {
    /// Returns the draws of a worker: its generator's seed is the sum of the seed and the worker,
    /// wrapping.
    pub fn new(seed: u64, worker: u32) -> Draws
        ensures { result ≡ generator_of seed worker }
    {
        Draws {
            generator: Pcg32::seed_from_u64(seed.wrapping_add(u64::from(worker))),
        }
    }

    /// The next word of 32 bits.
    pub fn next(&mut self) -> u32
        ensures word { result ≡ (pcg32 self.old).0 }
        ensures generator { self.new ≡ (pcg32 self.old).1 }
    {
        self.generator.next_word()
    }
}
