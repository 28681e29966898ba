//! Numbers at random, the same for each run of a seed.
//!
//! It is built on `rand_core` and `rand_pcg`. `world_plays` and `service_plays` use `Words::below` and `Words::one_in`, of
//! which no clause says anything.
#![tactic(auto)]

use rand_core::SeedableRng;
use rand_core::utils::NextWord;
use rand_pcg::Lcg64Xsh32;

/// What chooses at random.
#[derive(Drop)]
pub struct Words(Lcg64Xsh32);

impl Words {
    /// The words that this seed makes.
    pub fn new(seed: u32) -> Words {
        Words(Lcg64Xsh32::seed_from_u64(u64::from(seed)))
    }

    /// A number below this one, or 0.
    pub fn below(&mut self, n: u32) -> u32 {
        let word = self.0.next_word();
        if n == 0 { 0 } else { word % n }
    }

    /// Whether one of so many cases is here.
    pub fn one_in(&mut self, n: u32) -> bool {
        self.below(n) == 0
    }
}
