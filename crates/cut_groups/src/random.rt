//! Drawn numbers, from a seed: equal inputs give equal results.

use crate::cells::{at, set};
use rand_core::utils::NextWord;
use rand_pcg::Pcg32;

const STREAM: u64 = 721347520444481703;

/// A generator.
#[derive(Drop)]
pub struct Random {
    generator: Pcg32,
}

impl Random {
    /// The generator, at a seed.
    pub fn new(seed: u64) -> Random {
        Random {
            generator: Pcg32::new(seed, STREAM),
        }
    }

    /// A number below a count, or 0.
    pub fn below(&mut self, count: u32) -> u32 {
        let word = u64::from(self.generator.next_word());
        let scaled = word.wrapping_mul(u64::from(count)).wrapping_shr(32);
        (scaled & 0xffff_ffff) as u32
    }

    /// Draws an order.
    pub fn shuffle(&mut self, list: &mut Vec<u32>) {
        for left in 1..u32::try_from(list.len()).unwrap_or(0) {
            let other = self.below(left.wrapping_add(1));
            let held = at(list, left, 0);
            let drawn = at(list, other, 0);
            set(list, left, drawn);
            set(list, other, held);
        }
    }
}
