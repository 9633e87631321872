//! What searches draw, and how much they look at.

use cut_groups::Random;

/// Drawn numbers, and a budget in arcs.
#[derive(Drop)]
pub struct Draws {
    pub(crate) random: Random,
    left: u64,
}

impl Draws {
    /// The draws of a seed; so many arcs may be looked at.
    pub fn new(seed: u64, arcs: u64) -> Draws {
        Draws {
            random: Random::new(seed),
            left: arcs,
        }
    }

    /// Whether no more arcs may be looked at.
    pub fn is_spent(&self) -> bool {
        self.left == 0
    }

    /// A seed of an order.
    pub fn seed(&mut self) -> u64 {
        u64::from(self.random.below(u32::MAX))
    }

    // Counts arcs that are looked at.
    pub(crate) fn spend(&mut self, arcs: u32) {
        self.left = self.left.saturating_sub(u64::from(arcs));
    }
}
