//! How much work may be done.

/// How much work may be done; it is looked at between rounds.
#[derive(Clone, Copy)]
pub struct Budget {
    /// Rounds of sweeps with new cuts, and multipliers.
    pub rounds: u32,
    /// Searches for a new cut.
    pub searches: u32,
    /// Arcs that the finder of cuts looks at.
    pub looks: u64,
    /// Moves of weight from one cut to another.
    pub moves: u32,
    /// The seed of the drawn numbers: another seed is another attempt.
    pub seed: u64,
}

impl Budget {
    /// What closes most draws of 50 points: they take about a third of it.
    pub const USUAL: Budget = Budget {
        rounds: 250,
        searches: 400_000,
        looks: u64::MAX,
        moves: 4_000_000,
        seed: 20240607,
    };

    /// What may be done in coarse units, of a budget for the finest: half as much.
    pub fn for_coarse_units(self) -> Budget {
        Budget {
            rounds: self.rounds / 2,
            searches: self.searches / 2,
            looks: self.looks,
            moves: self.moves / 2,
            seed: self.seed,
        }
    }
}
