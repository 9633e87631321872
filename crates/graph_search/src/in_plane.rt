//! How much is exchanged in a graph that can be drawn in the plane.

ghost use Rattle.std.specs.Prelude.{◌≡◌};

use crate::exchanging::Exchanges;
use crate::splitting::Splitting;
use net_graph::NetGraph;
use network_judge::ENOUGH_DESCENTS;
use packing_judge::Ground;
use tight_packing::Budget;

// So many exchanges are made at most.
const MOST_EXCHANGES: u8 = 3;

// What each but the first may do, with other draws.
const FURTHER_BUDGET: Budget = Budget {
    rounds: 200,
    searches: 200_000,
    looks: u64::MAX,
    moves: 2_000_000,
    seed: 20240608,
};

// In so many draws networks are grown by the shares that an exchange guesses which leaves a gap: what full trees of few
// members don't make is found so.
const DRAWS: u32 = 5;

// How leaves are split.
const SPLITTING: Splitting = Splitting {
    most: 60,
    edge_splits: 75_000,
    after_spent: true,
    patience: 3,
    budget: Budget {
        rounds: 120,
        searches: 200_000,
        looks: u64::MAX,
        moves: 2_000_000,
        seed: 20240609,
    },
    draws: 2,
    descents: ENOUGH_DESCENTS,
};

impl<'a> Exchanges<'a> {
    /// Exchanges on the ground of a graph as they fit one that can be drawn in the plane, of which the cheapest cuts
    /// are found fast.
    pub fn in_plane(graph: &'a NetGraph, ground: &'a Ground) -> Exchanges<'a>
        ensures { result.graph.now ≡ graph.now }
    {
        Exchanges {
            graph,
            ground,
            most: MOST_EXCHANGES,
            ascents: 0,
            goes_on: true,
            first: Budget::USUAL,
            further: FURTHER_BUDGET,
            draws: DRAWS,
            descents: ENOUGH_DESCENTS,
            splitting: SPLITTING,
        }
    }
}
