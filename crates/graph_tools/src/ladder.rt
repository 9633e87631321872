//! What is done with a search in a graph before its first split.

ghost use Rattle.std.specs.Prelude.{◌≡◌};

use branch::Search;
use dual_ascent::Rule;
use graph_search::{Exchanges, Raising, Shortening, Splitting};
use net_graph::NetGraph;
use packing_judge::Ground;
use std::alloc::{AllocError, Global};
use tight_packing::Budget;

// In how many descents of local search a network that the first leaf shows is made shorter at most.
const DESCENTS: u32 = 20;

// So many ascents are made along a network before cuts are exchanged along it.
const MOST_ASCENTS: u8 = 3;

// So many exchanges are made at most in a graph that can't be drawn in the plane: a network that is a little too long
// takes some of them.
const MOST_EXCHANGES: u8 = 6;

// In so many draws networks are grown by the shares that an exchange guesses.
const DRAWS: u32 = 5;

// What the first exchange may do there, and each other one, but for the looks.
const FIRST_BUDGET: Budget = Budget {
    rounds: 1000,
    searches: 800_000,
    looks: 0,
    moves: 4_000_000,
    seed: 20240607,
};

const FURTHER_BUDGET: Budget = Budget {
    rounds: 800,
    searches: 400_000,
    looks: 0,
    moves: 2_000_000,
    seed: 20240608,
};

// The looks of the first exchange there are so many divided by the square of the number of edges, and those of each
// other one half of it: the more edges a graph has, the more rounds an exchange takes and the longer its flows run. So
// the largest graphs take some seconds.
const LOOKS: u64 = 2_800_000_000_000_000;

// How leaves are split there.
const SPLITTING: Splitting = Splitting {
    most: 60,
    edge_splits: 20_000,
    after_spent: false,
    patience: 0,
    budget: Budget {
        rounds: 120,
        searches: 100_000,
        looks: 30_000_000,
        moves: 250_000,
        seed: 20240609,
    },
    draws: DRAWS,
    descents: DESCENTS,
};

// The looks of each exchange in a graph that can be drawn in the plane are so many divided by the square of the number
// of edges.
const LOOKS_IN_PLANE: u64 = 2_400_000_000_000_000;

// So many rounds are played there for each terminal at most, and so many in an exchange for a child of a split. Where
// the network is a little too long or there is a gap, rounds are played in vain; what can be closed takes fewer rounds
// the fewer groups there are.
const ROUNDS: u32 = 12;

const CHILD_ROUNDS: u32 = 3;

// In how many descents a network is made shorter there once cuts were exchanged.
const DESCENTS_IN_PLANE: u32 = 10;

/// The steps that raise a search in a graph, each where the ones before didn't settle it: a local search makes the
/// network that the first leaf shows shorter; ascents are made along the network; then cuts are exchanged along it.
#[derive(Clone, Copy)]
pub(crate) struct Ladder<'a> {
    pub graph: &'a NetGraph,
}

impl Raising for Ladder<'_> {
    ghost is_for = { λ ladder g. ladder.graph.now ≡ g };

    fn raise<F: Rule, G: Rule>(
        &self,
        alloc: Global,
        search: &mut Search<'_, F, G>,
        openings: u8,
    ) -> Result<(), AllocError> {
        let shortening = Shortening {
            graph: self.graph,
            descents: DESCENTS,
        };
        shortening.raise(alloc, search, 0)?;
        let ground = Ground::of(alloc, self.graph)?;
        let exchanges = if ground.is_in_plane() {
            exchanges_in_plane(self.graph, &ground)
        } else {
            exchanges_by_flows(self.graph, &ground)
        };
        exchanges.raise(alloc, search, openings)
    }
}

// Exchanges as they fit a graph that can be drawn in the plane.
fn exchanges_in_plane<'a>(graph: &'a NetGraph, ground: &'a Ground) -> Exchanges<'a>
    ensures { result.graph.now ≡ graph.now }
{
    let looks = looks_in(graph, LOOKS_IN_PLANE);
    let usual = Exchanges::in_plane(graph, ground);
    Exchanges {
        ascents: MOST_ASCENTS,
        goes_on: false,
        first: Budget {
            looks,
            ..with_rounds(usual.first, graph, ROUNDS)
        },
        further: Budget {
            looks,
            ..with_rounds(usual.further, graph, ROUNDS)
        },
        descents: DESCENTS_IN_PLANE,
        splitting: Splitting {
            edge_splits: SPLITTING.edge_splits,
            descents: DESCENTS,
            budget: with_rounds(usual.splitting.budget, graph, CHILD_ROUNDS),
            ..usual.splitting
        },
        ..usual
    }
}

// A budget with no more than so many rounds for each terminal of a graph.
fn with_rounds(budget: Budget, graph: &NetGraph, rounds: u32) -> Budget {
    let terminals = u32::try_from(graph.terminal_count()).unwrap_or(u32::MAX);
    Budget {
        rounds: budget.rounds.min(terminals.saturating_mul(rounds)),
        ..budget
    }
}

// Exchanges as they fit a graph whose cuts are found by flows.
fn exchanges_by_flows<'a>(graph: &'a NetGraph, ground: &'a Ground) -> Exchanges<'a>
    ensures { result.graph.now ≡ graph.now }
{
    let looks = looks_in(graph, LOOKS);
    Exchanges {
        graph,
        ground,
        most: MOST_EXCHANGES,
        ascents: MOST_ASCENTS,
        goes_on: false,
        first: Budget {
            looks,
            ..FIRST_BUDGET
        },
        further: Budget {
            looks: looks / 2,
            ..FURTHER_BUDGET
        },
        draws: DRAWS,
        descents: DESCENTS,
        splitting: SPLITTING,
    }
}

// So many looks divided by the square of the number of edges.
fn looks_in(graph: &NetGraph, looks: u64) -> u64 {
    let edges = u64::from(graph.edge_count());
    let square = edges.saturating_mul(edges);
    looks.checked_div(square).unwrap_or(looks)
}
