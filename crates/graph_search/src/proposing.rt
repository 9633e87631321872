//! What proposes the edges on which searches by chains split their leaves.

ghost use Rattle.std.specs.Prelude.{◌≡◌, length};
ghost use Rattle.branch.specs.Views.{IsViewIn};

use branch::LeafView;
use net_graph::{EdgeSet, NetGraph, length};
use std::alloc::{AllocError, Global};
use strong_branching::{Choice, CutPlan, Draws, choose, choose_by_values};

// So many arcs are looked at where splits go along cuts, which takes some seconds.
const MOST_ARCS_OF_CUTS: u64 = 6_000_000;

// So many arcs are looked at where both children are bounded, which takes some seconds.
const MOST_ARCS: u64 = 1_500_000;

// Where splits go by their children's values so many arcs are looked at for each, in no more than so many candidates.
const ARCS_A_SPLIT: u32 = 5_000;

const MOST_CANDIDATES: u32 = 8;

// So many searches are begun at most, where both children are bounded.
const MOST_SEARCHES: u8 = 200;

/// What proposes the edges that are split on.
#[derive(Clone, Copy)]
pub(crate) enum Proposal {
    /// A least cut of the saturated ways from the root to a required vertex.
    Cut,
    /// The bounds of both children of each candidate, for one that closes.
    BothChildren,
    /// The values of both children, for a greater bound.
    Values,
}

impl Proposal {
    /// How many arcs may be looked at.
    pub fn most_arcs(self) -> u64 {
        match self {
            Proposal::Cut => MOST_ARCS_OF_CUTS,
            Proposal::BothChildren => MOST_ARCS,
            Proposal::Values => u64::MAX,
        }
    }

    /// How many searches may be begun, each from another first packing.
    pub fn most_searches(self) -> u8 {
        match self {
            Proposal::BothChildren => MOST_SEARCHES,
            Proposal::Cut | Proposal::Values => 1,
        }
    }

    /// What a search in a graph begins with. An `Err` is want of memory.
    pub fn begin(self, alloc: Global, graph: &NetGraph) -> Result<Proposing, AllocError> {
        match self {
            Proposal::Cut => Ok(Proposing::Cut(CutPlan::none(alloc, graph)?)),
            Proposal::BothChildren => Ok(Proposing::BothChildren),
            Proposal::Values => Ok(Proposing::Values(candidates_in(graph))),
        }
    }
}

/// The same, with what is kept from leaf to leaf.
#[derive(Drop)]
pub(crate) enum Proposing {
    Cut(CutPlan),
    BothChildren,
    // How many candidates of a leaf are looked at.
    Values(u32),
}

impl Proposing {
    /// The edge on which a leaf is split where so many splits are left, if there is one. An `Err` is want of memory.
    pub fn next(
        &mut self,
        alloc: Global,
        graph: &NetGraph,
        view: LeafView<'_>,
        network: &EdgeSet,
        left: u8,
        draws: &mut Draws,
    ) -> Result<Option<Choice>, AllocError>
        requires view { IsViewIn graph.now view }
        requires network { length network.now ≡ length graph.now.edges }
    {
        let aim = length(graph, network);
        match self {
            Proposing::Cut(plan) => plan.next(alloc, graph, view, aim, left, draws),
            Proposing::BothChildren => choose(alloc, graph, view, network, aim, draws),
            Proposing::Values(most) => { choose_by_values(alloc, graph, view, aim, *most, draws) }
        }
    }
}

// How many candidates of a leaf are looked at where splits go by their children's values.
fn candidates_in(graph: &NetGraph) -> u32 {
    let candidates = ARCS_A_SPLIT.checked_div(graph.edge_count()).unwrap_or(0);
    candidates.clamp(1, MOST_CANDIDATES)
}
