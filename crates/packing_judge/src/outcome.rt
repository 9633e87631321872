//! How what looks for a packing ends.

ghost use Rattle.std.specs.Prelude.{◌≡◌, ◌≤◌, ◌↔◌, All, min, length, IfOk, IsTrue};
ghost use Rattle.net_graph.specs.Network.{length_of};
ghost use Rattle.packing_judge.specs.Outcome.{IsOutcomeFor};

use crate::bound::{Bound, judged};
use net_graph::{EdgeSet, NetGraph, Packing, length};
use std::alloc::{AllocError, Global};

/// How an exchange, or an ascent along a network, ended.
#[derive(Drop)]
pub enum Outcome {
    /// The value of the packing is at least the wanted one, and at most the length of the network.
    Tight(Bound),
    /// There is no packing of the wanted value along the cleaned network. That is computed and not proved. The bound is
    /// what is at hand.
    Impossible(Option<Bound>),
    /// The budget is spent, the ascent found no cut to go on with, or the network does not join the terminals. The
    /// bound is what is at hand.
    Exhausted(Option<Bound>),
}

/// What is aimed at: the length of a network, and the wanted value, which is no more.
#[derive(Clone, Copy)]
pub(crate) struct Goal {
    pub length: u64,
    pub wanted: u64,
}

impl Goal {
    /// What is aimed at along a network.
    pub fn of(graph: &NetGraph, network: &EdgeSet, wanted: u64) -> Goal
        requires { length network.now ≡ length graph.now.edges }
        ensures length { result.length ≡ length_of graph.now network.now }
        ensures wanted { result.wanted ≡ min wanted result.length }
    {
        let length = length(graph, network);
        Goal {
            length,
            wanted: wanted.min(length),
        }
    }

    /// The length of a network, all of which is wanted.
    pub fn whole(graph: &NetGraph, network: &EdgeSet) -> Goal
        requires { length network.now ≡ length graph.now.edges }
        ensures length { result.length ≡ length_of graph.now network.now }
        ensures wanted { result.wanted ≡ length_of graph.now network.now }
    {
        let length = length(graph, network);
        Goal {
            length,
            wanted: length,
        }
    }

    /// How it ends with a proposed packing, which is judged. An `Err` is want of memory.
    pub fn outcome(
        self,
        alloc: Global,
        graph: &NetGraph,
        packing: Packing,
        is_impossible: bool,
    ) -> Result<Outcome, AllocError>
        requires { All (λ c. length c.members ≡ graph.now.vertices) packing }
        ensures { IfOk result (IsOutcomeFor graph.now self.length self.wanted) }
    {
        let bound = judged(alloc, graph, packing)?;
        Ok(match bound {
            Some(bound) if self.is_reached(bound.value) => Outcome::Tight(bound),
            bound if is_impossible => Outcome::Impossible(bound),
            bound => Outcome::Exhausted(bound),
        })
    }

    // Whether a value is at least the wanted one, and no network's length is passed by it.
    fn is_reached(self, value: u128) -> bool
        ensures { IsTrue result ↔ (self.wanted ≤ value) × (value ≤ self.length) }
    {
        u128::from(self.wanted) <= value && value <= u128::from(self.length)
    }
}
