//! Ascents along a network, of which the result is judged.

ghost use Rattle.std.specs.Prelude.{◌≡◌, length, IfOk};
ghost use Rattle.net_graph.specs.Network.{length_of};
ghost use Rattle.packing_judge.specs.Outcome.{IsOutcomeFor};

use crate::outcome::{Goal, Outcome};
use cut_groups::Tree;
use guided_ascent::ascend_along;
use net_graph::{EdgeSet, NetGraph};
use std::alloc::{AllocError, Global};

/// Looks for a packing whose value is the length of a network, by an ascent of which each cut is entered once by the
/// network, where an edge of each cycle goes, and what joins no terminal; with a seed it is another ascent. Equal
/// arguments give equal results. An `Err` is want of memory.
pub fn guided(
    alloc: Global,
    graph: &NetGraph,
    network: &EdgeSet,
    seed: Option<u64>,
) -> Result<Outcome, AllocError>
    requires { length network.now ≡ length graph.now.edges }
    ensures { IfOk result
        (IsOutcomeFor graph.now (length_of graph.now network.now) (length_of graph.now network.now)) }
{
    let Some(tree) = Tree::of(alloc, graph, network)? else {
        return Ok(Outcome::Exhausted(None));
    };
    match ascend_along(alloc, graph, &tree, seed)? {
        Some(packing) => Goal::whole(graph, network).outcome(alloc, graph, packing, false),
        None => Ok(Outcome::Exhausted(None)),
    }
}
