//! A first network.

ghost use Rattle.std.specs.Prelude.{◌≡◌, ◌≤◌, length, IfOk};
ghost use Rattle.net_graph.specs.Graph.{total_of};
ghost use Rattle.net_graph.specs.Network.{IsNetwork, length_of};
ghost use Rattle.graph_solve.specs.Task.{all_edges};

use net_graph::{EdgeSet, NetGraph, joins};
use network_judge::shortened;
use network_search::propose_network;
use std::alloc::{AllocError, Global};

// From how many vertices a network is grown.
const STARTS: u32 = 16;

// In how many descents of local search the shortest of them is made shorter at most.
const DESCENTS: u32 = 20;

/// A network, no longer than all edges together: the shortest of those that grow from several vertices along shortest
/// paths, made shorter by local search. The same graph gives the same network. An `Err` is want of memory.
pub fn first_network(alloc: Global, g: &NetGraph) -> Result<EdgeSet, AllocError>
    requires { IsNetwork g.now (all_edges g.now) }
    ensures size { IfOk result (λ set. length set ≡ length g.now.edges) }
    ensures network { IfOk result (λ set. IsNetwork g.now set) }
    ensures length { IfOk result (λ set. length_of g.now set ≤ total_of g.now) }
{
    let proposed = propose_network(alloc, g, STARTS)?;
    let start = network_or_all(alloc, g, proposed)?;
    shortened(alloc, g, &start, DESCENTS)
}

// What is proposed, where it is a network; else all edges. An `Err` is want of memory.
fn network_or_all(alloc: Global, g: &NetGraph, proposed: EdgeSet) -> Result<EdgeSet, AllocError>
    requires size { length proposed ≡ length g.now.edges }
    requires joined { IsNetwork g.now (all_edges g.now) }
    ensures size { IfOk result (λ set. length set ≡ length g.now.edges) }
    ensures network { IfOk result (λ set. IsNetwork g.now set) }
{
    if joins(alloc, g, &proposed)? {
        Ok(proposed)
    } else {
        EdgeSet::full(alloc, g.edge_count())
    }
}
