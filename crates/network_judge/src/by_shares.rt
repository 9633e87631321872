//! Shorter networks by shares of the edges, judged.

ghost use Rattle.std.specs.Prelude.{◌≡◌, ◌≤◌, length, IfOk};
ghost use Rattle.net_graph.specs.Network.{IsNetwork, length_of};

use crate::shortening::shortened;
use net_graph::{EdgeSet, NetGraph, joins, length};
use network_search::propose_by_shares;
use std::alloc::{AllocError, Global};

// From how many vertices a network is grown in each draw.
const STARTS: u32 = 2;

/// A network that is no longer than a given one: the shortest of this one and of those that grow, in so many draws,
/// along shortest paths where edges are shorter by shares in percent, each made shorter by local search in at most so
/// many descents. The same arguments give the same network. An `Err` is want of memory.
pub fn shortened_by_shares(
    alloc: Global,
    g: &NetGraph,
    network: &EdgeSet,
    shares: &[u32],
    draws: u32,
    descents: u32,
) -> Result<EdgeSet, AllocError>
    requires size { length network.now ≡ length g.now.edges }
    requires network { IsNetwork g.now network.now }
    ensures size { IfOk result (λ found. length found ≡ length g.now.edges) }
    ensures network { IfOk result (λ found. IsNetwork g.now found) }
    ensures length { IfOk result (λ found. length_of g.now found ≤ length_of g.now network.now) }
{
    let mut best = network.copy()?;
    for draw in 0..draws {
        let proposed = propose_by_shares(alloc, g, shares, draw, STARTS)?;
        best = better(alloc, g, best, proposed, descents)?;
    }
    Ok(best)
}

// The shorter one of a network and of what a local search makes of a proposed one. An `Err` is want of memory.
fn better(
    alloc: Global,
    g: &NetGraph,
    network: EdgeSet,
    proposed: EdgeSet,
    descents: u32,
) -> Result<EdgeSet, AllocError>
    requires size { length network ≡ length g.now.edges }
    requires network { IsNetwork g.now network }
    requires proposed { length proposed ≡ length g.now.edges }
    ensures size { IfOk result (λ found. length found ≡ length g.now.edges) }
    ensures network { IfOk result (λ found. IsNetwork g.now found) }
    ensures length { IfOk result (λ found. length_of g.now found ≤ length_of g.now network) }
{
    if !joins(alloc, g, &proposed)? {
        return Ok(network);
    }
    let found = shortened(alloc, g, &proposed, descents)?;
    if length(g, &found) < length(g, &network) {
        Ok(found)
    } else {
        Ok(network)
    }
}
