//! Shorter networks: what a search proposes is judged here, and nothing rests on its way.

ghost use Rattle.std.specs.Prelude.{◌≡◌, ◌≤◌, length, IfOk};
ghost use Rattle.net_graph.specs.Network.{IsNetwork, length_of};

use net_graph::{EdgeSet, NetGraph, joins, length};
use network_search::{propose_cleaned, propose_shorter};
use std::alloc::{AllocError, Global};

/// So many descents of local search gain nearly all that there is to gain on 50 terminals.
pub const ENOUGH_DESCENTS: u32 = 100;

/// A network without what it doesn't need: a least spanning tree of its edges, without the leaves that are no terminals
/// and what hangs on them alone. An `Err` is want of memory.
pub fn cleaned(alloc: Global, g: &NetGraph, network: &EdgeSet) -> Result<EdgeSet, AllocError>
    requires size { length network.now ≡ length g.now.edges }
    requires network { IsNetwork g.now network.now }
    ensures size { IfOk result (λ found. length found ≡ length g.now.edges) }
    ensures network { IfOk result (λ found. IsNetwork g.now found) }
    ensures length { IfOk result (λ found. length_of g.now found ≤ length_of g.now network.now) }
{
    let proposed = propose_cleaned(alloc, g, network)?;
    shorter(alloc, g, network, proposed)
}

/// A network that is no longer than a given one: this one cleaned, and then made shorter by local search as long as
/// that gains, in at most so many descents. With none it is only cleaned. The same arguments give the same network. An
/// `Err` is want of memory.
pub fn shortened(
    alloc: Global,
    g: &NetGraph,
    network: &EdgeSet,
    descents: u32,
) -> Result<EdgeSet, AllocError>
    requires size { length network.now ≡ length g.now.edges }
    requires network { IsNetwork g.now network.now }
    ensures size { IfOk result (λ found. length found ≡ length g.now.edges) }
    ensures network { IfOk result (λ found. IsNetwork g.now found) }
    ensures length { IfOk result (λ found. length_of g.now found ≤ length_of g.now network.now) }
{
    let start = cleaned(alloc, g, network)?;
    let proposed = propose_shorter(alloc, g, &start, descents)?;
    shorter(alloc, g, &start, proposed)
}

// What is proposed in place of a network, where it is a shorter network; else the network. An `Err` is want of memory.
fn shorter(
    alloc: Global,
    g: &NetGraph,
    network: &EdgeSet,
    proposed: EdgeSet,
) -> Result<EdgeSet, AllocError>
    requires size { length network.now ≡ length g.now.edges }
    requires network { IsNetwork g.now network.now }
    requires proposed { length proposed ≡ length g.now.edges }
    ensures size { IfOk result (λ found. length found ≡ length g.now.edges) }
    ensures network { IfOk result (λ found. IsNetwork g.now found) }
    ensures length { IfOk result (λ found. length_of g.now found ≤ length_of g.now network.now) }
{
    if length(g, &proposed) < length(g, network) && joins(alloc, g, &proposed)? {
        Ok(proposed)
    } else {
        network.copy()
    }
}
