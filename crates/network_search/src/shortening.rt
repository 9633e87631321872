//! Shorter networks, as the search proposes them.

ghost use Rattle.std.specs.Prelude.{◌≡◌, length, IfOk};

use crate::cleaning::Cleaner;
use crate::instance::{Instance, terminal_marks};
use crate::local_search::LocalSearch;
use crate::subgraph::Subgraph;
use net_graph::{EdgeSet, NetGraph};
use std::alloc::{AllocError, Global};

/// A network without what it doesn't need: a least spanning tree of its edges, without the leaves that are no terminals
/// and what hangs on them alone. That this is a network is not promised. An `Err` is want of memory.
pub fn propose_cleaned(
    alloc: Global,
    g: &NetGraph,
    network: &EdgeSet,
) -> Result<EdgeSet, AllocError>
    ensures { IfOk result (λ found. length found ≡ length g.now.edges) }
{
    let terminals = terminal_marks(alloc, g)?;
    let instance = Instance::new(g, &terminals);
    let given = Subgraph::of_set(alloc, instance, network)?;
    let mut tree = Subgraph::empty(alloc, instance)?;
    Cleaner::new(alloc, instance)?.clean(instance, &given, &mut tree)?;
    tree.edge_set(alloc, g)
}

/// A clean network made shorter by local search as long as that gains, in at most so many descents. That this is a
/// network is not promised. The same arguments give the same edges. An `Err` is want of memory.
pub fn propose_shorter(
    alloc: Global,
    g: &NetGraph,
    network: &EdgeSet,
    descents: u32,
) -> Result<EdgeSet, AllocError>
    ensures { IfOk result (λ found. length found ≡ length g.now.edges) }
{
    let terminals = terminal_marks(alloc, g)?;
    let instance = Instance::new(g, &terminals);
    let mut tree = Subgraph::of_set(alloc, instance, network)?;
    LocalSearch::new(alloc, instance)?.improve(instance, descents, &mut tree)?;
    tree.edge_set(alloc, g)
}
