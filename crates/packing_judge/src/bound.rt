//! Packings that were judged.

ghost use Rattle.std.specs.Prelude.{◌≡◌, length, All, IfOk, IfSome};
ghost use Rattle.packing_judge.specs.Bound.{IsBoundOf};

use net_graph::{Decision, NetGraph, Packing, feasible, value};
use std::alloc::{AllocError, Global};

/// A packing that is feasible where nothing is decided, with its value, which no network is shorter than.
#[derive(Drop)]
pub struct Bound {
    pub packing: Packing,
    pub value: u128,
}

/// Judges a packing; `None` where it isn't feasible, or has more cuts than the graph has arcs. An `Err` is want of
/// memory.
pub(crate) fn judged(
    alloc: Global,
    graph: &NetGraph,
    packing: Packing,
) -> Result<Option<Bound>, AllocError>
    requires { All (λ c. length c.members ≡ graph.now.vertices) packing }
    ensures { IfOk result (λ bound. IfSome bound (IsBoundOf graph.now)) }
{
    if packing.len() > 2 * graph.edge_count() as usize {
        return Ok(None);
    }
    let decision = Decision::none(alloc, graph)?;
    if !feasible(graph, &decision, &packing) {
        return Ok(None);
    }
    let value = value(graph, &decision, &packing);
    Ok(Some(Bound { packing, value }))
}
