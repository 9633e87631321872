//! The vertices that a network has to reach.

ghost use Rattle.std.specs.Prelude.{◌<◌, false, replicate, All, IfOk};
ghost use Rattle.std.specs.List.Sorted.{IsStrictlyIncreasing};
ghost use Rattle.net_graph.specs.Adds.{Adds};
ghost use Rattle.net_graph.specs.Decision.{IsDecisionFor, IsRequired};
ghost use Rattle.dual_ascent.specs.Steps.{AreRequired};

use net_graph::{Decision, NetGraph, VertexSet, required};
use std::alloc::{AllocError, Global};

/// The required vertices, ascending. An `Err` is want of memory.
pub(crate) fn required_vertices(
    alloc: Global,
    g: &NetGraph,
    d: &Decision,
) -> Result<Vec<u32>, AllocError>
    requires { IsDecisionFor g.now d.now }
    ensures required { IfOk result (λ list. AreRequired g.now d.now list.items) }
    ensures below { IfOk result (λ list. All (λ v. v < g.now.vertices) list.items) }
    ensures ascending { IfOk result (λ list. IsStrictlyIncreasing list.items) }
{
    let set = required_set(alloc, g, d)?;
    required_in(alloc, g, d, &set)
}

/// The set of the required vertices. An `Err` is want of memory.
pub fn required_set(alloc: Global, g: &NetGraph, d: &Decision) -> Result<VertexSet, AllocError>
    requires { IsDecisionFor g.now d.now }
    ensures { IfOk result (λ set. Adds (IsRequired g.now d.now) (replicate g.now.vertices false) set) }
{
    let mut set = VertexSet::empty(alloc, g.vertex_count())?;
    for v in 0..g.vertex_count() {
        if required(g, d, v) {
            set.add(v);
        }
    }
    Ok(set)
}

/// The required vertices, ascending, where the set is known that they are. An `Err` is want of memory.
pub fn required_in(
    alloc: Global,
    g: &NetGraph,
    d: &Decision,
    set: &VertexSet,
) -> Result<Vec<u32>, AllocError>
    requires decision { IsDecisionFor g.now d.now }
    requires set { Adds (IsRequired g.now d.now) (replicate g.now.vertices false) set.now }
    ensures required { IfOk result (λ list. AreRequired g.now d.now list.items) }
    ensures below { IfOk result (λ list. All (λ v. v < g.now.vertices) list.items) }
    ensures ascending { IfOk result (λ list. IsStrictlyIncreasing list.items) }
{
    let _ = d;
    let count = g.vertex_count();
    let mut list = Vec::with_capacity(alloc, count as usize)?;
    for v in 0..count {
        if set.has(v) {
            list.push_reserved(v);
        }
    }
    Ok(list)
}
