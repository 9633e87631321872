//! Which edges have a saturated arc.

ghost use Rattle.std.specs.Prelude.{ℕ, ◌≡◌, ◌<◌, ◌↔◌, true, length, slice_get, IfOk, IfSome, IsTrue, Some};
ghost use Rattle.net_graph.specs.Decision.{IsDecisionFor};
ghost use Rattle.branch.specs.SaturatedArcs.{IsUsedUpEdge};
ghost use Rattle.branch.specs.Notes.{EndsUsedUpEdge, HasSaturatedEnd};

use crate::note::LeafNote;
use dual_ascent::ReducedCosts;
use net_graph::{Decision, EdgeSet, EdgeState, NetGraph, Passage, vertex_undecided};
use std::alloc::{AllocError, Global};

/// The edges with a saturated arc, by what a packing leaves of the room of all arcs. An `Err` is want of memory.
pub(crate) fn saturated_edges(
    alloc: Global,
    g: &NetGraph,
    costs: &ReducedCosts,
) -> Result<EdgeSet, AllocError>
    requires { length costs.now ≡ length g.now.edges }
    ensures size { IfOk result (λ set. length set ≡ length g.now.edges) }
    ensures saturated { IfOk result
        (λ set. (n : ℕ) → (slice_get set n ≡ Some true) ↔ IsUsedUpEdge costs.now n) }
{
    let mut set = EdgeSet::empty(alloc, g.edge_count())?;
    for n in 0..g.edge_count() {
        if is_used_up_edge(g, costs, n) {
            set.add(n);
        }
    }
    Ok(set)
}

/// Whether a network is kept beside a leaf, and a vertex is undecided there at which an undecided edge with a saturated
/// arc ends. It takes no memory.
pub(crate) fn has_saturated_end(g: &NetGraph, note: &LeafNote, vertex: u32) -> bool
    requires decision { IsDecisionFor g.now note.now.decision }
    requires costs { IfSome note.now.network (λ _. length note.now.costs ≡ length g.now.edges) }
    requires vertex { vertex < g.now.vertices }
    ensures { IsTrue result ↔ HasSaturatedEnd g.now note.now vertex }
{
    note.network.is_some()
        && vertex_undecided(g, &note.decision, vertex)
        && ends_used_up_edge(g, &note.decision, &note.costs, vertex)
}

// Whether an undecided edge ends at a vertex, of which an arc has no room left.
fn ends_used_up_edge(g: &NetGraph, decision: &Decision, costs: &ReducedCosts, vertex: u32) -> bool
    requires decision { IsDecisionFor g.now decision.now }
    requires costs { length costs.now ≡ length g.now.edges }
    ensures { IsTrue result ↔ EndsUsedUpEdge g.now decision.now costs.now vertex }
{
    for n in 0..g.edge_count() {
        let edge = g.edge(n);
        if (edge.a == vertex || edge.b == vertex)
            && is_used_up_edge(g, costs, n)
            && decision.state(g, n) == EdgeState::Undecided
        {
            return true;
        }
    }
    false
}

// Whether an arc of an edge has no room left.
fn is_used_up_edge(g: &NetGraph, costs: &ReducedCosts, n: u32) -> bool
    requires edge { n < length g.now.edges }
    requires costs { length costs.now ≡ length g.now.edges }
    ensures { IsTrue result ↔ IsUsedUpEdge costs.now n }
{
    prove!(n < g.edge_count());
    costs.is_open(2 * n) || costs.is_open(2 * n + 1)
}
