//! Networks of edges with saturated arcs.

ghost use Rattle.std.specs.Prelude.{ℕ, ◌≡◌, ◌/◌, ◌<◌, ◌⊎◌, true, length, slice_get, All, Contains, IfOk, OnOk, Some};
ghost use Rattle.net_graph.specs.Decision.{IsDecisionFor, states_of};
ghost use Rattle.net_graph.specs.Network.{IsNetwork};
ghost use Rattle.net_graph.specs.Packing.{IsFeasible};
ghost use Rattle.net_graph.specs.Saturation.{IsMaximal};
ghost use Rattle.dual_ascent.specs.Costs.{costs_of};
ghost use Rattle.branch.specs.SaturatedArcs.{HasSaturatedArc, IsEdgeOfOne, IsOfSaturated};

use crate::saturation::saturated_edges;
use dual_ascent::ReducedCosts;
use net_graph::{Arc, Decision, EdgeSet, NetGraph, Packing, Passage, VertexSet, joins};
use std::alloc::{AllocError, Global};

/// A network whose edges each have a saturated arc under a maximal packing. A search from the root goes over saturated
/// arcs: vertices in the order in which they are found, the heads of a vertex's arcs in ascending number, on a tie the
/// lowest edge. The edges by which it finds the terminals, followed back to the root, are kept (after Wong 1984, who
/// looks for a tree among the saturated arcs). An `Err` is want of memory.
pub fn saturated_network(
    alloc: Global,
    g: &NetGraph,
    d: &Decision,
    packing: &Packing,
) -> Result<EdgeSet, AllocError>
    requires decision { IsDecisionFor g.now d.now }
    requires feasible { IsFeasible g.now d.now packing.now }
    requires maximal { IsMaximal g.now d.now packing.now }
    ensures size { IfOk result (λ set. length set ≡ length g.now.edges) }
    ensures network { IfOk result (λ set. IsNetwork g.now set) }
    ensures saturated { IfOk result
        (λ set. (n : ℕ) → slice_get set n ≡ Some true → HasSaturatedArc g.now d.now packing.now n) }
{
    let costs = ReducedCosts::of(alloc, g, d, packing)?;
    saturated_network_by(alloc, g, d, packing, &costs)
}

/// The same by what the packing leaves of the room of all arcs.
pub(crate) fn saturated_network_by(
    alloc: Global,
    g: &NetGraph,
    d: &Decision,
    packing: &Packing,
    costs: &ReducedCosts,
) -> Result<EdgeSet, AllocError>
    requires decision { IsDecisionFor g.now d.now }
    requires feasible { IsFeasible g.now d.now packing.now }
    requires maximal { IsMaximal g.now d.now packing.now }
    requires costs { costs.now ≡ costs_of g.now.edges (states_of g.now d.now) packing.now }
    ensures size { IfOk result (λ set. length set ≡ length g.now.edges) }
    ensures network { IfOk result (λ set. IsNetwork g.now set) }
    ensures saturated { IfOk result
        (λ set. (n : ℕ) → slice_get set n ≡ Some true → HasSaturatedArc g.now d.now packing.now n) }
{
    let arcs = found_arcs(alloc, g, costs)?;
    let kept = edges_back(alloc, g, &arcs)?;
    // That the search finds the terminals is judged here rather than proved of it. All edges with a saturated arc are a
    // network, since the packing is maximal.
    if joins(alloc, g, &kept)? {
        Ok(kept)
    } else {
        saturated_edges(alloc, g, costs)
    }
}

// The arcs by which a search from the root over saturated arcs finds vertices, in the order in which it finds them. An
// `Err` is want of memory.
fn found_arcs(alloc: Global, g: &NetGraph, costs: &ReducedCosts) -> Result<Vec<Arc>, AllocError>
    requires { length costs.now ≡ length g.now.edges }
    ensures { IfOk result (λ arcs. All (IsOfSaturated g.now costs.now) arcs.items) }
{
    let mut found = VertexSet::empty(alloc, g.vertex_count())?;
    found.add(g.root());
    let mut arcs = Vec::new(alloc);
    let first = saturated_from(alloc, g, costs, g.root(), &found)?;
    add_new(&first, &mut found, &mut arcs)?;
    // Each vertex but the root is found once at most.
    for place in 0..g.vertex_count() as usize {
        if place < arcs.len() {
            let next = saturated_from(alloc, g, costs, arcs[place].to, &found)?;
            add_new(&next, &mut found, &mut arcs)?;
        }
    }
    Ok(arcs)
}

// The saturated arcs from a vertex to others than the found ones, by their heads, and by number on a tie. An `Err` is
// want of memory.
fn saturated_from(
    alloc: Global,
    g: &NetGraph,
    costs: &ReducedCosts,
    vertex: u32,
    found: &VertexSet,
) -> Result<Vec<Arc>, AllocError>
    requires costs { length costs.now ≡ length g.now.edges }
    requires vertex { vertex < g.now.vertices }
    requires size { length found.now ≡ g.now.vertices }
    ensures { IfOk result (λ arcs. All (IsOfSaturated g.now costs.now) arcs.items) }
{
    let mut arcs = list_saturated(alloc, g, costs, vertex, found)?;
    arcs.sort_unstable_by_key(|arc| (arc.to, arc.number));
    Ok(arcs)
}

// The same arcs in no order. An `Err` is want of memory.
fn list_saturated(
    alloc: Global,
    g: &NetGraph,
    costs: &ReducedCosts,
    vertex: u32,
    found: &VertexSet,
) -> Result<Vec<Arc>, AllocError>
    requires costs { length costs.now ≡ length g.now.edges }
    requires vertex { vertex < g.now.vertices }
    requires size { length found.now ≡ g.now.vertices }
    ensures { IfOk result (λ arcs. All (IsOfSaturated g.now costs.now) arcs.items) }
{
    let mut arcs = Vec::new(alloc);
    for arc in g.arcs_from(vertex) {
        if !found.has(arc.to) && costs.is_open(arc.number) {
            arcs.push(*arc)?;
        }
    }
    Ok(arcs)
}

// Adds the arcs that lead to vertices that weren't found. An `Err` is want of memory.
fn add_new(arcs: &[Arc], found: &mut VertexSet, by: &mut Vec<Arc>) -> Result<(), AllocError>
    requires { All (λ arc. arc.to < length found.old) arcs.now }
    ensures size { length found.new ≡ length found.old }
    ensures among { OnOk result
        ((arc : Arc) → Contains by.new.items arc → Contains by.old.items arc ⊎ Contains arcs.now arc) }
{
    for arc in arcs {
        if !found.has(arc.to) {
            found.add(arc.to);
            by.push(*arc)?;
        }
    }
    Ok(())
}

// The edges along which the terminals are followed back to the root, of arcs in the order in which a search found their
// heads. An `Err` is want of memory.
fn edges_back(alloc: Global, g: &NetGraph, arcs: &[Arc]) -> Result<EdgeSet, AllocError>
    requires vertices { All (λ arc. (arc.from < g.now.vertices) × (arc.to < g.now.vertices)) arcs.now }
    requires edges { All (λ arc. arc.number / 2 < length g.now.edges) arcs.now }
    ensures size { IfOk result (λ set. length set ≡ length g.now.edges) }
    ensures edges { IfOk result (λ set. (n : ℕ) → slice_get set n ≡ Some true → IsEdgeOfOne arcs.now n) }
{
    let mut wanted = terminal_set(alloc, g)?;
    let mut set = EdgeSet::empty(alloc, g.edge_count())?;
    for place in (0..arcs.len()).rev() {
        let arc = arcs[place];
        if wanted.has(arc.to) {
            wanted.add(arc.from);
            set.add(arc.number / 2);
        }
    }
    Ok(set)
}

// The set of the terminals. An `Err` is want of memory.
fn terminal_set(alloc: Global, g: &NetGraph) -> Result<VertexSet, AllocError>
    ensures { IfOk result (λ set. length set ≡ g.now.vertices) }
{
    let mut set = VertexSet::empty(alloc, g.vertex_count())?;
    for terminal in g.terminals() {
        set.add(*terminal);
    }
    Ok(set)
}
