//! Relevant arcs: the saturated ones on saturated ways from the root to required vertices.

ghost use Rattle.std.specs.Prelude.{◌≡◌, length, IfOk};
ghost use Rattle.net_graph.specs.Decision.{IsDecisionFor};

use dual_ascent::ReducedCosts;
use net_graph::{Decision, EdgeState, NetGraph, Passage, VertexSet, partner, reached_from};
use std::alloc::{AllocError, Global};

/// How many arcs are relevant, by what a packing leaves of the rooms. An `Err` is want of memory.
pub(crate) fn relevant_arcs(
    alloc: Global,
    graph: &NetGraph,
    decision: &Decision,
    costs: &ReducedCosts,
) -> Result<u32, AllocError>
    requires decision { IsDecisionFor graph.now decision.now }
    requires costs { length costs.now ≡ length graph.now.edges }
{
    let ahead = reached_from(alloc, graph, graph.root(), costs)?;
    let back = leading(alloc, graph, decision, costs)?;
    let mut count = 0u32;
    for vertex in 0..graph.vertex_count() {
        if !ahead.has(vertex) {
            continue;
        }
        for arc in graph.arcs_from(vertex) {
            if costs.is_open(arc.number) && back.has(arc.to) {
                count = count.wrapping_add(1);
            }
        }
    }
    Ok(count)
}

// The vertices from which saturated arcs lead to a required vertex, and these.
fn leading(
    alloc: Global,
    graph: &NetGraph,
    decision: &Decision,
    costs: &ReducedCosts,
) -> Result<VertexSet, AllocError>
    requires decision { IsDecisionFor graph.now decision.now }
    requires costs { length costs.now ≡ length graph.now.edges }
    ensures { IfOk result (λ found. length found ≡ graph.now.vertices) }
{
    let mut found = VertexSet::empty(alloc, graph.vertex_count())?;
    let mut list = Vec::new(alloc);
    for vertex in &required_ends(alloc, graph, decision)? {
        take_in(true, *vertex, &mut found, &mut list)?;
    }
    for place in 0..usize::MAX {
        let Some(vertex) = list.get(place) else {
            break;
        };
        let vertex = *vertex;
        if vertex >= graph.vertex_count() {
            break;
        }
        for arc in graph.arcs_from(vertex) {
            let leads = costs.is_open(partner(arc.number));
            take_in(leads, arc.to, &mut found, &mut list)?;
        }
    }
    Ok(found)
}

// Takes a vertex into a set and a list where it leads and isn't in the set. An `Err` is want of memory.
fn take_in(
    leads: bool,
    vertex: u32,
    found: &mut VertexSet,
    list: &mut Vec<u32>,
) -> Result<(), AllocError>
    ensures { length found.new ≡ length found.old }
{
    if leads && vertex < found.len() && !found.has(vertex) {
        found.add(vertex);
        list.push(vertex)?;
    }
    Ok(())
}

/// The terminals and the ends of inside edges. An `Err` is want of memory.
pub(crate) fn required_ends(
    alloc: Global,
    graph: &NetGraph,
    decision: &Decision,
) -> Result<Vec<u32>, AllocError>
    requires { IsDecisionFor graph.now decision.now }
{
    let mut list = Vec::new(alloc);
    for terminal in graph.terminals() {
        list.push(*terminal)?;
    }
    for number in 0..graph.edge_count() {
        if decision.state(graph, number) == EdgeState::Inside {
            let edge = graph.edge(number);
            list.push(edge.a)?;
            list.push(edge.b)?;
        }
    }
    Ok(list)
}
