//! The graph that a decision on vertices leaves.

ghost use Rattle.std.specs.Prelude.{◌≡◌, length, IfOk, IfSome};
ghost use Rattle.net_graph.specs.Decision.{IsDecisionFor};

use net_graph::{Decision, Edge, EdgeList, EdgeState, GraphFault, NetGraph, VertexList, required};
use std::alloc::{AllocError, Global};

/// A graph in which cuts can be packed for a decision on vertices with nothing decided: required vertices are
/// terminals, and a free edge is as long as told, so that it has the room for cuts of that weight. `None` where the
/// lengths then sum to 2^63 or more. An `Err` is want of memory.
pub(crate) fn graph_under(
    alloc: Global,
    g: &NetGraph,
    d: &Decision,
    long: u64,
) -> Result<Option<NetGraph>, AllocError>
    requires { IsDecisionFor g.now d.now }
    ensures vertices { IfOk result (λ found. IfSome found (λ under. under.vertices ≡ g.now.vertices)) }
    ensures edges { IfOk result (λ found. IfSome found (λ under. length under.edges ≡ length g.now.edges)) }
{
    let edges = edges_under(alloc, g, d, long)?;
    let terminals = terminals_under(alloc, g, d)?;
    match NetGraph::new(alloc, g.vertex_count(), edges, terminals) {
        Ok(under) => Ok(Some(under)),
        Err(GraphFault::Memory(error)) => Err(error),
        Err(_) => Ok(None),
    }
}

// The edges, the free ones as long as told. An `Err` is want of memory.
fn edges_under(alloc: Global, g: &NetGraph, d: &Decision, long: u64) -> Result<EdgeList, AllocError>
    requires { IsDecisionFor g.now d.now }
    ensures { IfOk result (λ list. length list ≡ length g.now.edges) }
{
    let mut list = EdgeList::empty(alloc);
    for number in 0..g.edge_count() {
        let edge = g.edge(number);
        let length = if d.state(g, number) == EdgeState::Outside {
            long
        } else {
            edge.length
        };
        list.push(Edge { length, ..edge })?;
    }
    Ok(list)
}

// The terminals, and behind them the other required vertices. An `Err` is want of memory.
fn terminals_under(alloc: Global, g: &NetGraph, d: &Decision) -> Result<VertexList, AllocError> {
    let mut list = VertexList::empty(alloc);
    for terminal in g.terminals() {
        list.push(*terminal)?;
    }
    for vertex in 0..g.vertex_count() {
        if required(g, d, vertex) && !g.terminals().contains(&vertex) {
            list.push(vertex)?;
        }
    }
    Ok(list)
}
