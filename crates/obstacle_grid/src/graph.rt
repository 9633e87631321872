//! The graph of points and boxes.

ghost use Rattle.std.specs.Prelude.{◌≡◌, ◌<◌, ◌≤◌, ◌^◌, length, filter, IfOk, IfErr, OnOk, Ok, Err};
ghost use Rattle.net_graph.specs.Graph.{IsGraph, total_of};
ghost use Rattle.net_graph.specs.Network.{IsNetwork};
ghost use Rattle.graph_solve.specs.Task.{all_edges};
ghost use Rattle.obstacle_grid.specs.Grid.{obstacle_grid_of, is_allowed, obstacle_graph_of};
ghost use Rattle.obstacle_grid.specs.Fault.{Answers, HasFirstFault, IsTask, IsFirstFault};
ghost use Rattle.obstacle_grid.specs.declared.fault.ObstacleTaskFault.{ObstacleTaskFault};

use crate::fault::ObstacleTaskFault;
use crate::grid::ObstacleGrid;
use net_graph::{Edge, EdgeList, EdgeSet, GraphFault, NetGraph, VertexList, first_apart};
use obstacles_in::Obstacles;
use std::alloc::{AllocError, Global};

/// The graph of points and boxes: all vertices of their grid, the edges that no box blocks in the grid's order, and the
/// points in their order as terminals. An `Err` is the first fault in the order of `ObstacleTaskFault`, or want of
/// memory.
pub fn obstacle_graph(alloc: Global, o: &Obstacles) -> Result<NetGraph, ObstacleTaskFault>
    ensures graph { IfOk result (λ g. g ≡ obstacle_graph_of o.now) }
    ensures sound { IfOk result (λ g. IsGraph g) }
    ensures few { IfOk result (λ g. length g.terminals ≤ 255) }
    ensures joined { IfOk result (λ g. IsNetwork g (all_edges g)) }
    ensures task { OnOk result (IsTask o.now) }
    ensures fault { IfErr result (IsFirstFault o.now) }
    // The graph of what has no fault is given, and a first fault is told, unless memory runs out.
    ensures only { IsTask o.now → Answers result (Ok (obstacle_graph_of o.now)) }
    ensures only_fault { (f : ObstacleTaskFault) → HasFirstFault o.now f → Answers result (Err f) }
{
    joined_graph(alloc, o)
}

// The graph, where all allowed edges together join the points.
fn joined_graph(alloc: Global, o: &Obstacles) -> Result<NetGraph, ObstacleTaskFault>
    ensures graph { IfOk result (λ g. g ≡ obstacle_graph_of o.now) }
    ensures sound { IfOk result (λ g. IsGraph g) }
    ensures few { IfOk result (λ g. length g.terminals ≤ 255) }
    ensures joined { IfOk result (λ g. IsNetwork g (all_edges g)) }
    ensures task { OnOk result (IsTask o.now) }
    ensures fault { IfErr result (IsFirstFault o.now) }
{
    let graph = allowed_graph(alloc, o)?;
    let all = EdgeSet::full(alloc, graph.edge_count())?;
    match first_apart(alloc, &graph, &all)? {
        None => Ok(graph),
        Some(place) => Err(ObstacleTaskFault::Apart(place)),
    }
}

// The graph, which may leave points apart.
fn allowed_graph(alloc: Global, o: &Obstacles) -> Result<NetGraph, ObstacleTaskFault>
    ensures graph { IfOk result (λ g. g ≡ obstacle_graph_of o.now) }
    ensures sound { IfOk result (λ g. IsGraph g) }
    ensures few { IfOk result (λ g. length g.terminals ≤ 50) }
    ensures total { OnOk result (total_of (obstacle_graph_of o.now) < 2 ^ 63) }
    ensures fault { IfErr result (IsFirstFault o.now) }
{
    let grid = ObstacleGrid::new(alloc, o)?;
    let edges = EdgeList::from_vec(allowed_edges(alloc, &grid)?);
    let terminals = VertexList::from_vec(grid.terminals(alloc)?);
    match NetGraph::new(alloc, grid.vertex_count(), edges, terminals) {
        Ok(graph) => Ok(graph),
        Err(GraphFault::TooLong { total }) => Err(ObstacleTaskFault::TooLong { total }),
        Err(GraphFault::Memory(error)) => Err(ObstacleTaskFault::Memory(error)),
        Err(GraphFault::EndOutOfRange(_)) => unreachable!(),
        Err(GraphFault::ZeroLength(_)) => unreachable!(),
        Err(GraphFault::NoTerminal) => unreachable!(),
        Err(GraphFault::TerminalOutOfRange(_)) => unreachable!(),
    }
}

// The edges of the grid that no box blocks, in their order. An `Err` is want of memory.
fn allowed_edges(alloc: Global, grid: &ObstacleGrid<'_>) -> Result<Vec<Edge>, AllocError>
    ensures edges { IfOk result (λ edges.
        edges.items ≡ filter (is_allowed grid.now) (obstacle_grid_of grid.now).edges) }
    ensures few { IfOk result (λ edges. length edges.items ≤ 4900) }
{
    let edges = grid.edges(alloc)?;
    let mut allowed = Vec::with_capacity(alloc, edges.len())?;
    for edge in &edges {
        if !grid.is_blocked(*edge) {
            allowed.push_reserved(*edge);
        }
    }
    Ok(allowed)
}
