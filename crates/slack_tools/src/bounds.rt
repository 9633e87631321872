//! The bounds of a grid's edges.

ghost use Rattle.std.specs.Prelude.{◌≡◌, ◌<◌, ◌≤◌, ◌^◌, length, IfOk};
ghost use Rattle.net_graph.specs.Graph.{total_of};
ghost use Rattle.net_graph.specs.Packing.{packing_value};
ghost use Rattle.hanan_grid.specs.Grid.{hanan_grid_of};
ghost use Rattle.dual_ascent.specs.Choosing.{IsCallableOnSome, AnswersAPlace};
ghost use Rattle.edge_slack.specs.Beginning.{IsBeginning};
ghost use Rattle.edge_slack.specs.EdgeBound.{edge_taken_in};
ghost use Rattle.slack_tools.specs.Bounds.{BoundsEdge, AreEdgeBounds};

use crate::beginning::beginning_on;
use dual_ascent::{Candidate, Chooser, Rule};
use edge_slack::{Beginning, carried_edge_bound, edge_bound, taking_in};
use hanan_grid::Grid;
use net_graph::{NetGraph, Packing, value};
use search_rules::{AscentRule, ascent_place};
use std::alloc::{AllocError, Global};

// On a grid of at most so many edges a second ascent is made for each edge, from no cut: there it takes little time.
const EDGES_OF_TWO_ASCENTS: u32 = 500;

/// For each edge of the grid, by its number, the value of a packing that takes the edge in and decides nothing else, of
/// an ascent by the rule that begins with what a packing of nothing decided carries, or on a small grid of one from no
/// cut, where that is worth more. An `Err` is want of memory.
pub(crate) fn edge_bounds(
    alloc: Global,
    grid: &Grid,
    rule: AscentRule,
) -> Result<Vec<u64>, AllocError>
    ensures { IfOk result (λ bounds. AreEdgeBounds (hanan_grid_of grid.now) bounds.items) }
{
    let start = beginning_on(alloc, grid, rule)?;
    bounds_by(
        alloc,
        grid,
        &start,
        |list: &[Candidate]| -> usize
            requires { 0 < length list.now }
            ensures { result < length list.now }
        { ascent_place(rule, list) },
    )
}

// The same by any rule, from any beginning. Of each packing only the value is kept.
fn bounds_by<F: Rule>(
    alloc: Global,
    grid: &Grid,
    start: &Beginning,
    rule: F,
) -> Result<Vec<u64>, AllocError>
    requires start { IsBeginning (hanan_grid_of grid.now) start.now }
    requires callable { IsCallableOnSome (F.may_choose rule) }
    requires place { AnswersAPlace (F.chooses rule) }
    ensures { IfOk result (λ bounds. AreEdgeBounds (hanan_grid_of grid.now) bounds.items) }
{
    let chooser = Chooser::new(rule);
    bounds_from(alloc, grid, start, &chooser)
}

// The bounds of all edges. An `Err` is want of memory.
fn bounds_from<F: Rule>(
    alloc: Global,
    grid: &Grid,
    start: &Beginning,
    chooser: &Chooser<F>,
) -> Result<Vec<u64>, AllocError>
    requires { IsBeginning (hanan_grid_of grid.now) start.now }
    ensures { IfOk result (λ bounds. AreEdgeBounds (hanan_grid_of grid.now) bounds.items) }
{
    let mut bounds = Vec::new(alloc);
    for edge in 0..grid.graph().edge_count() {
        bounds.push(bound_of(alloc, grid, edge, start, chooser)?)?;
    }
    Ok(bounds)
}

// The bound of an edge: of an ascent that begins with what is carried, and on a small grid the greater one of it and of
// an ascent from no cut. An `Err` is want of memory.
fn bound_of<F: Rule>(
    alloc: Global,
    grid: &Grid,
    edge: u32,
    start: &Beginning,
    chooser: &Chooser<F>,
) -> Result<u64, AllocError>
    requires edge { edge < length (hanan_grid_of grid.now).edges }
    requires start { IsBeginning (hanan_grid_of grid.now) start.now }
    ensures { IfOk result (BoundsEdge (hanan_grid_of grid.now) edge) }
{
    let carried = carried_bound(alloc, grid, edge, start, chooser)?;
    if grid.graph().edge_count() > EDGES_OF_TWO_ASCENTS {
        return Ok(carried);
    }
    Ok(carried.max(plain_bound(alloc, grid, edge, chooser)?))
}

// The value of the packing of an ascent from no cut that takes the edge in. An `Err` is want of memory.
fn plain_bound<F: Rule>(
    alloc: Global,
    grid: &Grid,
    edge: u32,
    chooser: &Chooser<F>,
) -> Result<u64, AllocError>
    requires { edge < length (hanan_grid_of grid.now).edges }
    ensures { IfOk result (BoundsEdge (hanan_grid_of grid.now) edge) }
{
    let graph = grid.graph();
    let packing = edge_bound(alloc, graph, edge, chooser)?;
    value_of(alloc, graph, edge, &packing)
}

// The same of an ascent that begins with the cuts which are carried. An `Err` is want of memory.
fn carried_bound<F: Rule>(
    alloc: Global,
    grid: &Grid,
    edge: u32,
    start: &Beginning,
    chooser: &Chooser<F>,
) -> Result<u64, AllocError>
    requires edge { edge < length (hanan_grid_of grid.now).edges }
    requires start { IsBeginning (hanan_grid_of grid.now) start.now }
    ensures { IfOk result (BoundsEdge (hanan_grid_of grid.now) edge) }
{
    carried_edge_bound(alloc, grid.graph(), edge, start, chooser)
}

// The value of a packing where the edge is taken in and nothing else decided. An `Err` is want of memory.
fn value_of(
    alloc: Global,
    graph: &NetGraph,
    edge: u32,
    packing: &Packing,
) -> Result<u64, AllocError>
    requires edge { edge < length graph.now.edges }
    requires few { length packing.now ≤ 2 ^ 32 }
    requires within { packing_value graph.now (edge_taken_in graph.now edge) packing.now ≤ total_of graph.now }
    requires fits { total_of graph.now < 2 ^ 64 }
    ensures { IfOk result (λ v. v ≡ packing_value graph.now (edge_taken_in graph.now edge) packing.now) }
{
    let decision = taking_in(alloc, graph, edge)?;
    Ok(value(graph, &decision, packing) as u64)
}
