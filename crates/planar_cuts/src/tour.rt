//! A way along all arcs of a descent and back.

use crate::descent::Descent;
use crate::leaving::Leaving;
use cut_groups::{NONE, at, ends_of, set};
use net_graph::NetGraph;
use std::alloc::{AllocError, Global};

/// An arc that the way takes, or comes back from; between the two it is below the arc.
#[derive(Clone, Copy)]
pub struct Visit {
    pub arc: u32,
    pub is_back: bool,
}

/// The way through a descent of a graph, at each vertex in the order of the arcs that leave it. An `Err` is want of
/// memory.
pub fn tour(
    alloc: Global,
    graph: &NetGraph,
    descent: &Descent,
    leaving: &Leaving,
) -> Result<Vec<Visit>, AllocError> {
    let mut visits = Vec::with_capacity(alloc, graph.edges().len().saturating_mul(2))?;
    let mut places = vec![in alloc; 0; graph.vertex_count() as usize]?;
    for vertex in &descent.order {
        if descent.tree_arc(*vertex) == NONE {
            go_round(graph, descent, leaving, *vertex, &mut places, &mut visits)?;
        }
    }
    Ok(visits)
}

// Appends the way through the part that was searched from a vertex; `places` has how many arcs of each vertex the way
// took. An `Err` is want of memory.
fn go_round(
    graph: &NetGraph,
    descent: &Descent,
    leaving: &Leaving,
    start: u32,
    places: &mut [u32],
    visits: &mut Vec<Visit>,
) -> Result<(), AllocError> {
    let mut vertex = start;
    // Each step takes an arc or comes back to a vertex.
    for _ in 0..graph.edge_count().saturating_mul(2).saturating_add(1) {
        let place = at(places, vertex, 0);
        set(places, vertex, place.wrapping_add(1));
        let arc = at(leaving.from(vertex), place, NONE);
        if arc != NONE {
            let head = ends_of(graph, arc).head;
            visits.push(Visit {
                arc,
                is_back: false,
            })?;
            if descent.tree_arc(head) == arc {
                vertex = head;
            } else {
                visits.push(Visit { arc, is_back: true })?;
            }
        } else if vertex != start {
            let arc = descent.tree_arc(vertex);
            visits.push(Visit { arc, is_back: true })?;
            vertex = ends_of(graph, arc).tail;
        } else {
            break;
        }
    }
    Ok(())
}
