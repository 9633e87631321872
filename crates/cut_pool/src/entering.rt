//! The arcs that enter a set of vertices.

use cut_groups::{NONE, Tree};
use net_graph::{NetGraph, VertexSet, partner};
use std::alloc::AllocError;

/// The group of a cut that a tree enters once, given by its vertices, and else `NONE`; `entered` is then the list of
/// the other arcs that enter it, by number. An `Err` is want of memory.
pub fn find_entered(
    graph: &NetGraph,
    tree: &Tree,
    members: &VertexSet,
    entered: &mut Vec<u32>,
) -> Result<u32, AllocError> {
    entered.clear();
    list_entering(graph, members, entered)?;
    let mut groups = 0u32;
    let mut found = NONE;
    for arc in entered.iter() {
        let group = tree.group(*arc);
        if group != NONE {
            found = group;
            groups = groups.wrapping_add(1);
        }
    }
    if groups != 1 {
        return Ok(NONE);
    }
    entered.retain(|arc| tree.group(*arc) == NONE);
    entered.sort_unstable();
    Ok(found)
}

// Lists the arcs that enter a set: they are seen from its vertices, or, where it has more than half of all, from the
// others. An `Err` is want of memory.
fn list_entering(
    graph: &NetGraph,
    members: &VertexSet,
    entered: &mut Vec<u32>,
) -> Result<(), AllocError> {
    let from_inside = !has_most(members);
    for place in 0..members.len().div_ceil(64) {
        let word = members.word(place);
        let seen_from = if from_inside { word } else { !word };
        list_seen(graph, members, place, seen_from, from_inside, entered)?;
    }
    Ok(())
}

// Whether a set has more than half of all vertices.
fn has_most(members: &VertexSet) -> bool {
    let mut inside = 0u32;
    for place in 0..members.len().div_ceil(64) {
        inside = inside.wrapping_add(members.word(place).count_ones());
    }
    inside > members.len() / 2
}

// Lists the arcs too that are seen from the vertices of a word of flags. An `Err` is want of memory.
fn list_seen(
    graph: &NetGraph,
    members: &VertexSet,
    place: u32,
    flags: u64,
    from_inside: bool,
    entered: &mut Vec<u32>,
) -> Result<(), AllocError> {
    let mut left = flags;
    for _ in 0..u64::BITS {
        if left == 0 {
            break;
        }
        let vertex = place.wrapping_mul(64).wrapping_add(left.trailing_zeros());
        left &= left.wrapping_sub(1);
        list_at(graph, members, vertex, from_inside, entered)?;
    }
    Ok(())
}

// Lists the arcs too that are seen from a vertex. An `Err` is want of memory.
fn list_at(
    graph: &NetGraph,
    members: &VertexSet,
    vertex: u32,
    from_inside: bool,
    entered: &mut Vec<u32>,
) -> Result<(), AllocError> {
    if vertex >= graph.vertex_count() {
        return Ok(());
    }
    for arc in graph.arcs_from(vertex) {
        if members.holds(arc.to) != from_inside {
            entered.push(if from_inside {
                partner(arc.number)
            } else {
                arc.number
            })?;
        }
    }
    Ok(())
}
