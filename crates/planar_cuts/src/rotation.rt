//! The order of the arcs round each vertex where a graph is drawn in the plane.

use crate::conflicts::Conflicts;
use crate::descent::Descent;
use crate::leaving::Leaving;
use crate::nesting::Nesting;
use crate::tour::tour;
use cut_groups::{NONE, at, ends_of, set};
use net_graph::NetGraph;
use std::alloc::{AllocError, Global};

/// The order of the arcs that leave each vertex, clockwise. An arc from a vertex to itself has no place in it.
#[derive(Drop)]
pub struct Rotation {
    // Of each arc the next one and the one before, `NONE` where it has no place.
    next: Vec<u32>,
    previous: Vec<u32>,
}

impl Rotation {
    /// The order in a drawing of a graph; `None` where the graph can't be drawn in the plane. An `Err` is want of
    /// memory.
    pub fn of(alloc: Global, graph: &NetGraph) -> Result<Option<Rotation>, AllocError> {
        let descent = Descent::of(alloc, graph)?;
        let nesting = Nesting::of(alloc, graph, &descent)?;
        let Some(lefts) = lefts_of(alloc, graph, &descent, &nesting)? else {
            return Ok(None);
        };
        let mut depths = Vec::with_capacity(alloc, lefts.len())?;
        for edge in 0..graph.edge_count() {
            let depth = at(&nesting.depths, edge, 0);
            let is_left = at(&lefts, edge, false);
            depths.push(if is_left {
                (-1i32).wrapping_sub(depth)
            } else {
                depth
            })?;
        }
        let leaving = Leaving::by(alloc, graph, &descent, &depths)?;
        let rotation = Rotation::around(alloc, graph, &descent, &leaving, &lefts)?;
        Ok(Some(rotation))
    }

    /// The arc behind one that leaves the same vertex, counterclockwise; `NONE` where it has no place.
    #[inline]
    pub fn previous(&self, arc: u32) -> u32 {
        at(&self.previous, arc, NONE)
    }

    // The order where the arcs of a descent leave each vertex in this one, the edges that lead back on these sides. An
    // `Err` is want of memory.
    fn around(
        alloc: Global,
        graph: &NetGraph,
        descent: &Descent,
        leaving: &Leaving,
        lefts: &[bool],
    ) -> Result<Rotation, AllocError> {
        let arcs = graph.edges().len().saturating_mul(2);
        let vertices = graph.vertex_count() as usize;
        let mut rotation = Rotation {
            next: vec![in alloc; NONE; arcs]?,
            previous: vec![in alloc; NONE; arcs]?,
        };
        for vertex in 0..graph.vertex_count() {
            rotation.place_leaving(descent, leaving, vertex);
        }
        // Of each vertex the arc down that the tour took last, and the arc before which the next edge comes in from the
        // left.
        let mut downs = vec![in alloc; NONE; vertices]?;
        let mut edges_left = vec![in alloc; NONE; vertices]?;
        for visit in &tour(alloc, graph, descent, leaving)? {
            let ends = ends_of(graph, visit.arc);
            let back = visit.arc ^ 1;
            if visit.is_back {
                continue;
            }
            if descent.tree_arc(ends.head) == visit.arc {
                set(&mut downs, ends.tail, visit.arc);
                set(&mut edges_left, ends.tail, visit.arc);
            } else if at(lefts, visit.arc / 2, false) {
                let behind = at(&edges_left, ends.head, NONE);
                rotation.place(back, rotation.previous(behind));
                set(&mut edges_left, ends.head, back);
            } else {
                rotation.place(back, at(&downs, ends.head, NONE));
            }
        }
        Ok(rotation)
    }

    // Places the arc back up from a vertex, and behind it the arcs that leave it.
    fn place_leaving(&mut self, descent: &Descent, leaving: &Leaving, vertex: u32) {
        let mut before = NONE;
        let into = descent.tree_arc(vertex);
        if into != NONE {
            before = into ^ 1;
            self.place(before, NONE);
        }
        for arc in leaving.from(vertex) {
            self.place(*arc, before);
            before = *arc;
        }
    }

    // Places an arc behind another one, or as the only one.
    fn place(&mut self, arc: u32, before: u32) {
        let behind = if before == NONE {
            arc
        } else {
            at(&self.next, before, arc)
        };
        let before = if before == NONE { arc } else { before };
        set(&mut self.next, before, arc);
        set(&mut self.previous, arc, before);
        set(&mut self.next, arc, behind);
        set(&mut self.previous, behind, arc);
    }
}

// Of each edge whether it lies on the left of the tree; `None` where there are no sides for all. An `Err` is want of
// memory.
fn lefts_of(
    alloc: Global,
    graph: &NetGraph,
    descent: &Descent,
    nesting: &Nesting,
) -> Result<Option<Vec<bool>>, AllocError> {
    let leaving = Leaving::by(alloc, graph, descent, &nesting.depths)?;
    let mut conflicts = Conflicts::none(alloc, nesting)?;
    for visit in &tour(alloc, graph, descent, &leaving)? {
        let ends = ends_of(graph, visit.arc);
        let edge = visit.arc / 2;
        let leads_back = descent.tree_arc(ends.head) != visit.arc;
        if !visit.is_back {
            conflicts.take(edge, leads_back)?;
            continue;
        }
        let height = descent.height(ends.tail);
        if !leads_back {
            conflicts.come_back(edge, height);
        }
        let into = descent.tree_arc(ends.tail) / 2;
        let is_first = leaving.first(ends.tail) == visit.arc;
        if !conflicts.join(edge, into, height, is_first)? {
            return Ok(None);
        }
    }
    Ok(Some(conflicts.into_sides(alloc)?))
}
