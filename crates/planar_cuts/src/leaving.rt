//! The arcs that leave each vertex in the directions of a descent.

use crate::descent::Descent;
use cut_groups::{NONE, add_at, at};
use net_graph::NetGraph;
use std::alloc::{AllocError, Global};

/// The arcs by the vertices that they leave, in an order of their edges.
#[derive(Drop)]
pub struct Leaving {
    arcs: Vec<u32>,
    // The first arc out of each vertex; behind the last vertex the number of arcs.
    first: Vec<u32>,
}

// An arc with what it is sorted by.
#[derive(Clone, Copy)]
struct Leaver {
    arc: u32,
    tail: u32,
    depth: i32,
}

impl Leaving {
    /// The arcs, at each vertex by these numbers of their edges. An `Err` is want of memory.
    pub fn by(
        alloc: Global,
        graph: &NetGraph,
        descent: &Descent,
        depths: &[i32],
    ) -> Result<Leaving, AllocError> {
        let mut leavers = Vec::with_capacity(alloc, graph.edges().len())?;
        let mut first = vec![in alloc; 0; (graph.vertex_count() as usize).saturating_add(1)]?;
        for vertex in 0..graph.vertex_count() {
            for arc in graph.arcs_from(vertex) {
                if descent.leads(arc.number) {
                    leavers.push(Leaver {
                        arc: arc.number,
                        tail: vertex,
                        depth: at(depths, arc.number / 2, 0),
                    })?;
                    add_at(&mut first, vertex.wrapping_add(1), 1);
                }
            }
        }
        for vertex in 0..graph.vertex_count() {
            let before = at(&first, vertex, 0);
            add_at(&mut first, vertex.wrapping_add(1), before);
        }
        leavers.sort_by_key(|leaver| leaver.depth)?;
        leavers.sort_by_key(|leaver| leaver.tail)?;
        let mut arcs = Vec::with_capacity(alloc, leavers.len())?;
        for leaver in &leavers {
            arcs.push(leaver.arc)?;
        }
        Ok(Leaving { arcs, first })
    }

    /// The arcs that leave a vertex.
    #[inline]
    pub fn from(&self, vertex: u32) -> &[u32] {
        let first = at(&self.first, vertex, 0) as usize;
        let end = at(&self.first, vertex.wrapping_add(1), 0) as usize;
        match self.arcs.get(first..end) {
            Some(arcs) => arcs,
            None => &[],
        }
    }

    /// The arc that leaves a vertex first, `NONE` where none does.
    #[inline]
    pub fn first(&self, vertex: u32) -> u32 {
        at(self.from(vertex), 0, NONE)
    }
}
