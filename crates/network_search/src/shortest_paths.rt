//! Shortest paths from some vertices of a graph.

use crate::access::{at, put};
use crate::instance::Instance;
use crate::subgraph::Subgraph;
use net_graph::Arc;
use std::alloc::{AllocError, Global};
use std::cmp::Reverse;
use std::collections::BinaryHeap;

/// Farther than any vertex that a path leads to.
pub const FAR: u64 = u64::MAX;

// At least as many entries as a search takes from its heap: one for each of 2,500 vertices and of
// 9,800 arcs.
const ENTRIES: u32 = 12_300;

/// A search for shortest paths (Dijkstra 1959). It keeps its memory from search to search.
#[derive(Drop)]
pub struct ShortestPaths {
    distances: Vec<u64>,
    // The arc by which each vertex was found; none at a source.
    found_by: Vec<Option<Arc>>,
    heap: BinaryHeap<Reverse<(u64, u32)>>,
}

impl ShortestPaths {
    /// The work space for a graph. An `Err` is want of memory.
    pub fn new(alloc: Global, g: Instance) -> Result<ShortestPaths, AllocError> {
        Ok(ShortestPaths {
            distances: vec![in alloc; FAR; g.vertex_count() as usize]?,
            found_by: vec![in alloc; None; g.vertex_count() as usize]?,
            heap: BinaryHeap::with_capacity(alloc, ENTRIES as usize)?,
        })
    }

    /// Searches from some vertices for the nearest goal that is nearer than a limit. Where there is
    /// none, all vertices nearer than the limit have their distance. An `Err` is want of memory.
    pub fn search(
        &mut self,
        g: Instance,
        sources: &[u32],
        goals: &[bool],
        limit: u64,
    ) -> Result<Option<u32>, AllocError> {
        self.begin(sources)?;
        for _ in 0..ENTRIES {
            let Some(Reverse((distance, vertex))) = self.heap.pop() else {
                break;
            };
            if distance >= limit {
                break;
            }
            if distance == at(&self.distances, vertex, FAR) {
                if at(goals, vertex, false) {
                    return Ok(Some(vertex));
                }
                self.relax(g, vertex, distance)?;
            }
        }
        Ok(None)
    }

    /// The distance of each vertex that was found; of others it is `FAR`.
    pub fn distances(&self) -> &[u64] {
        &self.distances
    }

    /// Adds the edges of the path that found a vertex.
    pub fn add_path(&self, g: Instance, goal: u32, tree: &mut Subgraph) {
        let mut vertex = goal;
        for _ in 0..g.vertex_count() {
            let Some(arc) = at(&self.found_by, vertex, None) else {
                break;
            };
            tree.add(g, arc.number / 2);
            vertex = arc.from;
        }
    }

    // Only the sources are found.
    fn begin(&mut self, sources: &[u32]) -> Result<(), AllocError> {
        self.distances.fill(FAR);
        self.heap.clear();
        for source in sources {
            put(&mut self.distances, *source, 0);
            put(&mut self.found_by, *source, None);
            self.heap.push(Reverse((0, *source)))?;
        }
        Ok(())
    }

    // Finds the vertices that a path to a vertex leads on to, where that is shorter.
    fn relax(&mut self, g: Instance, vertex: u32, distance: u64) -> Result<(), AllocError> {
        for arc in g.arcs_from(vertex) {
            let longer = distance.saturating_add(g.length_of(arc.number / 2));
            if longer < at(&self.distances, arc.to, 0) {
                put(&mut self.distances, arc.to, longer);
                put(&mut self.found_by, arc.to, Some(*arc));
                self.heap.push(Reverse((longer, arc.to)))?;
            }
        }
        Ok(())
    }
}
