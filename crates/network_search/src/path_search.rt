//! Searches that join terminals by shortest paths, one after the other.

use crate::access::{at, put};
use crate::instance::Instance;
use crate::shortest_paths::FAR;
use net_graph::Arc;
use std::alloc::{AllocError, Global};
use std::cmp::Reverse;
use std::collections::BinaryHeap;

// More entries than a search of a graph takes from its heap.
const MOST_ENTRIES: u32 = 100_000_000;

// Room for the entries of nearly all searches: one for each of 2,500 vertices and of 9,800 arcs.
const ROOM: u32 = 12_300;

/// A search for shortest paths (Dijkstra 1959) that goes on when it finds a terminal: from then on the whole path to
/// it is where the search comes from. It keeps its memory from search to search.
#[derive(Drop)]
pub struct PathSearch {
    // Of each vertex that was found, how far it is from what is joined.
    distances: Vec<u64>,
    // The arc by which each vertex was found.
    found_by: Vec<Option<Arc>>,
    joined: Vec<bool>,
    // How many terminals aren't joined.
    left: u32,
    heap: BinaryHeap<Reverse<(u64, u32)>>,
}

impl PathSearch {
    /// The work space for a graph. An `Err` is want of memory.
    pub fn new(alloc: Global, g: Instance) -> Result<PathSearch, AllocError> {
        let vertices = g.vertex_count() as usize;
        Ok(PathSearch {
            distances: vec![in alloc; FAR; vertices]?,
            found_by: vec![in alloc; None; vertices]?,
            joined: vec![in alloc; false; vertices]?,
            left: 0,
            heap: BinaryHeap::with_capacity(alloc, ROOM as usize)?,
        })
    }

    /// Joins the vertices of shortest paths to a start, each to the nearest terminal that is not joined, until all
    /// are or no more can be (Takahashi and Matsuyama 1980); tells whether all are. An `Err` is want of memory.
    pub fn join_all(&mut self, g: Instance, start: u32) -> Result<bool, AllocError> {
        self.begin(g, start)?;
        for _ in 0..MOST_ENTRIES {
            if self.left == 0 {
                break;
            }
            let Some(Reverse((distance, vertex))) = self.heap.pop() else {
                break;
            };
            if distance == at(&self.distances, vertex, FAR) {
                self.visit(g, vertex, distance)?;
            }
        }
        Ok(self.left == 0)
    }

    /// Whether the last search joined a vertex.
    pub fn is_joined(&self, vertex: u32) -> bool {
        at(&self.joined, vertex, false)
    }

    // Joins the start alone. An `Err` is want of memory.
    fn begin(&mut self, g: Instance, start: u32) -> Result<(), AllocError> {
        self.distances.fill(FAR);
        self.joined.fill(false);
        self.heap.clear();
        self.left = g.distinct_terminals();
        self.join(g, start)
    }

    // Joins the path to a terminal that is not joined, or goes on from another vertex. An `Err` is want of memory.
    fn visit(&mut self, g: Instance, vertex: u32, distance: u64) -> Result<(), AllocError> {
        if g.is_terminal(vertex) && !self.is_joined(vertex) {
            self.join_path(g, vertex)
        } else {
            self.relax(g, vertex, distance)
        }
    }

    // Joins the vertices of the path that found a terminal. An `Err` is want of memory.
    fn join_path(&mut self, g: Instance, terminal: u32) -> Result<(), AllocError> {
        let mut vertex = terminal;
        for _ in 0..g.vertex_count() {
            if self.is_joined(vertex) {
                break;
            }
            self.join(g, vertex)?;
            if let Some(arc) = at(&self.found_by, vertex, None) {
                vertex = arc.from;
            }
        }
        Ok(())
    }

    // Joins a vertex, from which the search then goes on. An `Err` is want of memory.
    fn join(&mut self, g: Instance, vertex: u32) -> Result<(), AllocError> {
        if g.is_terminal(vertex) && !self.is_joined(vertex) {
            self.left = self.left.saturating_sub(1);
        }
        put(&mut self.joined, vertex, true);
        put(&mut self.distances, vertex, 0);
        self.heap.push(Reverse((0, vertex)))?;
        Ok(())
    }

    // Finds the vertices that a path to a vertex leads on to, where that is shorter. An `Err` is want of memory.
    fn relax(&mut self, g: Instance, vertex: u32, distance: u64) -> Result<(), AllocError> {
        for arc in g.arcs_from(vertex) {
            let longer = distance.saturating_add(g.length_of(arc.number / 2));
            if longer < at(&self.distances, arc.to, 0) {
                put(&mut self.distances, arc.to, longer);
                put(&mut self.found_by, arc.to, Some(*arc));
                self.heap.push(Reverse((longer, arc.to)))?;
            }
        }
        Ok(())
    }
}
