//! Distances in a graph, as far as they were asked for.

use crate::access::at;
use crate::instance::Instance;
use crate::shortest_paths::{FAR, ShortestPaths};
use crate::subgraph::Subgraph;
use net_graph::Arc;
use std::alloc::{AllocError, Global};

/// The distances from some vertices of a graph to all.
#[derive(Drop)]
pub struct Distances {
    // For each vertex the distances from it; none where they weren't asked for.
    rows: Vec<Vec<u64>>,
    paths: ShortestPaths,
}

impl Distances {
    /// No distances as yet. An `Err` is want of memory.
    pub fn new(alloc: Global, g: Instance) -> Result<Distances, AllocError> {
        let mut rows = Vec::with_capacity(alloc, g.vertex_count() as usize)?;
        for _ in 0..g.vertex_count() {
            rows.push(Vec::new(alloc))?;
        }
        Ok(Distances {
            rows,
            paths: ShortestPaths::new(alloc, g)?,
        })
    }

    /// Finds the distances from a vertex, where they weren't asked for before. An `Err` is want of
    /// memory.
    pub fn find(&mut self, g: Instance, vertex: u32) -> Result<(), AllocError> {
        let place = vertex as usize;
        if place < self.rows.len() && self.rows[place].is_empty() {
            self.paths.search(g, &[vertex], &[], FAR)?;
            self.rows[place].extend_from_slice(self.paths.distances())?;
        }
        Ok(())
    }

    /// The distance from a vertex, whose distances were found, to another one.
    pub fn between(&self, from: u32, to: u32) -> u64 {
        match self.rows.get(from as usize) {
            Some(row) => at(row, to, FAR),
            None => FAR,
        }
    }

    /// Adds the edges of a shortest path from a vertex, whose distances were found, to another one.
    /// Where it may, it goes along what is there.
    pub fn add_path(&self, g: Instance, from: u32, to: u32, subgraph: &mut Subgraph) {
        let mut vertex = to;
        for _ in 0..g.vertex_count() {
            if vertex == from {
                break;
            }
            if let Some(arc) = self.arc_towards(g, from, vertex, subgraph) {
                subgraph.add(g, arc.number / 2);
                vertex = arc.to;
            }
        }
    }

    // The first arc of a shortest path from a vertex to the one whose distances were found.
    fn arc_towards(&self, g: Instance, to: u32, vertex: u32, subgraph: &Subgraph) -> Option<Arc> {
        let distance = self.between(to, vertex);
        let mut found = None;
        for arc in g.arcs_from(vertex) {
            let length = g.length_of(arc.number / 2);
            if self.between(to, arc.to).saturating_add(length) == distance {
                if found.is_none() || subgraph.degree(arc.to) > 0 {
                    found = Some(*arc);
                }
            }
        }
        found
    }
}
