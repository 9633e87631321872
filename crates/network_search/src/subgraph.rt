//! Subgraphs: some edges of a graph, with what is asked of them again and again.

ghost use Rattle.std.specs.Prelude.{◌≡◌, length, IfOk};

use crate::access::{at, put};
use crate::instance::Instance;
use net_graph::{Arc, EdgeSet, NetGraph};
use std::alloc::{AllocError, Global};

/// Some edges of a graph, with the degree of each vertex in them and the sum of their lengths.
#[derive(Drop)]
pub struct Subgraph {
    inside: Vec<bool>,
    degrees: Vec<u32>,
    length: u64,
}

impl Subgraph {
    /// No edge of the graph. An `Err` is want of memory.
    pub fn empty(alloc: Global, g: Instance) -> Result<Subgraph, AllocError> {
        Ok(Subgraph {
            inside: vec![in alloc; false; g.edge_count() as usize]?,
            degrees: vec![in alloc; 0; g.vertex_count() as usize]?,
            length: 0,
        })
    }

    /// The edges of a set. An `Err` is want of memory.
    pub fn of_set(alloc: Global, g: Instance, set: &EdgeSet) -> Result<Subgraph, AllocError> {
        let mut subgraph = Subgraph::empty(alloc, g)?;
        for edge in 0..set.len() {
            if set.has(edge) {
                subgraph.add(g, edge);
            }
        }
        Ok(subgraph)
    }

    /// The set of its edges, of the graph's size. An `Err` is want of memory.
    pub fn edge_set(&self, alloc: Global, g: &NetGraph) -> Result<EdgeSet, AllocError>
        ensures { IfOk result (λ set. length set ≡ length g.now.edges) }
    {
        let mut set = EdgeSet::empty(alloc, g.edge_count())?;
        for edge in 0..g.edge_count() {
            if self.has(edge) {
                set.add(edge);
            }
        }
        Ok(set)
    }

    /// Whether it has an edge.
    pub fn has(&self, edge: u32) -> bool {
        at(&self.inside, edge, false)
    }

    /// How many of its edges end in a vertex.
    pub fn degree(&self, vertex: u32) -> u32 {
        at(&self.degrees, vertex, 0)
    }

    /// The sum of its edges' lengths.
    pub fn length(&self) -> u64 {
        self.length
    }

    /// The first of its arcs from a vertex that is no arc of another edge.
    pub fn arc_beside(&self, g: Instance, vertex: u32, other: Option<u32>) -> Option<Arc> {
        for arc in g.arcs_from(vertex) {
            if self.has(arc.number / 2) && other != Some(arc.number / 2) {
                return Some(*arc);
            }
        }
        None
    }

    /// Puts an edge in.
    pub fn add(&mut self, g: Instance, number: u32) {
        if let Some(edge) = g.edge(number) {
            if !self.has(number) {
                put(&mut self.inside, number, true);
                self.length = self.length.saturating_add(edge.length);
                let degree = self.degree(edge.a).saturating_add(1);
                put(&mut self.degrees, edge.a, degree);
                let degree = self.degree(edge.b).saturating_add(1);
                put(&mut self.degrees, edge.b, degree);
            }
        }
    }

    /// Takes an edge out.
    pub fn remove(&mut self, g: Instance, number: u32) {
        if let Some(edge) = g.edge(number) {
            if self.has(number) {
                put(&mut self.inside, number, false);
                self.length = self.length.saturating_sub(edge.length);
                let degree = self.degree(edge.a).saturating_sub(1);
                put(&mut self.degrees, edge.a, degree);
                let degree = self.degree(edge.b).saturating_sub(1);
                put(&mut self.degrees, edge.b, degree);
            }
        }
    }

    /// Takes all edges out.
    pub fn clear(&mut self) {
        self.inside.fill(false);
        self.degrees.fill(0);
        self.length = 0;
    }
}
