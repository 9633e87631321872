//! Key paths of a tree.

use crate::instance::Instance;
use crate::subgraph::Subgraph;
use std::alloc::{AllocError, Global};

/// Whether a vertex of a tree is a key vertex: a terminal, or one where other than two edges meet.
pub fn is_key(g: Instance, tree: &Subgraph, vertex: u32) -> bool {
    tree.degree(vertex) != 2 || g.is_terminal(vertex)
}

/// A key path of a tree: a path between two key vertices with none between them (Duin and Voss
/// 1997).
#[derive(Drop)]
pub struct KeyPath {
    pub edges: Vec<u32>,
    pub length: u64,
    pub start: u32,
    pub end: u32,
}

impl KeyPath {
    /// No path. It takes no memory before it is found.
    pub fn new(alloc: Global) -> KeyPath {
        KeyPath {
            edges: Vec::new(alloc),
            length: 0,
            start: 0,
            end: 0,
        }
    }

    /// Finds the key path of a tree with an edge. An `Err` is want of memory.
    pub fn find(&mut self, g: Instance, tree: &Subgraph, number: u32) -> Result<(), AllocError> {
        self.edges.clear();
        self.length = 0;
        self.push(g, number)?;
        if let Some(edge) = g.edge(number) {
            self.start = self.follow(g, tree, number, edge.a)?;
            self.end = self.follow(g, tree, number, edge.b)?;
        }
        Ok(())
    }

    /// Puts the path's edges into a tree.
    pub fn put_into(&self, g: Instance, tree: &mut Subgraph) {
        for edge in &self.edges {
            tree.add(g, *edge);
        }
    }

    // Follows the tree from an end of an edge to the next key vertex. An `Err` is want of memory.
    fn follow(
        &mut self,
        g: Instance,
        tree: &Subgraph,
        edge: u32,
        end: u32,
    ) -> Result<u32, AllocError> {
        let mut last = edge;
        let mut vertex = end;
        for _ in 0..g.vertex_count() {
            if is_key(g, tree, vertex) {
                break;
            }
            if let Some(arc) = tree.arc_beside(g, vertex, Some(last)) {
                last = arc.number / 2;
                vertex = arc.to;
                self.push(g, last)?;
            }
        }
        Ok(vertex)
    }

    // Appends an edge. An `Err` is want of memory.
    fn push(&mut self, g: Instance, edge: u32) -> Result<(), AllocError> {
        self.length = self.length.saturating_add(g.length_of(edge));
        self.edges.push(edge)?;
        Ok(())
    }
}
