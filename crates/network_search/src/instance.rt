//! A graph as the search reads it: at any number, where past the end there is nothing.

use crate::access::{at, put};
use net_graph::{Arc, Edge, NetGraph};
use std::alloc::{AllocError, Global};

/// A graph, and whether each of its vertices is a terminal.
#[derive(Clone, Copy)]
pub struct Instance<'a> {
    graph: &'a NetGraph,
    terminals: &'a [bool],
}

impl<'a> Instance<'a> {
    /// A graph with the marks of its terminals.
    pub fn new(graph: &'a NetGraph, terminals: &'a [bool]) -> Instance<'a> {
        Instance { graph, terminals }
    }

    /// How many vertices there are.
    pub fn vertex_count(self) -> u32 {
        self.graph.vertex_count()
    }

    /// How many edges there are.
    pub fn edge_count(self) -> u32 {
        self.graph.edge_count()
    }

    /// The first terminal.
    pub fn root(self) -> u32 {
        self.graph.root()
    }

    /// Whether a vertex is a terminal.
    pub fn is_terminal(self, vertex: u32) -> bool {
        at(self.terminals, vertex, false)
    }

    /// How many vertices are terminals.
    pub fn distinct_terminals(self) -> u32 {
        let mut count = 0u32;
        for is_terminal in self.terminals {
            if *is_terminal {
                count = count.saturating_add(1);
            }
        }
        count
    }

    /// The arcs that lead from a vertex.
    pub fn arcs_from(self, vertex: u32) -> &'a [Arc] {
        if vertex < self.graph.vertex_count() {
            self.graph.arcs_from(vertex)
        } else {
            &[]
        }
    }

    /// The edge of a number.
    pub fn edge(self, number: u32) -> Option<Edge> {
        self.graph.edges().get(number as usize).copied()
    }

    /// The length of an edge; 0 of what is no edge.
    pub fn length_of(self, number: u32) -> u64 {
        match self.edge(number) {
            Some(edge) => edge.length,
            None => 0,
        }
    }
}

/// Whether each vertex is a terminal. An `Err` is want of memory.
pub fn terminal_marks(alloc: Global, g: &NetGraph) -> Result<Vec<bool>, AllocError> {
    let mut marks = vec![in alloc; false; g.vertex_count() as usize]?;
    for terminal in g.terminals() {
        put(&mut marks, *terminal, true);
    }
    Ok(marks)
}
