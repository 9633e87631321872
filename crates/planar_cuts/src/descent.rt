//! A search of a graph that goes deeper first (after Hopcroft and Tarjan 1973). It gives each edge a direction: down
//! the tree that it makes, or back up to a vertex that it came through.

use cut_groups::{NONE, at, ends_of, set};
use net_graph::{Arc, NetGraph};
use std::alloc::{AllocError, Global};

/// The vertices and edges of a graph as such a search comes to them, begun anew in each part that is apart.
#[derive(Drop)]
pub struct Descent {
    /// The vertices in their order.
    pub order: Vec<u32>,
    // Of each vertex how many arcs lead down to it, and the last of them, `NONE` where the search began.
    heights: Vec<u32>,
    tree_arcs: Vec<u32>,
    // Of each edge the arc along which it was first looked at, `NONE` where it joins a vertex to itself.
    arcs: Vec<u32>,
    // How many arcs of each vertex were looked at.
    places: Vec<u32>,
}

impl Descent {
    /// The search of a graph. An `Err` is want of memory.
    pub fn of(alloc: Global, graph: &NetGraph) -> Result<Descent, AllocError> {
        let vertices = graph.vertex_count() as usize;
        let mut descent = Descent {
            order: Vec::with_capacity(alloc, vertices)?,
            heights: vec![in alloc; NONE; vertices]?,
            tree_arcs: vec![in alloc; NONE; vertices]?,
            arcs: vec![in alloc; NONE; graph.edges().len()]?,
            places: vec![in alloc; 0; vertices]?,
        };
        for vertex in 0..graph.vertex_count() {
            if descent.height(vertex) == NONE {
                set(&mut descent.heights, vertex, 0);
                descent.order.push(vertex)?;
                descent.go_down(graph, vertex)?;
            }
        }
        Ok(descent)
    }

    /// How many arcs lead down to a vertex from where the search began.
    #[inline]
    pub fn height(&self, vertex: u32) -> u32 {
        at(&self.heights, vertex, NONE)
    }

    /// The arc down to a vertex, `NONE` where the search began.
    #[inline]
    pub fn tree_arc(&self, vertex: u32) -> u32 {
        at(&self.tree_arcs, vertex, NONE)
    }

    /// Whether an edge has the direction of this arc.
    #[inline]
    pub fn leads(&self, arc: u32) -> bool {
        at(&self.arcs, arc / 2, NONE) == arc
    }

    // Searches what is not yet searched from a vertex. An `Err` is want of memory.
    fn go_down(&mut self, graph: &NetGraph, start: u32) -> Result<(), AllocError> {
        // Each step looks at an arc or goes back from a vertex.
        let most = graph.edge_count().saturating_mul(2);
        let mut vertex = start;
        for _ in 0..most.saturating_add(graph.vertex_count()) {
            match self.next(graph, vertex) {
                Some(arc) => {
                    if self.takes(arc)? {
                        vertex = arc.to;
                    }
                }
                None if vertex == start => break,
                None => vertex = ends_of(graph, self.tree_arc(vertex)).tail,
            }
        }
        Ok(())
    }

    // The next arc of a vertex to look at.
    fn next(&mut self, graph: &NetGraph, vertex: u32) -> Option<Arc> {
        if vertex >= graph.vertex_count() {
            return None;
        }
        let place = at(&self.places, vertex, 0);
        set(&mut self.places, vertex, place.wrapping_add(1));
        graph.arcs_from(vertex).get(place as usize).copied()
    }

    // Looks at an arc; whether it leads down to a new vertex. An `Err` is want of memory.
    fn takes(&mut self, arc: Arc) -> Result<bool, AllocError> {
        let edge = arc.number / 2;
        if at(&self.arcs, edge, 0) != NONE || arc.from == arc.to {
            return Ok(false);
        }
        set(&mut self.arcs, edge, arc.number);
        if self.height(arc.to) != NONE {
            return Ok(false);
        }
        let height = self.height(arc.from).wrapping_add(1);
        set(&mut self.heights, arc.to, height);
        set(&mut self.tree_arcs, arc.to, arc.number);
        self.order.push(arc.to)?;
        Ok(true)
    }
}
