//! Greatest flows over saturated arcs from the root to a vertex, and the least cuts that they show (Ford and Fulkerson
//! 1956, along shortest ways after Edmonds and Karp 1972).

ghost use Rattle.std.specs.Prelude.{◌<◌};

use crate::draws::Draws;
use cut_groups::{at, set};
use net_graph::{Arc, NetGraph, partner};
use std::alloc::{AllocError, Global};

// A search for a way is counted as so small a part of an ascent.
const WAYS_AN_ASCENT: u32 = 64;

/// A flow, which grows along shortest ways.
#[derive(Drop)]
pub(crate) struct Flow {
    // What is left of the room of each arc.
    left: Vec<u32>,
    // The arc by which each vertex but the root is found.
    by: Vec<Option<Arc>>,
    // The vertices that are found, in the order in which they are.
    queue: Vec<u32>,
}

impl Flow {
    /// No flow yet, in a graph. An `Err` is want of memory.
    pub fn none(alloc: Global, graph: &NetGraph) -> Result<Flow, AllocError> {
        Ok(Flow {
            left: Vec::new(alloc),
            by: vec![in alloc; None; graph.vertex_count() as usize]?,
            queue: Vec::new(alloc),
        })
    }

    /// How much flows from the root to a vertex at most, where arcs have such rooms; `None` where that comes to a
    /// limit. The vertices that are found are then those on the root's side of a least cut. An `Err` is want of memory.
    pub fn fill(
        &mut self,
        graph: &NetGraph,
        rooms: &[u32],
        to: u32,
        limit: u32,
        draws: &mut Draws,
    ) -> Result<Option<u32>, AllocError> {
        let mut total = 0u32;
        if self.leads(graph, rooms, to)? {
            for _ in 0..limit {
                total = total.saturating_add(self.push(graph, to));
                draws.spend(graph.edge_count() / WAYS_AN_ASCENT);
                if total >= limit || !self.search(graph, to)? {
                    break;
                }
            }
        }
        Ok(if total < limit { Some(total) } else { None })
    }

    /// Whether a way over arcs with room leads from the root to a vertex. An `Err` is want of memory.
    pub fn leads(&mut self, graph: &NetGraph, rooms: &[u32], to: u32) -> Result<bool, AllocError> {
        self.left.clear();
        self.left.extend_from_slice(rooms)?;
        self.search(graph, to)
    }

    /// The edges with room by which the vertices that are found are left. An `Err` is want of memory.
    pub fn cut(
        &self,
        alloc: Global,
        graph: &NetGraph,
        rooms: &[u32],
    ) -> Result<Vec<u32>, AllocError> {
        let mut edges = Vec::new(alloc);
        for vertex in 0..graph.vertex_count() {
            if !self.is_found(graph, vertex) {
                continue;
            }
            for arc in graph.arcs_from(vertex) {
                if at(rooms, arc.number, 0) > 0 && !self.is_found(graph, arc.to) {
                    edges.push(arc.number / 2)?;
                }
            }
        }
        Ok(edges)
    }

    // Whether a way over arcs on which room is left leads from the root to a vertex: a shortest one is found. An `Err`
    // is want of memory.
    fn search(&mut self, graph: &NetGraph, to: u32) -> Result<bool, AllocError> {
        self.by.fill(None);
        self.queue.clear();
        self.queue.push(graph.root())?;
        for place in 0..usize::MAX {
            if self.is_found(graph, to) {
                return Ok(true);
            }
            let Some(vertex) = self.queue.get(place) else {
                break;
            };
            let vertex = *vertex;
            if vertex < graph.vertex_count() {
                self.go_on(graph, vertex)?;
            }
        }
        Ok(false)
    }

    // Finds the vertices to which arcs on which room is left lead from one that is found. An `Err` is want of memory.
    fn go_on(&mut self, graph: &NetGraph, vertex: u32) -> Result<(), AllocError>
        requires { vertex < graph.now.vertices }
    {
        for arc in graph.arcs_from(vertex) {
            if at(&self.left, arc.number, 0) > 0 && !self.is_found(graph, arc.to) {
                set(&mut self.by, arc.to, Some(*arc));
                self.queue.push(arc.to)?;
            }
        }
        Ok(())
    }

    // Whether a vertex is found.
    fn is_found(&self, graph: &NetGraph, vertex: u32) -> bool {
        vertex == graph.root() || at(&self.by, vertex, None).is_some()
    }

    // Pushes as much as can flow along the way to a vertex; tells how much.
    fn push(&mut self, graph: &NetGraph, to: u32) -> u32 {
        let amount = self.least_left(graph, to);
        let mut vertex = to;
        for _ in 0..graph.vertex_count() {
            let Some(arc) = at(&self.by, vertex, None) else {
                break;
            };
            let left = at(&self.left, arc.number, 0);
            set(&mut self.left, arc.number, left.saturating_sub(amount));
            let back = partner(arc.number);
            let left = at(&self.left, back, 0);
            set(&mut self.left, back, left.saturating_add(amount));
            vertex = arc.from;
        }
        amount
    }

    // The least room that is left on an arc of the way to a vertex.
    fn least_left(&self, graph: &NetGraph, to: u32) -> u32 {
        let mut least = u32::MAX;
        let mut vertex = to;
        for _ in 0..graph.vertex_count() {
            let Some(arc) = at(&self.by, vertex, None) else {
                break;
            };
            least = least.min(at(&self.left, arc.number, 0));
            vertex = arc.from;
        }
        least
    }
}
