//! What is decided of edges and vertices.

ghost use Rattle.std.specs.Prelude.{◌≡◌, ◌<◌, ◌↔◌, length, replicate, slice_get, Some, IsTrue, IfOk};
ghost use Rattle.net_graph.specs.Decision.{IsMet, IsMissed, decided_of, with_edge, with_vertex};

use net_graph::{EdgeState, VertexState};
use std::alloc::{AllocError, Global};
use std::marker::Model;

/// What is decided of each edge itself, whatever its ends, and of each vertex.
#[derive(Drop)]
pub(crate) struct States {
    edges: Vec<EdgeState>,
    vertices: Vec<VertexState>,
}

impl Model for States {
    ghost use Rattle.net_graph.specs.Decision.{Decided, decided_of};

    ghost Value = { Decided };

    ghost view = { λ s. decided_of s.edges.items s.vertices.items };
}

impl States {
    /// Nothing is decided of so many edges and vertices. An `Err` is want of memory.
    pub(crate) fn new(alloc: Global, edges: u32, vertices: u32) -> Result<States, AllocError>
        ensures { IfOk result (λ states. states
            ≡ decided_of (replicate edges EdgeState.Undecided) (replicate vertices VertexState.Undecided)) }
    {
        Ok(States {
            edges: vec![in alloc; EdgeState::Undecided; edges as usize]?,
            vertices: vec![in alloc; VertexState::Undecided; vertices as usize]?,
        })
    }

    /// What is decided of an edge itself, whatever its ends.
    pub(crate) fn edge(&self, n: u32) -> EdgeState
        requires { n < length self.now.edges }
        ensures { slice_get self.now.edges n ≡ Some result }
    {
        self.edges[n as usize]
    }

    /// Whether an edge is inside.
    pub(crate) fn is_inside(&self, n: u32) -> bool
        requires { n < length self.now.edges }
        ensures { IsTrue result ↔ (slice_get self.now.edges n ≡ Some EdgeState.Inside) }
    {
        matches!(self.edge(n), EdgeState::Inside)
    }

    /// Writes the state of an edge.
    pub(crate) fn set_edge(&mut self, n: u32, state: EdgeState)
        requires { n < length self.old.edges }
        ensures { self.new ≡ with_edge self.old n state }
    {
        self.edges[n as usize] = state;
    }

    /// What is decided of a vertex.
    pub(crate) fn vertex(&self, v: u32) -> VertexState
        requires { v < length self.now.vertices }
        ensures { slice_get self.now.vertices v ≡ Some result }
    {
        self.vertices[v as usize]
    }

    /// Whether a vertex is met.
    pub(crate) fn is_met(&self, v: u32) -> bool
        requires { v < length self.now.vertices }
        ensures { IsTrue result ↔ IsMet self.now v }
    {
        matches!(self.vertex(v), VertexState::Met)
    }

    /// Whether a vertex is missed.
    pub(crate) fn is_missed(&self, v: u32) -> bool
        requires { v < length self.now.vertices }
        ensures { IsTrue result ↔ IsMissed self.now v }
    {
        matches!(self.vertex(v), VertexState::Missed)
    }

    /// Writes the state of a vertex.
    pub(crate) fn set_vertex(&mut self, v: u32, state: VertexState)
        requires { v < length self.old.vertices }
        ensures { self.new ≡ with_vertex self.old v state }
    {
        self.vertices[v as usize] = state;
    }
}
