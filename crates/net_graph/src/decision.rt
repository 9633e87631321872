//! What is decided of a graph's edges and vertices.

ghost use Rattle.std.specs.Prelude.{◌≡◌, ◌<◌, ◌↔◌, ◌⊎◌, length, slice_get, Some, IfOk, IsTrue};
ghost use Rattle.net_graph.specs.Decision.{
  IsDecisionFor,
  IsUndecided,
  IsVertexUndecided,
  IsRequired,
  IsMet,
  IsMissed,
  EndsInside,
  nothing_decided,
  states_of,
  with_edge,
  with_vertex,
};

use crate::edge::Edge;
use crate::graph::NetGraph;
use crate::state::{EdgeState, VertexState};
use std::alloc::{AllocError, Global};
use std::marker::Model;

/// A decision on the edges and vertices of a graph. Contracts see the two lists of their states, by number.
#[derive(Drop)]
pub struct Decision {
    edges: Vec<EdgeState>,
    vertices: Vec<VertexState>,
}

impl Model for Decision {
    ghost use Rattle.net_graph.specs.Decision.{Decided, decided_of};

    ghost Value = { Decided };

    ghost view = { λ d. decided_of d.edges.items d.vertices.items };
}

impl Decision {
    /// The decision that leaves every edge and every vertex undecided. An error comes where memory is short.
    pub fn none(alloc: Global, g: &NetGraph) -> Result<Decision, AllocError>
        ensures value { IfOk result (λ d. d ≡ nothing_decided g.now) }
        ensures decision { IfOk result (λ d. IsDecisionFor g.now d) }
    {
        let edges = vec![in alloc; EdgeState::Undecided; g.edge_count() as usize]?;
        let vertices = vec![in alloc; VertexState::Undecided; g.vertex_count() as usize]?;
        Ok(Decision { edges, vertices })
    }

    /// The state of the edge `e`: Outside where it is free, so also where it has an end in a missed vertex.
    pub fn state(&self, g: &NetGraph, e: u32) -> EdgeState
        requires edge { e < length g.now.edges }
        requires decision { IsDecisionFor g.now self.now }
        ensures { slice_get (states_of g.now self.now) e ≡ Some result }
    {
        match self.own_state(e) {
            EdgeState::Inside => EdgeState::Inside,
            EdgeState::Outside => EdgeState::Outside,
            EdgeState::Undecided if self.misses_end(g.edge(e)) => EdgeState::Outside,
            EdgeState::Undecided => EdgeState::Undecided,
        }
    }

    /// The states of all edges, by number. An error comes where memory is short.
    pub fn states(&self, alloc: Global, g: &NetGraph) -> Result<Vec<EdgeState>, AllocError>
        requires { IsDecisionFor g.now self.now }
        ensures { IfOk result (λ states. states.items ≡ states_of g.now self.now) }
    {
        let mut states = Vec::new(alloc);
        for e in 0..g.edge_count() {
            states.push(self.state(g, e))?;
        }
        Ok(states)
    }

    /// This decision with the edge `e` inside. An error comes where memory is short.
    pub fn with_inside(&self, _g: &NetGraph, e: u32) -> Result<Decision, AllocError>
        requires decision { IsDecisionFor _g.now self.now }
        requires undecided { IsUndecided _g.now self.now e }
        ensures value { IfOk result (λ d. d ≡ with_edge self.now e EdgeState.Inside) }
        ensures decision { IfOk result (λ d. IsDecisionFor _g.now d) }
    {
        self.with_edge(e, EdgeState::Inside)
    }

    /// This decision with the edge `e` outside. An error comes where memory is short.
    pub fn with_outside(&self, _g: &NetGraph, e: u32) -> Result<Decision, AllocError>
        requires decision { IsDecisionFor _g.now self.now }
        requires undecided { IsUndecided _g.now self.now e }
        ensures value { IfOk result (λ d. d ≡ with_edge self.now e EdgeState.Outside) }
        ensures decision { IfOk result (λ d. IsDecisionFor _g.now d) }
    {
        self.with_edge(e, EdgeState::Outside)
    }

    /// This decision with the vertex `v` met. An error comes where memory is short.
    pub fn with_met(&self, _g: &NetGraph, v: u32) -> Result<Decision, AllocError>
        requires decision { IsDecisionFor _g.now self.now }
        requires undecided { IsVertexUndecided _g.now self.now v }
        ensures value { IfOk result (λ d. d ≡ with_vertex self.now v VertexState.Met) }
        ensures decision { IfOk result (λ d. IsDecisionFor _g.now d) }
    {
        self.with_vertex(v, VertexState::Met)
    }

    /// This decision with the vertex `v` missed. An error comes where memory is short.
    pub fn with_missed(&self, _g: &NetGraph, v: u32) -> Result<Decision, AllocError>
        requires decision { IsDecisionFor _g.now self.now }
        requires undecided { IsVertexUndecided _g.now self.now v }
        ensures value { IfOk result (λ d. d ≡ with_vertex self.now v VertexState.Missed) }
        ensures decision { IfOk result (λ d. IsDecisionFor _g.now d) }
    {
        self.with_vertex(v, VertexState::Missed)
    }

    /// The same decision again. An error comes where memory is short.
    pub fn copy(&self) -> Result<Decision, AllocError>
        ensures { IfOk result (λ d. d ≡ self.now) }
    {
        let edges = self.edges.clone()?;
        let vertices = self.vertices.clone()?;
        Ok(Decision { edges, vertices })
    }

    // Whether the edge of this number is inside. There is none past the last.
    pub(crate) fn is_inside(&self, n: usize) -> bool
        ensures { IsTrue result ↔ (slice_get self.now.edges n ≡ Some EdgeState.Inside) }
    {
        matches!(self.edges.get(n), Some(EdgeState::Inside))
    }

    // Whether the vertex is met.
    pub(crate) fn is_met(&self, v: u32) -> bool
        ensures { IsTrue result ↔ IsMet self.now v }
    {
        matches!(self.vertices.get(v as usize), Some(VertexState::Met))
    }

    // Whether the vertex is missed.
    fn is_missed(&self, v: u32) -> bool
        ensures { IsTrue result ↔ IsMissed self.now v }
    {
        matches!(self.vertices.get(v as usize), Some(VertexState::Missed))
    }

    // Whether an end of the edge is missed.
    fn misses_end(&self, edge: Edge) -> bool
        ensures { IsTrue result ↔ (IsMissed self.now edge.a ⊎ IsMissed self.now edge.b) }
    {
        self.is_missed(edge.a) || self.is_missed(edge.b)
    }

    // What is decided of the edge itself, whatever its ends.
    fn own_state(&self, e: u32) -> EdgeState
        requires { e < length self.now.edges }
        ensures { slice_get self.now.edges e ≡ Some result }
    {
        self.edges[e as usize]
    }

    // This decision with another state of one edge.
    fn with_edge(&self, e: u32, state: EdgeState) -> Result<Decision, AllocError>
        requires { e < length self.now.edges }
        ensures { IfOk result (λ d. d ≡ with_edge self.now e state) }
    {
        let mut changed = self.copy()?;
        changed.edges[e as usize] = state;
        Ok(changed)
    }

    // This decision with another state of one vertex.
    fn with_vertex(&self, v: u32, state: VertexState) -> Result<Decision, AllocError>
        requires { v < length self.now.vertices }
        ensures { IfOk result (λ d. d ≡ with_vertex self.now v state) }
    {
        let mut changed = self.copy()?;
        changed.vertices[v as usize] = state;
        Ok(changed)
    }
}

/// Whether the vertex `v` is a terminal, an end of an inside edge, or met.
pub fn required(g: &NetGraph, d: &Decision, v: u32) -> bool
    ensures { IsTrue result ↔ IsRequired g.now d.now v }
{
    g.terminals().contains(&v) || ends_inside(g, d, v) || d.is_met(v)
}

/// Whether the vertex `v` is neither the root nor required nor missed.
pub fn vertex_undecided(g: &NetGraph, d: &Decision, v: u32) -> bool
    requires { v < g.now.vertices }
    ensures { IsTrue result ↔ IsVertexUndecided g.now d.now v }
{
    !required(g, d, v) && !d.is_missed(v)
}

// Whether an inside edge has this end. Of each edge that has it an arc leads from there.
fn ends_inside(g: &NetGraph, d: &Decision, v: u32) -> bool
    ensures { IsTrue result ↔ EndsInside g.now d.now v }
{
    if v >= g.vertex_count() {
        return false;
    }
    for arc in g.arcs_from(v) {
        if d.is_inside(arc.number as usize / 2) {
            return true;
        }
    }
    false
}
