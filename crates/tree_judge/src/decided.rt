//! What is decided of edges and vertices at a node, by the states of both.

ghost use Rattle.std.specs.Prelude.{◌≡◌, ◌<◌, ◌↔◌, ◌⊎◌, length, slice_get, Some, IsTrue};
ghost use Rattle.net_graph.specs.Graph.{HasEndsBelow};
ghost use Rattle.net_graph.specs.Decision.{EndsInside, IsMissed, IsRequired, IsVertexUndecided, states_of};
ghost use Rattle.cert_tree.specs.Decisions.{IsUndecidedSplit};
ghost use Rattle.tree_judge.specs.Ways.{HasState, HasStates};

use crate::states::States;
use cert_tree::SplitOn;
use net_graph::{Edge, EdgeState, NetGraph};

/// The state of an edge: Outside where it is free, so also where it has an end in a missed vertex.
pub(crate) fn state_at(decided: &States, g: &NetGraph, n: u32) -> EdgeState
    requires rows { HasStates g.now decided.now }
    requires edge { n < length g.now.edges }
    ensures { slice_get (states_of g.now decided.now) n ≡ Some result }
{
    let e = g.edge(n);
    match decided.edge(n) {
        EdgeState::Inside => EdgeState::Inside,
        EdgeState::Outside => EdgeState::Outside,
        EdgeState::Undecided if misses_end(decided, &e) => EdgeState::Outside,
        EdgeState::Undecided => EdgeState::Undecided,
    }
}

/// Whether what a split is on is undecided.
pub(crate) fn is_split_undecided(decided: &States, g: &NetGraph, on: SplitOn) -> bool
    requires rows { HasStates g.now decided.now }
    requires on { HasState decided.now on }
    ensures { IsTrue result ↔ IsUndecidedSplit g.now decided.now on }
{
    match on {
        SplitOn::Edge(n) => matches!(state_at(decided, g, n), EdgeState::Undecided),
        SplitOn::Vertex(v) => is_vertex_undecided(decided, g, v),
    }
}

// Whether a vertex is neither the root nor required nor missed.
fn is_vertex_undecided(decided: &States, g: &NetGraph, v: u32) -> bool
    requires rows { HasStates g.now decided.now }
    requires vertex { v < length decided.now.vertices }
    ensures { IsTrue result ↔ IsVertexUndecided g.now decided.now v }
{
    !is_required(decided, g, v) && !decided.is_missed(v)
}

// Whether a vertex is a terminal, an end of an inside edge, or met.
fn is_required(decided: &States, g: &NetGraph, v: u32) -> bool
    requires rows { HasStates g.now decided.now }
    requires vertex { v < length decided.now.vertices }
    ensures { IsTrue result ↔ IsRequired g.now decided.now v }
{
    g.terminals().contains(&v) || ends_inside(decided, g, v) || decided.is_met(v)
}

// Whether an inside edge has this end.
fn ends_inside(decided: &States, g: &NetGraph, v: u32) -> bool
    requires { HasStates g.now decided.now }
    ensures { IsTrue result ↔ EndsInside g.now decided.now v }
{
    for n in 0..g.edge_count() {
        let e = g.edge(n);
        if decided.is_inside(n) && (e.a == v || e.b == v) {
            return true;
        }
    }
    false
}

// Whether an end of the edge is missed.
fn misses_end(decided: &States, e: &Edge) -> bool
    requires { HasEndsBelow (length decided.now.vertices) e.now }
    ensures { IsTrue result ↔ (IsMissed decided.now e.now.a ⊎ IsMissed decided.now e.now.b) }
{
    decided.is_missed(e.a) || decided.is_missed(e.b)
}
