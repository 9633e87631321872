//! Whether a packing of cuts is feasible.

ghost use Rattle.std.specs.Prelude.{◌≡◌, ◌<◌, ◌↔◌, ℕ, true, length, All, Contains, IsTrue};
ghost use Rattle.net_graph.specs.Flags.{has};
ghost use Rattle.net_graph.specs.Decision.{IsDecisionFor, IsRequired, IsMet, EndsInside};
ghost use Rattle.net_graph.specs.Packing.{IsCut, IsWithinRoom, IsFeasible};
ghost use Rattle.net_graph.specs.Packing as packing;
ghost use Rattle.net_graph.specs.Feasible.{KeepsRoom};

use crate::decision::Decision;
use crate::edge::Edge;
use crate::graph::NetGraph;
use crate::packing::{Cut, Packing};
use crate::sets::VertexSet;
use crate::state::EdgeState;

/// Whether a packing is feasible: each member is a cut with a weight of at least 1, and no arc is loaded above its
/// room. The time grows with the number of edges times that of cuts. It takes no memory.
pub fn feasible(g: &NetGraph, d: &Decision, p: &Packing) -> bool
    requires decision { IsDecisionFor g.now d.now }
    requires members { All (λ c. length c.members ≡ g.now.vertices) p.now }
    ensures { IsTrue result ↔ IsFeasible g.now d.now p.now }
{
    let cuts = p.cuts();
    are_cuts(g, d, cuts) && edges_within_room(g, d, cuts)
}

// Whether each member is a cut with a weight of at least 1.
fn are_cuts(g: &NetGraph, d: &Decision, cuts: &[Cut]) -> bool
    requires { All (λ c. length c.members ≡ g.now.vertices) cuts.now }
    ensures { IsTrue result ↔ All (λ c. (0 < c.weight) × IsCut g.now d.now c.members) cuts.now }
{
    for cut in cuts {
        if !is_cut(g, d, cut) {
            return false;
        }
    }
    true
}

// Whether the member is a cut with a weight of at least 1.
fn is_cut(g: &NetGraph, d: &Decision, cut: &Cut) -> bool
    requires { length cut.now.members ≡ g.now.vertices }
    ensures { IsTrue result ↔ ((0 < cut.now.weight) × IsCut g.now d.now cut.now.members) }
{
    cut.weight >= 1 && !cut.members.has(g.root()) && holds_required(g, d, &cut.members)
}

// Whether the set holds a required vertex.
fn holds_required(g: &NetGraph, d: &Decision, members: &VertexSet) -> bool
    requires { length members.now ≡ g.now.vertices }
    ensures { IsTrue result ↔ ((v : ℕ) × IsRequired g.now d.now v × (has members.now v ≡ true)) }
{
    holds_terminal(g, members) || holds_inside_end(g, d, members) || holds_met(d, members)
}

/// Whether the set of vertices of a graph, of its size, holds a terminal.
pub fn holds_terminal(g: &NetGraph, members: &VertexSet) -> bool
    requires { length members.now ≡ g.now.vertices }
    ensures { IsTrue result ↔ ((v : ℕ) × Contains g.now.terminals v × (has members.now v ≡ true)) }
{
    for terminal in g.terminals() {
        if members.has(*terminal) {
            return true;
        }
    }
    false
}

// Whether the set holds an end of an inside edge.
fn holds_inside_end(g: &NetGraph, d: &Decision, members: &VertexSet) -> bool
    requires { length members.now ≡ g.now.vertices }
    ensures { IsTrue result ↔ ((v : ℕ) × EndsInside g.now d.now v × (has members.now v ≡ true)) }
{
    for (n, e) in g.edges().iter().enumerate() {
        if d.is_inside(n) && (members.has(e.a) || members.has(e.b)) {
            return true;
        }
    }
    false
}

// Whether the set holds a met vertex.
fn holds_met(d: &Decision, members: &VertexSet) -> bool
    ensures { IsTrue result ↔ ((v : ℕ) × IsMet d.now v × (has members.now v ≡ true)) }
{
    for v in 0..members.len() {
        if d.is_met(v) && members.has(v) {
            return true;
        }
    }
    false
}

// Whether no arc is loaded above its room.
fn edges_within_room(g: &NetGraph, d: &Decision, cuts: &[Cut]) -> bool
    requires decision { IsDecisionFor g.now d.now }
    requires members { All (λ c. length c.members ≡ g.now.vertices) cuts.now }
    ensures { IsTrue result ↔ ((n : ℕ) → KeepsRoom g.now d.now cuts.now n) }
{
    for n in 0..g.edge_count() {
        if !edge_within_room(g, d, cuts, n) {
            return false;
        }
    }
    true
}

// Whether neither arc of the edge is loaded above its room.
fn edge_within_room(g: &NetGraph, d: &Decision, cuts: &[Cut], n: u32) -> bool
    requires edge { n < length g.now.edges }
    requires decision { IsDecisionFor g.now d.now }
    requires members { All (λ c. length c.members ≡ g.now.vertices) cuts.now }
    ensures { IsTrue result ↔ KeepsRoom g.now d.now cuts.now n }
{
    let e = g.edge(n);
    let state = d.state(g, n);
    let (along, against) = loads(cuts, e.a, e.b);
    within_room(state, e, along) && within_room(state, e, against)
}

// Whether the load is no more than the room of the edge's arcs.
fn within_room(state: EdgeState, e: Edge, load: u128) -> bool
    ensures { IsTrue result ↔ IsWithinRoom state e load }
{
    match state {
        EdgeState::Undecided => load <= u128::from(e.length),
        EdgeState::Inside => load == 0,
        EdgeState::Outside => true,
    }
}

// The sums of the weights of the cuts that the arc from `u` to `v` enters, and of those that the arc from `v` to `u`
// does.
fn loads(cuts: &[Cut], u: u32, v: u32) -> (u128, u128)
    requires from { All (λ c. u < length c.members) cuts.now }
    requires to { All (λ c. v < length c.members) cuts.now }
    ensures along { result.0 ≡ packing.load cuts.now u v }
    ensures against { result.1 ≡ packing.load cuts.now v u }
{
    let mut along = 0;
    let mut against = 0;
    for cut in cuts {
        match (cut.members.has(u), cut.members.has(v)) {
            (false, true) => along += u128::from(cut.weight),
            (true, false) => against += u128::from(cut.weight),
            _ => {}
        }
    }
    (along, against)
}

/// Whether an arc from `u` to `v` enters the set: it leads to a member, and from a vertex that is none. One past the
/// set's size is none.
pub fn enters(members: &VertexSet, u: u32, v: u32) -> bool
    ensures { result ≡ packing.enters members.now u v }
{
    members.holds(v) && !members.holds(u)
}
