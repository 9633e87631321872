//! Decisions, and packings under them.

ghost use Rattle.std.specs.Prelude.{◌≡◌, length, All};
ghost use Rattle.net_graph.specs.Decision.{IsDecisionFor};

use crate::described::packing;
use crate::told::tell_vertices;
use dual_ascent::maximal;
use net_graph::{
    Decision, NetGraph, Packing, VertexSet, feasible, required, value, vertex_undecided,
};
use row_tables::{Call, Fault, Told};
use std::alloc::{AllocError, Global};

/// What a copy of a decision says of a graph: the states of the edges, and which vertices are required and which
/// undecided.
pub fn decision_told(
    alloc: Global,
    g: &NetGraph,
    d: &Decision,
    told: &mut Told,
) -> Result<(), Fault>
    requires { IsDecisionFor g.now d.now }
{
    tell_decision(alloc, g, &d.copy()?, told)
}

// What a decision says of a graph.
fn tell_decision(alloc: Global, g: &NetGraph, d: &Decision, told: &mut Told) -> Result<(), Fault>
    requires { IsDecisionFor g.now d.now }
{
    for state in &d.states(alloc, g)? {
        told.debug_line("", state);
    }
    tell_vertices(told, "required", &required_vertices(alloc, g, d)?);
    tell_vertices(told, "undecided", &undecided_vertices(alloc, g, d)?);
    Ok(())
}

// The vertices that are required.
fn required_vertices(alloc: Global, g: &NetGraph, d: &Decision) -> Result<VertexSet, AllocError> {
    let mut set = VertexSet::empty(alloc, g.vertex_count())?;
    for v in 0..set.len() {
        if required(g, d, v) && v < set.len() {
            set.add(v);
        }
    }
    Ok(set)
}

// The vertices that are undecided.
fn undecided_vertices(alloc: Global, g: &NetGraph, d: &Decision) -> Result<VertexSet, AllocError> {
    let mut set = VertexSet::empty(alloc, g.vertex_count())?;
    for v in 0..g.vertex_count() {
        if vertex_undecided(g, d, v) && v < set.len() {
            set.add(v);
        }
    }
    Ok(set)
}

/// What is told of a copy of the packing under `cuts`, under a decision: whether it is feasible, its value, and whether
/// saturated arcs lead to all required vertices.
pub fn packing_told(
    alloc: Global,
    call: &Call,
    g: &NetGraph,
    d: &Decision,
    told: &mut Told,
) -> Result<(), Fault>
    requires { IsDecisionFor g.now d.now }
{
    let p = packing(alloc, call, g, "cuts")?.copy()?;
    tell_packing(alloc, g, d, &p, told)
}

// Tells whether the packing is feasible, its value, and whether saturated arcs lead to all required vertices.
fn tell_packing(
    alloc: Global,
    g: &NetGraph,
    d: &Decision,
    p: &Packing,
    told: &mut Told,
) -> Result<(), Fault>
    requires decision { IsDecisionFor g.now d.now }
    requires members { All (λ c. length c.members ≡ g.now.vertices) p.now }
{
    if p.len() > 1 << 32 {
        return Err(Fault::NotAllowed);
    }
    told.line("feasible ", &feasible(g, d, p));
    told.line("value ", &value(g, d, p));
    told.line("maximal ", &maximal(alloc, g, d, p)?);
    Ok(())
}
