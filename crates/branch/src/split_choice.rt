//! What a leaf is split on.

ghost use Rattle.std.specs.Prelude.{ℕ, ◌≡◌, ◌+◌, ◌<◌, ◌≤◌, [], All, IfOk, IfSome, IfNone, length, slice_index};
ghost use Rattle.net_graph.specs.Decision.{IsDecisionFor};
ghost use Rattle.branch.specs.Meeting.{end_count, edges_at};
ghost use Rattle.branch.specs.Candidates.{HasNoEdgeToSplit, HasNoVertexToSplit};
ghost use Rattle.branch.specs.Notes.{IsEdgeCandidate, IsVertexCandidate, CanSplit, IsChoice};

use crate::note::LeafNote;
use crate::split_kind::SplitKind;
use cert_tree::SplitOn;
use dual_ascent::{Candidate, Chooser, Rule};
use net_graph::{Decision, Edge, EdgeSet, EdgeState, NetGraph, vertex_undecided};
use std::alloc::{AllocError, Global};

/// What the rule chooses to split a leaf on: of the kind Vertices one of the undecided vertices at which edges of the
/// leaf's own network end; where there is none, and of the kind Edges, one of that network's undecided edges. An `Err`
/// is want of memory.
pub(crate) fn split_choice<G: Rule>(
    alloc: Global,
    g: &NetGraph,
    note: &LeafNote,
    kind: SplitKind,
    rule: &Chooser<G>,
) -> Result<SplitOn, AllocError>
    requires decision { IsDecisionFor g.now note.now.decision }
    requires can { CanSplit g.now note.now }
    ensures { IfOk result (IsChoice g.now note.now kind) }
{
    if kind == SplitKind::Vertices {
        if let Some(v) = vertex_to_split(alloc, g, note, rule)? {
            return Ok(SplitOn::Vertex(v));
        }
    }
    let e = edge_to_split(alloc, g, note, rule)?;
    Ok(SplitOn::Edge(e))
}

// The vertex that the rule chooses among the undecided ones at which edges of a leaf's own network end; none where
// there is no such vertex. An `Err` is want of memory.
fn vertex_to_split<G: Rule>(
    alloc: Global,
    g: &NetGraph,
    note: &LeafNote,
    rule: &Chooser<G>,
) -> Result<Option<u32>, AllocError>
    requires decision { IsDecisionFor g.now note.now.decision }
    requires can { CanSplit g.now note.now }
    ensures some { IfOk result (λ found.
        IfSome found (λ v. IsChoice g.now note.now SplitKind.Vertices (SplitOn.Vertex v))) }
    ensures none { IfOk result (λ found.
        IfNone found (IfSome note.now.network (HasNoVertexToSplit g.now note.now.decision))) }
{
    let Some(network) = &note.network else {
        unreachable!()
    };
    let list = undecided_vertices(alloc, g, &note.decision, network)?;
    if list.is_empty() {
        return Ok(None);
    }
    let place = rule.choose(list.as_slice());
    Ok(Some(list[place].number))
}

// The edge that the rule chooses among the undecided edges of a leaf's own network. An `Err` is want of memory.
fn edge_to_split<G: Rule>(
    alloc: Global,
    g: &NetGraph,
    note: &LeafNote,
    rule: &Chooser<G>,
) -> Result<u32, AllocError>
    requires decision { IsDecisionFor g.now note.now.decision }
    requires can { CanSplit g.now note.now }
    ensures { IfOk result (λ e. IsChoice g.now note.now SplitKind.Edges (SplitOn.Edge e)) }
{
    let Some(network) = &note.network else {
        unreachable!()
    };
    let list = undecided_edges(alloc, g, &note.decision, network)?;
    let place = rule.choose(list.as_slice());
    Ok(list[place].number)
}

// The undecided vertices at which edges of a network end, in ascending number, each with the number of these edges. An
// `Err` is want of memory.
fn undecided_vertices(
    alloc: Global,
    g: &NetGraph,
    d: &Decision,
    network: &EdgeSet,
) -> Result<Vec<Candidate>, AllocError>
    requires decision { IsDecisionFor g.now d.now }
    requires size { length network.now ≡ length g.now.edges }
    ensures each { IfOk result (λ list. All (IsVertexCandidate g.now d.now network.now) list.items) }
    ensures every { IfOk result (λ list. list.items ≡ [] → HasNoVertexToSplit g.now d.now network.now) }
{
    let counts = edges_at_vertices(alloc, g, network)?;
    let mut list = Vec::new(alloc);
    for v in 0..g.vertex_count() {
        let size = counts[v as usize];
        if size > 0 && vertex_undecided(g, d, v) {
            list.push(Candidate {
                number: v,
                size: u64::from(size),
            })?;
        }
    }
    Ok(list)
}

// How many edges of a network end at each vertex. An `Err` is want of memory.
fn edges_at_vertices(alloc: Global, g: &NetGraph, network: &EdgeSet) -> Result<Vec<u32>, AllocError>
    requires { length network.now ≡ length g.now.edges }
    ensures size { IfOk result (λ counts. length counts.items ≡ g.now.vertices) }
    ensures counts { IfOk result (λ counts. (v : ℕ) → v < g.now.vertices →
        slice_index counts.items v ≡ edges_at g.now.edges network.now v) }
{
    let mut counts = vec![in alloc; 0; g.vertex_count() as usize]?;
    for e in 0..g.edge_count() {
        if network.has(e) {
            count_ends(counts.as_mut_slice(), g.edge(e));
        }
    }
    Ok(counts)
}

// Counts an edge at its ends.
fn count_ends(counts: &mut [u32], edge: Edge)
    requires a { edge.a < length counts.old }
    requires b { edge.b < length counts.old }
    requires few { (v : ℕ) → v < length counts.old → slice_index counts.old v < 4900 }
    ensures { (v : ℕ) → v < length counts.old →
        slice_index counts.new v ≡ slice_index counts.old v + end_count v edge }
{
    counts[edge.a as usize] += 1;
    if edge.b != edge.a {
        counts[edge.b as usize] += 1;
    }
}

// The undecided edges of a network in ascending number, each with its length. An `Err` is want of memory.
fn undecided_edges(
    alloc: Global,
    g: &NetGraph,
    d: &Decision,
    network: &EdgeSet,
) -> Result<Vec<Candidate>, AllocError>
    requires decision { IsDecisionFor g.now d.now }
    requires size { length network.now ≡ length g.now.edges }
    ensures each { IfOk result (λ list. All (IsEdgeCandidate g.now d.now network.now) list.items) }
    ensures every { IfOk result (λ list. list.items ≡ [] → HasNoEdgeToSplit g.now d.now network.now) }
{
    let mut list = Vec::new(alloc);
    for e in 0..g.edge_count() {
        if network.has(e) && d.state(g, e) == EdgeState::Undecided {
            list.push(Candidate {
                number: e,
                size: g.edge(e).length,
            })?;
        }
    }
    Ok(list)
}
