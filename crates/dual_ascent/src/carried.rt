//! Packings that are carried from one decision to the next.

ghost use Rattle.std.specs.Prelude.{◌≡◌, ◌*◌, ◌≤◌, ◌||◌, length, sum_by, IfOk};
ghost use Rattle.std.specs.List.{list_any};
ghost use Rattle.net_graph.specs.Decision.{IsDecisionFor, states_of};
ghost use Rattle.net_graph.specs.Packing.{IsFeasible};
ghost use Rattle.dual_ascent.specs.Ascending.{AreLeftBehind};
ghost use Rattle.dual_ascent.specs.Costs.{costs_of};
ghost use Rattle.dual_ascent.specs.Carried.{DecidesOneMore, carried, inside_edges, is_entered_along, unentered};

use crate::costs::ReducedCosts;
use crate::entering::list_entering;
use net_graph::{Cut, Decision, Edge, EdgeState, NetGraph, Packing, VertexSet, enters};
use std::alloc::{AllocError, Global};

/// The packing that a packing carries to a decision, which decides one more edge or vertex than the one under which it
/// is feasible: its cuts, in order, that no arc of an inside edge enters. Where more than two for each edge remain, it
/// is the empty packing. An `Err` is want of memory.
pub fn carry(
    alloc: Global,
    g: &NetGraph,
    before: &Decision,
    now: &Decision,
    parent: &Packing,
) -> Result<Packing, AllocError>
    requires decision { IsDecisionFor g.now now.now }
    requires one_more { DecidesOneMore g.now before.now now.now }
    requires feasible { IsFeasible g.now before.now parent.now }
    ensures carried { IfOk result (λ p. p ≡ carried g.now now.now parent.now) }
    ensures feasible { IfOk result (λ p. IsFeasible g.now now.now p) }
{
    let _ = before;
    let inside = list_inside(alloc, g, now)?;
    let kept = list_unentered(alloc, &inside, parent.cuts())?;
    if kept.len() <= 2 * g.edge_count() as usize {
        Ok(kept)
    } else {
        Ok(Packing::empty(alloc))
    }
}

/// What the carried packing leaves of the rooms under the further decision, from what the packing of which it is
/// carried leaves of them before: only the cuts that are lost are gone over. An `Err` is want of memory.
pub fn carry_costs(
    alloc: Global,
    g: &NetGraph,
    before: &Decision,
    now: &Decision,
    parent: &Packing,
    costs: &ReducedCosts,
    kept: &Packing,
) -> Result<ReducedCosts, AllocError>
    requires decided { IsDecisionFor g.now before.now }
    requires decision { IsDecisionFor g.now now.now }
    requires one_more { DecidesOneMore g.now before.now now.now }
    requires feasible { IsFeasible g.now before.now parent.now }
    requires costs { costs.now ≡ costs_of g.now.edges (states_of g.now before.now) parent.now }
    requires kept { kept.now ≡ carried g.now now.now parent.now }
    ensures { IfOk result (λ c. c ≡ costs_of g.now.edges (states_of g.now now.now) kept.now) }
{
    // None are carried where too many would be, too; the costs before help only where some are.
    if kept.len() == 0 {
        return ReducedCosts::of(alloc, g, now, kept);
    }
    let inside = list_inside(alloc, g, now)?;
    let left = without_entered(alloc, g, before, costs, parent.cuts(), &inside)?;
    left.costs.under(alloc, g, now)
}

/// What is told of a carried packing without its cuts.
#[derive(Drop)]
pub struct CarriedRooms {
    /// What it leaves of the rooms.
    pub costs: ReducedCosts,
    /// The sum of its weights.
    pub weight: u128,
}

/// What the packing that [`carry`] gives leaves of the rooms under the further decision, and its weight. No cut is
/// copied. An `Err` is want of memory.
pub fn carry_rooms(
    alloc: Global,
    g: &NetGraph,
    before: &Decision,
    now: &Decision,
    parent: &Packing,
    costs: &ReducedCosts,
) -> Result<CarriedRooms, AllocError>
    requires decided { IsDecisionFor g.now before.now }
    requires decision { IsDecisionFor g.now now.now }
    requires one_more { DecidesOneMore g.now before.now now.now }
    requires feasible { IsFeasible g.now before.now parent.now }
    requires few { length parent.now ≤ 2 * length g.now.edges }
    requires costs { costs.now ≡ costs_of g.now.edges (states_of g.now before.now) parent.now }
    ensures left { IfOk result (λ r. AreLeftBehind g.now now.now (carried g.now now.now parent.now) r.costs) }
    ensures weight { IfOk result (λ r. r.weight ≡ sum_by (λ c. c.weight) (carried g.now now.now parent.now)) }
{
    let inside = list_inside(alloc, g, now)?;
    let left = without_entered(alloc, g, before, costs, parent.cuts(), &inside)?;
    let costs = left.costs.under(alloc, g, now)?;
    Ok(CarriedRooms {
        costs,
        weight: left.weight,
    })
}

// What is left of the rooms once the cuts that an arc of one of these edges enters are taken back, and the weight of
// the others. An `Err` is want of memory.
fn without_entered(
    alloc: Global,
    g: &NetGraph,
    before: &Decision,
    costs: &ReducedCosts,
    cuts: &[Cut],
    edges: &[Edge],
) -> Result<CarriedRooms, AllocError>
    requires decided { IsDecisionFor g.now before.now }
    requires feasible { IsFeasible g.now before.now cuts.now }
    requires costs { costs.now ≡ costs_of g.now.edges (states_of g.now before.now) cuts.now }
    ensures costs { IfOk result
        (λ r. r.costs ≡ costs_of g.now.edges (states_of g.now before.now) (unentered edges.now cuts.now)) }
    ensures weight { IfOk result (λ r. r.weight ≡ sum_by (λ c. c.weight) (unentered edges.now cuts.now)) }
{
    let _ = before;
    // The lengths of all edges sum to less than 2^63, so that no sum wraps.
    let _ = g.edge_count();
    let mut left = costs.copy()?;
    let mut weight = 0;
    let mut entering = Vec::new(alloc);
    for cut in cuts {
        if is_entered(&cut.members, edges) {
            list_entering(g, &left, &cut.members, &mut entering)?;
            left.raise(cut, &entering);
        } else {
            weight += u128::from(cut.weight);
        }
    }
    Ok(CarriedRooms {
        costs: left,
        weight,
    })
}

// The inside edges. An `Err` is want of memory.
fn list_inside(alloc: Global, g: &NetGraph, d: &Decision) -> Result<Vec<Edge>, AllocError>
    requires { IsDecisionFor g.now d.now }
    ensures { IfOk result (λ list. list.items ≡ inside_edges g.now.edges d.now.edges) }
{
    let mut list = Vec::new(alloc);
    for n in 0..g.edge_count() {
        if let EdgeState::Inside = d.state(g, n) {
            list.push(g.edge(n))?;
        }
    }
    Ok(list)
}

// The cuts that no arc of one of these edges enters. An `Err` is want of memory.
fn list_unentered(alloc: Global, edges: &[Edge], cuts: &[Cut]) -> Result<Packing, AllocError>
    ensures { IfOk result (λ p. p ≡ unentered edges.now cuts.now) }
{
    let mut kept = Packing::empty(alloc);
    for cut in cuts {
        if !is_entered(&cut.members, edges) {
            kept.push(cut.copy()?)?;
        }
    }
    Ok(kept)
}

// Whether an arc of one of these edges enters the set.
fn is_entered(members: &VertexSet, edges: &[Edge]) -> bool
    ensures { result ≡ list_any (is_entered_along members.now) edges.now }
{
    for e in edges {
        if enters(members, e.a, e.b) || enters(members, e.b, e.a) {
            return true;
        }
    }
    false
}
