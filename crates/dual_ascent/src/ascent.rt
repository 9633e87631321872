//! Dual ascent, which packs cuts until saturated arcs lead to every required vertex.

ghost use Rattle.std.specs.Prelude.{◌≡◌, ◌+◌, ◌*◌, ◌<◌, ◌≤◌, ◌++◌, Bool, true, false, List, length, All, IfOk};
ghost use Rattle.std.specs.List.Sorted.{IsStrictlyIncreasing};
ghost use Rattle.net_graph.specs.declared.packing.Cut.{Cut};
ghost use Rattle.net_graph.specs.Graph.{total_of};
ghost use Rattle.net_graph.specs.Decision.{IsDecisionFor, IsLowerBoundUnder, states_of};
ghost use Rattle.net_graph.specs.Packing.{IsFeasible, packing_value};
ghost use Rattle.net_graph.specs.Saturation.{IsMaximal};
ghost use Rattle.dual_ascent.specs.Ascending.{AreLeftBehind, BeginsWith, IsAscent, IsClosingCut, behind, closed_with};
ghost use Rattle.dual_ascent.specs.Costs.{costs_of, edges_of};
ghost use Rattle.dual_ascent.specs.Steps.{AreRequired};

use crate::chooser::{Chooser, Rule};
use crate::costs::ReducedCosts;
use crate::required::required_vertices;
use crate::state::AscentState;
use crate::step::Step;
use duality::weak_duality;
use net_graph::{Cut, Decision, NetGraph, Packing, VertexSet};
use std::alloc::{AllocError, Global};

/// What an ascent comes to.
#[derive(Drop)]
pub struct Ascent {
    /// The packing that the ascent began with, and the cuts that it added.
    pub packing: Packing,
    /// Whether the ascent ended at a set that only arcs of outside edges enter. Its last cut is then that set, with
    /// the sum of all edge lengths as its weight, if this isn't 0.
    pub closed: bool,
    /// What the packing leaves of the room of all arcs, where the ascent is not closed.
    pub costs: ReducedCosts,
}

/// Adds cuts to a packing by dual ascent (Wong 1984), at each step that of the candidate which the rule chooses. The
/// candidates are the required vertices to which saturated arcs don't lead from the root, in ascending number. A
/// candidate's size is the number of the vertices from which saturated arcs lead to it, itself counted, and its cut is
/// the set of these vertices. The cut's weight is the least that is left of the room of an arc that enters it. An `Err`
/// is want of memory.
pub fn ascend<F: Rule>(
    alloc: Global,
    g: &NetGraph,
    d: &Decision,
    start: Packing,
    chooser: &Chooser<F>,
) -> Result<Ascent, AllocError>
    requires decision { IsDecisionFor g.now d.now }
    requires feasible { IsFeasible g.now d.now start }
    requires few { length start ≤ 2 * length g.now.edges }
    ensures feasible { IfOk result (λ a. IsFeasible g.now d.now a.packing) }
    ensures begins { IfOk result (λ a. BeginsWith a.packing start) }
    ensures few { IfOk result (λ a. length a.packing ≤ 4 * length g.now.edges + 1) }
    ensures maximal { IfOk result (λ a. a.closed ≡ false → IsMaximal g.now d.now a.packing) }
    ensures costs { IfOk result (λ a. a.closed ≡ false
        → a.costs ≡ costs_of g.now.edges (states_of g.now d.now) a.packing) }
    ensures closed { IfOk result (λ a. a.closed ≡ true → total_of g.now ≤ packing_value g.now d.now a.packing) }
    // It closes only where there is a cut that only arcs of free edges enter.
    ensures closing { IfOk result (λ a. a.closed ≡ true
        → (members : List Bool) × IsClosingCut g.now d.now members) }
    // No network that agrees with the decision is shorter than the packing's value.
    ensures bound { IfOk result
        (λ a. IsLowerBoundUnder g.now d.now (packing_value g.now d.now a.packing)) }
{
    let costs = ReducedCosts::of(alloc, g, d, &start)?;
    ascend_with(alloc, g, d, start, costs, chooser)
}

/// The ascent that [`ascend`] makes, where it is known what the packing leaves of the rooms. An `Err` is want of
/// memory.
pub fn ascend_with<F: Rule>(
    alloc: Global,
    g: &NetGraph,
    d: &Decision,
    start: Packing,
    costs: ReducedCosts,
    chooser: &Chooser<F>,
) -> Result<Ascent, AllocError>
    requires decision { IsDecisionFor g.now d.now }
    requires feasible { IsFeasible g.now d.now start }
    requires few { length start ≤ 2 * length g.now.edges }
    requires costs { costs ≡ costs_of g.now.edges (states_of g.now d.now) start }
    ensures { IfOk result (IsAscent g.now d.now start) }
{
    let required = required_vertices(alloc, g, d)?;
    ascend_on(alloc, g, d, &required, start, costs, chooser)
}

/// The ascent that [`ascend`] makes behind a packing of which only the last cuts are given, beside what it leaves of
/// the rooms: its packing lacks the others. The required vertices are listed. An `Err` is want of memory.
pub fn ascend_on<F: Rule>(
    alloc: Global,
    g: &NetGraph,
    d: &Decision,
    required: &[u32],
    last: Packing,
    costs: ReducedCosts,
    chooser: &Chooser<F>,
) -> Result<Ascent, AllocError>
    requires decision { IsDecisionFor g.now d.now }
    requires required { AreRequired g.now d.now required.now }
    requires below { All (λ v. v < g.now.vertices) required.now }
    requires ascending { IsStrictlyIncreasing required.now }
    requires edges { edges_of costs ≡ g.now.edges }
    // Whatever cuts the packing began with.
    ensures { IfOk result (λ a. (first : List Cut) → AreLeftBehind g.now d.now (first ++ last) costs
        → IsAscent g.now d.now (first ++ last) (behind first a)) }
{
    let _ = d;
    weak_duality();
    let mut state = AscentState::of(alloc, g, required, costs)?;
    let mut packing = last;
    loop {
        match state.next_step(g, chooser)? {
            Step::Done => return Ok(Ascent {
                packing,
                closed: false,
                costs: state.costs,
            }),
            Step::Pack(cut) => packing.push(cut)?,
            Step::Close(members) => return close(g, packing, members, state.costs),
        }
    }
}

// The ascent that ends at a set which only arcs of outside edges enter. An `Err` is want of memory.
fn close(
    g: &NetGraph,
    mut packing: Packing,
    members: VertexSet,
    costs: ReducedCosts,
) -> Result<Ascent, AllocError>
    ensures { IfOk result (λ a. (a.packing ≡ closed_with g.now members packing) × (a.closed ≡ true)) }
{
    let weight = g.total();
    if weight > 0 {
        packing.push(Cut { weight, members })?;
    }
    Ok(Ascent {
        packing,
        closed: true,
        costs,
    })
}
