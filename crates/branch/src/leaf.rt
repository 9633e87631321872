//! Leaves that an ascent makes.

ghost use Rattle.std.specs.Prelude.{◌≡◌, ◌*◌, ◌≤◌, length, IfOk};
ghost use Rattle.net_graph.specs.Decision.{IsDecisionFor, nothing_decided, states_of};
ghost use Rattle.net_graph.specs.Packing.{IsFeasible};
ghost use Rattle.dual_ascent.specs.Ascending.{BeginsWith};
ghost use Rattle.dual_ascent.specs.Costs.{costs_of};
ghost use Rattle.branch.specs.Leaves.{leaf_under};
ghost use Rattle.branch.specs.Notes.{IsNoteOf};

use crate::note::LeafNote;
use crate::saturated::saturated_network_by;
use dual_ascent::{Chooser, ReducedCosts, Rule, ascend_with};
use net_graph::{Decision, NetGraph, Packing, value};
use std::alloc::{AllocError, Global};

/// A leaf for the tree: its packing, and what is kept beside it.
#[derive(Drop)]
pub(crate) struct NewLeaf {
    pub packing: Packing,
    pub note: LeafNote,
}

/// The leaf of the ascent that begins with these cuts, where nothing is decided. An `Err` is want of memory.
pub(crate) fn first_leaf<F: Rule>(
    alloc: Global,
    g: &NetGraph,
    start: Packing,
    rule: &Chooser<F>,
) -> Result<NewLeaf, AllocError>
    requires feasible { IsFeasible g.now (nothing_decided g.now) start }
    requires few { length start ≤ 2 * length g.now.edges }
    ensures begins { IfOk result (λ leaf. BeginsWith leaf.packing start) }
    ensures note { IfOk result
        (λ leaf. IsNoteOf g.now (leaf_under (nothing_decided g.now) leaf.packing) leaf.note) }
{
    let decision = Decision::none(alloc, g)?;
    let costs = ReducedCosts::of(alloc, g, &decision, &start)?;
    leaf_from(alloc, g, decision, start, costs, rule, true)
}

/// The leaf of the ascent that begins with these cuts, under a decision, where they leave this of the rooms of all
/// arcs, and whether it began with no cut of another leaf. An `Err` is want of memory.
pub(crate) fn leaf_from<F: Rule>(
    alloc: Global,
    g: &NetGraph,
    decision: Decision,
    start: Packing,
    costs: ReducedCosts,
    rule: &Chooser<F>,
    is_anew: bool,
) -> Result<NewLeaf, AllocError>
    requires decision { IsDecisionFor g.now decision }
    requires feasible { IsFeasible g.now decision start }
    requires few { length start ≤ 2 * length g.now.edges }
    requires costs { costs ≡ costs_of g.now.edges (states_of g.now decision) start }
    ensures begins { IfOk result (λ leaf. BeginsWith leaf.packing start) }
    ensures note { IfOk result (λ leaf. IsNoteOf g.now (leaf_under decision leaf.packing) leaf.note) }
    ensures anew { IfOk result (λ leaf. leaf.note.is_anew ≡ is_anew) }
{
    let edges = g.edge_count();
    prove!(edges <= 4900);
    let ascent = ascend_with(alloc, g, &decision, start, costs, rule)?;
    let network = if ascent.closed {
        None
    } else {
        Some(saturated_network_by(alloc, g, &decision, &ascent.packing, &ascent.costs)?)
    };
    let value = value(g, &decision, &ascent.packing);
    Ok(NewLeaf {
        packing: ascent.packing,
        note: LeafNote {
            decision,
            value,
            network,
            costs: ascent.costs,
            is_anew,
        },
    })
}
