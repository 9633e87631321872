//! What is made of a leaf that is split.

ghost use Rattle.std.specs.Prelude.{◌≡◌, ◌*◌, ◌≤◌, ◌↔◌, false, true, length, All, IfOk, IfSome, IsTrue};
ghost use Rattle.net_graph.specs.Decision.{IsDecisionFor, states_of};
ghost use Rattle.net_graph.specs.Packing.{IsFeasible};
ghost use Rattle.dual_ascent.specs.Ascending.{BeginsWith};
ghost use Rattle.dual_ascent.specs.Carried.{carried, DecidesOneMore};
ghost use Rattle.dual_ascent.specs.Costs.{costs_of};
ghost use Rattle.cert_tree.specs.Decisions.{IsUndecidedSplit, outside_of, inside_of};
ghost use Rattle.branch.specs.Leaves.{leaf_under};
ghost use Rattle.branch.specs.Notes.{IsNoteOf};
ghost use Rattle.branch.specs.Variants.{MayBeNone, MayBeginAnew};

use crate::best::Best;
use crate::leaf::{NewLeaf, leaf_from};
use crate::note::LeafNote;
use cert_tree::SplitOn;
use dual_ascent::{Chooser, ReducedCosts, Rule, carry, carry_costs};
use net_graph::{Decision, NetGraph, Packing, feasible, total_weight};
use std::alloc::{AllocError, Global};

/// What is made of a leaf, given by its place in preorder: what it is split on, two new leaves, and the best
/// network with theirs looked at.
#[derive(Drop)]
pub(crate) struct Opening {
    pub leaf: u32,
    pub on: SplitOn,
    pub outside: NewLeaf,
    pub inside: NewLeaf,
    pub best: Best,
}

/// The decision outside a split. An `Err` is want of memory.
pub(crate) fn decided_outside(
    g: &NetGraph,
    before: &Decision,
    on: SplitOn,
) -> Result<Decision, AllocError>
    requires decision { IsDecisionFor g.now before.now }
    requires undecided { IsUndecidedSplit g.now before.now on }
    ensures value { IfOk result (λ d. d ≡ outside_of before.now on) }
    ensures decision { IfOk result (λ d. IsDecisionFor g.now d) }
{
    match on {
        SplitOn::Edge(e) => before.with_outside(g, e),
        SplitOn::Vertex(v) => before.with_missed(g, v),
    }
}

/// The decision inside a split. An `Err` is want of memory.
pub(crate) fn decided_inside(
    g: &NetGraph,
    before: &Decision,
    on: SplitOn,
) -> Result<Decision, AllocError>
    requires decision { IsDecisionFor g.now before.now }
    requires undecided { IsUndecidedSplit g.now before.now on }
    ensures value { IfOk result (λ d. d ≡ inside_of before.now on) }
    ensures decision { IfOk result (λ d. IsDecisionFor g.now d) }
{
    match on {
        SplitOn::Edge(e) => before.with_inside(g, e),
        SplitOn::Vertex(v) => before.with_met(g, v),
    }
}

/// The leaf of a further decision: the ascent that begins with what a leaf's packing carries there; or, where a packing
/// is offered and the child's may begin with no cut, the better one of this ascent and of the one that begins with the
/// offered packing, if that is feasible and has few cuts. An `Err` is want of memory.
pub(crate) fn child_of<F: Rule>(
    alloc: Global,
    g: &NetGraph,
    note: &LeafNote,
    parent: &Packing,
    now: Decision,
    offered: Option<Packing>,
    rule: &Chooser<F>,
) -> Result<NewLeaf, AllocError>
    requires before { IsDecisionFor g.now note.now.decision }
    requires now { IsDecisionFor g.now now }
    requires one_more { DecidesOneMore g.now note.now.decision now }
    requires feasible { IsFeasible g.now note.now.decision parent.now }
    requires costs { note.now.costs ≡ costs_of g.now.edges (states_of g.now note.now.decision) parent.now }
    requires sizes { IfSome offered (All (λ c. length c.members ≡ g.now.vertices)) }
    ensures begins { IfOk result
        (λ leaf. leaf.note.is_anew ≡ false → BeginsWith leaf.packing (carried g.now now parent.now)) }
    ensures anew { IfOk result (λ leaf.
        IsTrue leaf.note.is_anew ↔ MayBeginAnew g.now note.now.is_anew offered (carried g.now now parent.now)) }
    ensures note { IfOk result (λ leaf. IsNoteOf g.now (leaf_under now leaf.packing) leaf.note) }
{
    let before = &note.decision;
    let start = carry(alloc, g, before, &now, parent)?;
    let costs = carry_costs(alloc, g, before, &now, parent, &note.costs, &start)?;
    match offered {
        Some(offered) if may_begin_anew(g, note, &start) => {
            let carried = leaf_from(alloc, g, now.copy()?, start, costs, rule, true)?;
            better_of(alloc, g, carried, now, offered, rule)
        }
        _ => leaf_from(alloc, g, now, start, costs, rule, false),
    }
}

// Whether a child's packing may begin with no cut, by what a leaf carries there: where that is none; and where the leaf
// began with none itself and stood, with the same loads, in cuts of weight 1, so that more than twice as many cuts as
// there are edges would be carried, and then none are.
fn may_begin_anew(g: &NetGraph, note: &LeafNote, start: &Packing) -> bool
    ensures { IsTrue result ↔ MayBeNone g.now note.now.is_anew start.now }
{
    let twice = 2 * u128::from(g.edge_count());
    start.len() == 0 || (note.is_anew && total_weight(start.cuts()) > twice)
}

// The better one of a leaf and of the ascent that begins with an offered packing, if that is feasible and has few cuts;
// the leaf on a tie. An `Err` is want of memory.
fn better_of<F: Rule>(
    alloc: Global,
    g: &NetGraph,
    leaf: NewLeaf,
    now: Decision,
    offered: Packing,
    rule: &Chooser<F>,
) -> Result<NewLeaf, AllocError>
    requires decision { IsDecisionFor g.now now }
    requires leaf { IsNoteOf g.now (leaf_under now leaf.packing) leaf.note }
    requires anew { leaf.note.is_anew ≡ true }
    requires sizes { All (λ c. length c.members ≡ g.now.vertices) offered }
    ensures note { IfOk result (λ better. IsNoteOf g.now (leaf_under now better.packing) better.note) }
    ensures anew { IfOk result (λ better. better.note.is_anew ≡ true) }
{
    if offered.len() > 2 * g.edge_count() as usize || !feasible(g, &now, &offered) {
        return Ok(leaf);
    }
    let costs = ReducedCosts::of(alloc, g, &now, &offered)?;
    let other = leaf_from(alloc, g, now, offered, costs, rule, true)?;
    Ok(if leaf.note.value < other.note.value {
        other
    } else {
        leaf
    })
}
