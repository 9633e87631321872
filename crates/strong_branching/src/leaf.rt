//! A leaf that is to be split, and what ascents in drawn orders make of its children.

ghost use Rattle.std.specs.Prelude.{◌≡◌, ◌<◌, length, IfOk, IfSome, IsTrue};
ghost use Rattle.net_graph.specs.Decision.{IsDecisionFor, IsUndecided};
ghost use Rattle.dual_ascent.specs.Carried.{DecidesOneMore};
ghost use Rattle.dual_ascent.specs.Choosing.{IsCallableOnSome, AnswersAPlace};
ghost use Rattle.branch.specs.Views.{IsViewIn};
ghost use Rattle.strong_branching.specs.Leaf.{IsLeafOf};

use crate::drawn_order::drawn_place;
use crate::relevant::relevant_arcs;
use branch::LeafView;
use dual_ascent::{Candidate, Chooser, ReducedCosts, Rule, ascend_with, carry, carry_costs};
use net_graph::{Decision, EdgeSet, EdgeState, NetGraph, Packing, value};
use std::alloc::{AllocError, Global};

// What a unit of a child's value is worth beside the wishes.
const UNIT: i64 = 1000;

/// A leaf that is to be split: a feasible packing under a decision, what it leaves of the rooms of all arcs, and its
/// own network.
#[derive(Drop)]
pub(crate) struct Leaf<'a> {
    pub graph: &'a NetGraph,
    pub decision: &'a Decision,
    pub packing: &'a Packing,
    pub costs: &'a ReducedCosts,
    /// The network of its saturated arcs.
    pub own: &'a EdgeSet,
    /// The value that closes a child.
    pub aim: u64,
}

// What an ascent makes of a child.
#[derive(Clone, Copy)]
struct Child {
    // Its value, at most the one that closes it.
    value: u64,
    // How many cuts of the leaf it drops.
    dropped: u32,
    // How many saturated arcs are relevant where it stays open.
    relevant: u32,
}

impl<'a> Leaf<'a> {
    /// The leaf of a graph's search that is seen.
    pub fn of(graph: &'a NetGraph, view: LeafView<'a>, aim: u64) -> Leaf<'a>
        requires { IsViewIn graph.now view }
        ensures leaf { IsLeafOf result }
        ensures graph { result.graph.now ≡ graph.now }
    {
        Leaf {
            graph,
            decision: view.decision,
            packing: view.packing,
            costs: view.costs,
            own: view.own,
            aim,
        }
    }
}

impl Leaf<'_> {
    /// How many of its saturated arcs are relevant. An `Err` is want of memory.
    pub fn relevant(&self, alloc: Global) -> Result<u32, AllocError>
        requires { IsLeafOf self.now }
    {
        relevant_arcs(alloc, self.graph, self.decision, self.costs)
    }

    /// Whether a number is that of an undecided edge of its own network.
    pub fn is_candidate(&self, edge: u32) -> bool
        requires { IsLeafOf self.now }
        ensures { IsTrue result → IsUndecided self.now.graph.now self.now.decision.now edge }
    {
        edge < self.own.len() && self.own.has(edge) && self.is_undecided(edge)
    }

    /// Whether a number is that of an undecided edge.
    pub fn is_undecided(&self, edge: u32) -> bool
        requires { IsLeafOf self.now }
        ensures { IsTrue result → IsUndecided self.now.graph.now self.now.decision.now edge }
    {
        edge < self.graph.edge_count()
            && self.decision.state(self.graph, edge) == EdgeState::Undecided
    }

    /// What a split on an edge is worth by ascents in the order of a seed, where so many of the leaf's saturated arcs
    /// are relevant, and whether it closes a child and brings the other one closer to its end. An `Err` is want of
    /// memory.
    pub fn worth(
        &self,
        alloc: Global,
        edge: u32,
        seed: u64,
        relevant: u32,
    ) -> Result<(i64, bool), AllocError>
        requires leaf { IsLeafOf self.now }
        requires edge { IsUndecided self.now.graph.now self.now.decision.now edge }
    {
        let outside = self.decision.with_outside(self.graph, edge)?;
        let outside = self.child(alloc, &outside, seed)?;
        let inside = self.decision.with_inside(self.graph, edge)?;
        let inside = self.child(alloc, &inside, seed)?;
        Ok(self.worth_of(outside, inside, relevant))
    }

    /// What the children of a split on an edge are worth by ascents in the order of a seed: five times the lesser value
    /// and once the greater one (Linderoth and Savelsbergh 1999). An `Err` is want of memory.
    pub fn worth_by_values(&self, alloc: Global, edge: u32, seed: u64) -> Result<u64, AllocError>
        requires leaf { IsLeafOf self.now }
        requires edge { IsUndecided self.now.graph.now self.now.decision.now edge }
    {
        let outside = self.decision.with_outside(self.graph, edge)?;
        let outside = self.child(alloc, &outside, seed)?.value;
        let inside = self.inside_value(alloc, edge, seed)?;
        let lesser = outside.min(inside);
        Ok(lesser.saturating_mul(5).saturating_add(outside.max(inside)))
    }

    /// What an ascent in the order of a seed makes of the inside child of an edge: its value, at most the one that
    /// closes it. An `Err` is want of memory.
    pub fn inside_value(&self, alloc: Global, edge: u32, seed: u64) -> Result<u64, AllocError>
        requires leaf { IsLeafOf self.now }
        requires edge { IsUndecided self.now.graph.now self.now.decision.now edge }
    {
        let inside = self.decision.with_inside(self.graph, edge)?;
        let child = self.child(alloc, &inside, seed)?;
        Ok(child.value)
    }

    // What an ascent in a drawn order makes of a child. An `Err` is want of memory.
    fn child(&self, alloc: Global, now: &Decision, seed: u64) -> Result<Child, AllocError>
        requires leaf { IsLeafOf self.now }
        requires now { IsDecisionFor self.now.graph.now now.now }
        requires one_more { DecidesOneMore self.now.graph.now self.now.decision.now now.now }
    {
        self.child_by(
            alloc,
            now,
            |list: &[Candidate]| -> usize
                requires { 0 < length list.now }
                ensures { result < length list.now }
            { drawn_place(seed, list) },
        )
    }

    // The same by any rule.
    fn child_by<F: Rule>(&self, alloc: Global, now: &Decision, rule: F) -> Result<Child, AllocError>
        requires leaf { IsLeafOf self.now }
        requires now { IsDecisionFor self.now.graph.now now.now }
        requires one_more { DecidesOneMore self.now.graph.now self.now.decision.now now.now }
        requires callable { IsCallableOnSome (F.may_choose rule) }
        requires place { AnswersAPlace (F.chooses rule) }
    {
        let graph = self.graph;
        let before = self.decision;
        let start = carry(alloc, graph, before, now, self.packing)?;
        let costs = carry_costs(alloc, graph, before, now, self.packing, self.costs, &start)?;
        let dropped = self.packing.len().saturating_sub(start.len());
        let dropped = u32::try_from(dropped).unwrap_or(u32::MAX);
        let ascent = ascend_with(alloc, graph, now, start, costs, &Chooser::new(rule))?;
        let edges = graph.edge_count();
        prove!(edges <= 4900);
        let worth = value(graph, now, &ascent.packing);
        if ascent.closed || worth >= u128::from(self.aim) {
            return Ok(Child {
                value: self.aim,
                dropped,
                relevant: 0,
            });
        }
        Ok(Child {
            value: u64::try_from(worth).unwrap_or(self.aim),
            dropped,
            relevant: relevant_arcs(alloc, graph, now, &ascent.costs)?,
        })
    }

    // What a split is worth, by both children: their values, and beside these of what stays open how much closer it is
    // to its end. Inside an edge, cuts that are dropped are packed anew; outside one, saturated arcs are to vanish that
    // lead from the root to required vertices.
    fn worth_of(&self, outside: Child, inside: Child, relevant: u32) -> (i64, bool) {
        let mut wish = 0i64;
        if inside.value < self.aim {
            let dropped = i64::from(inside.dropped.min(1000));
            wish = wish
                .wrapping_add(dropped.wrapping_mul(20))
                .wrapping_add(100);
        }
        let mut helps = true;
        if outside.value < self.aim {
            let vanished = relevant.saturating_sub(outside.relevant);
            helps = vanished > 0;
            let share = i64::from(vanished).wrapping_mul(500);
            let share = share.checked_div(i64::from(relevant)).unwrap_or(0);
            wish = wish.wrapping_add(if helps { share } else { -600 });
        }
        let closes = outside.value >= self.aim || inside.value >= self.aim;
        let values = outside.value.saturating_add(inside.value);
        let values = i64::try_from(values).unwrap_or(i64::MAX);
        (
            values.wrapping_mul(UNIT).wrapping_add(wish),
            closes && helps,
        )
    }
}
