//! What an ascent keeps from step to step.

ghost use Rattle.std.specs.Prelude.{ℕ, List, ◌≡◌, ◌<◌, length, map, All, Contains, IfOk, OnOk};
ghost use Rattle.std.specs.List.Sorted.{IsStrictlyIncreasing};
ghost use Rattle.dual_ascent.specs.Active.{AreActive};
ghost use Rattle.dual_ascent.specs.Costs.{edges_of, lowered_by};
ghost use Rattle.dual_ascent.specs.Entering.{AreEntering};
ghost use Rattle.dual_ascent.specs.Steps.{IsNextCut, IsNextStep, IsLoweredBy};

use crate::active::{ActiveVertex, active_vertices, grow_all, leave_reached_out, list_candidates};
use crate::candidate::Candidate;
use crate::chooser::{Chooser, Rule};
use crate::costs::ReducedCosts;
use crate::entering::{EnteringArc, least_left, list_entering, list_with_left};
use crate::step::Step;
use net_graph::{Arc, Cut, NetGraph};
use std::alloc::{AllocError, Global};

/// What is left of the arcs' rooms and the active vertices, both brought up to date after each step. The lists are
/// filled anew in each step; they are kept so that a step takes no memory but for its cut.
#[derive(Drop)]
pub(crate) struct AscentState {
    pub costs: ReducedCosts,
    pub active: Vec<ActiveVertex>,
    candidates: Vec<Candidate>,
    entering: Vec<EnteringArc>,
    saturated: Vec<Arc>,
}

impl AscentState {
    /// The state with these costs, where these vertices are required. An `Err` is want of memory.
    pub fn of(
        alloc: Global,
        g: &NetGraph,
        required: &[u32],
        costs: ReducedCosts,
    ) -> Result<AscentState, AllocError>
        requires edges { edges_of costs ≡ g.now.edges }
        requires below { All (λ v. v < g.now.vertices) required.now }
        requires ascending { IsStrictlyIncreasing required.now }
        ensures costs { IfOk result (λ s. s.costs ≡ costs) }
        ensures active { IfOk result (λ s. AreActive g.now required.now s.costs s.active.items) }
    {
        let active = active_vertices(alloc, g, required, &costs)?;
        Ok(AscentState {
            costs,
            active,
            candidates: Vec::new(alloc),
            entering: Vec::new(alloc),
            saturated: Vec::new(alloc),
        })
    }

    /// The next step, at the candidate that the rule chooses; the state is then the one after it. An `Err` is want of
    /// memory.
    pub fn next_step<F: Rule>(
        &mut self,
        g: &NetGraph,
        chooser: &Chooser<F>,
    ) -> Result<Step, AllocError>
        requires edges { edges_of self.old.costs ≡ g.now.edges }
        requires active { (vertices : List ℕ) × AreActive g.now vertices self.old.costs self.old.active.items }
        ensures next { IfOk result (λ step. (vertices : List ℕ) →
            AreActive g.now vertices self.old.costs self.old.active.items →
            IsNextStep g.now vertices self.old.costs step) }
        ensures costs { IfOk result (λ step. IsLoweredBy step self.old.costs self.new.costs) }
        ensures active { OnOk result ((vertices : List ℕ) →
            AreActive g.now vertices self.old.costs self.old.active.items →
            AreActive g.now vertices self.new.costs self.new.active.items) }
    {
        list_candidates(&self.active, &mut self.candidates)?;
        if self.candidates.is_empty() {
            return Ok(Step::Done);
        }
        let place = chooser.choose(&self.candidates);
        let members = self.active[place].leading.set().copy()?;
        list_entering(g, &self.costs, &members, &mut self.entering)?;
        match least_left(&self.entering) {
            Some(weight) => {
                let cut = Cut { weight, members };
                self.pack(g, &cut)?;
                Ok(Step::Pack(cut))
            }
            None => Ok(Step::Close(members)),
        }
    }

    // Packs one more cut, which the listed arcs enter. An `Err` is want of memory.
    fn pack(&mut self, g: &NetGraph, cut: &Cut) -> Result<(), AllocError>
        requires edges { edges_of self.old.costs ≡ g.now.edges }
        requires entering { AreEntering self.old.costs cut.now.members self.old.entering.items }
        requires next { (vertices : List ℕ) × AreActive g.now vertices self.old.costs self.old.active.items
            × IsNextCut g.now vertices self.old.costs cut.now }
        ensures costs { OnOk result (self.new.costs ≡ map (lowered_by cut.now) self.old.costs) }
        ensures active { OnOk result ((vertices : List ℕ) →
            AreActive g.now vertices self.old.costs self.old.active.items →
            AreActive g.now vertices self.new.costs self.new.active.items) }
    {
        let root = g.root();
        list_with_left(&self.entering, cut.weight, &mut self.saturated)?;
        self.costs.lower(cut, &self.entering);
        grow_all(g, &mut self.active, &self.saturated, &self.costs);
        leave_reached_out(&mut self.active, root);
        Ok(())
    }
}
