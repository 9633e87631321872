//! What packed cuts leave of the room of a graph's arcs.

ghost use Rattle.std.specs.Prelude.{ℕ, ◌≡◌, ◌≢◌, ◌+◌, ◌*◌, ◌^◌, ◌<◌, [], length, map, All, IfOk};
ghost use Rattle.std.specs.List.{zip};
ghost use Rattle.net_graph.specs.Decision.{IsDecisionFor, states_of};
ghost use Rattle.dual_ascent.specs.Costs.{left_of, costs_of, cost_of, with_cost, edges_of, left_in, lowered_by, raised_by, is_saturated, lesser_of};
ghost use Rattle.dual_ascent.specs.Entering.{AreEntering};

use crate::entering::{EnteringArc, list_entering};
use net_graph::{Cut, Decision, Edge, EdgeState, NetGraph, Packing, Passage};
use std::alloc::{AllocError, Global};
use std::marker::Model;

/// What is left of the room of an edge's two arcs, which are their reduced costs. `None` is left of an arc that can't
/// be saturated: its edge is outside, or it is loaded above its room.
#[derive(Clone, Copy)]
pub(crate) struct EdgeCosts {
    pub edge: Edge,
    /// What is left of the arc from the edge's end a to its end b.
    pub there: Option<u64>,
    /// What is left of the arc from b to a.
    pub back: Option<u64>,
}

impl EdgeCosts {
    /// The room of an edge in this state, with no cut packed.
    fn whole(edge: Edge, state: EdgeState) -> EdgeCosts
        ensures { result ≡ left_of edge state [] }
    {
        let room = match state {
            EdgeState::Undecided => Some(edge.length),
            EdgeState::Inside => Some(0),
            EdgeState::Outside => None,
        };
        EdgeCosts {
            edge,
            there: room,
            back: room,
        }
    }

    // What is left of its arcs in a state: of an undecided edge what was left, else the whole room.
    fn left_in(self, state: EdgeState) -> EdgeCosts
        ensures { result ≡ left_in self state }
    {
        match state {
            EdgeState::Undecided => self,
            EdgeState::Inside | EdgeState::Outside => EdgeCosts::whole(self.edge, state),
        }
    }

    // With this left of the arc of a number.
    fn with_cost(self, arc: u32, cost: Option<u64>) -> EdgeCosts
        ensures { result ≡ with_cost self arc cost }
    {
        let mut costs = self;
        if arc % 2 == 0 {
            costs.there = cost;
        } else {
            costs.back = cost;
        }
        costs
    }
}

/// The lesser of two amounts, of which either may be missing.
pub(crate) fn lesser(one: Option<u64>, other: Option<u64>) -> Option<u64>
    ensures { result ≡ lesser_of one other }
{
    match (one, other) {
        (Some(m), Some(n)) => Some(m.min(n)),
        (None, rest) => rest,
        (rest, None) => rest,
    }
}

// The room of each edge, with no cut packed.
fn whole_costs(
    alloc: Global,
    edges: &[Edge],
    states: &[EdgeState],
) -> Result<Vec<EdgeCosts>, AllocError>
    ensures { IfOk result (λ costs. costs.items ≡ map (λ pair. left_of pair.0 pair.1 []) (zip edges.now states.now)) }
{
    edges
        .iter()
        .zip(states)
        .map(|(edge, state)| EdgeCosts::whole(*edge, *state))
        .collect(alloc)
}

/// What packed cuts leave of the room of all arcs, which are the arcs' reduced costs (after Wong 1984). As a passage
/// it opens the saturated arcs, of which nothing is left. Contracts see it by edges.
#[derive(Drop)]
pub struct ReducedCosts {
    edges: Vec<EdgeCosts>,
}

impl Model for ReducedCosts {
    ghost use Rattle.std.specs.Prelude.{List};
    ghost use Rattle.dual_ascent.specs.declared.costs.EdgeCosts.{EdgeCosts};

    ghost Value = { List EdgeCosts };

    ghost view = { λ costs. costs.edges.items };
}

impl ReducedCosts {
    // The rooms of the graph's arcs, with no cut packed. An `Err` is want of memory.
    fn whole(alloc: Global, g: &NetGraph, d: &Decision) -> Result<ReducedCosts, AllocError>
        requires { IsDecisionFor g.now d.now }
        ensures { IfOk result (λ costs. costs ≡ costs_of g.now.edges (states_of g.now d.now) []) }
    {
        let states = d.states(alloc, g)?;
        let edges = whole_costs(alloc, g.edges(), &states)?;
        Ok(ReducedCosts { edges })
    }

    /// What the cuts of a packing leave of the rooms of the graph's arcs. An `Err` is want of memory.
    pub fn of(
        alloc: Global,
        g: &NetGraph,
        d: &Decision,
        packing: &Packing,
    ) -> Result<ReducedCosts, AllocError>
        requires { IsDecisionFor g.now d.now }
        ensures { IfOk result (λ costs. costs ≡ costs_of g.now.edges (states_of g.now d.now) packing.now) }
    {
        let mut costs = ReducedCosts::whole(alloc, g, d)?;
        let mut entering = Vec::new(alloc);
        for cut in packing.cuts() {
            list_entering(g, &costs, &cut.members, &mut entering)?;
            costs.lower(cut, &entering);
        }
        Ok(costs)
    }

    /// The same under a decision: what was left of the arcs of undecided edges, and the whole room of others. An `Err`
    /// is want of memory.
    pub(crate) fn under(
        &self,
        alloc: Global,
        g: &NetGraph,
        d: &Decision,
    ) -> Result<ReducedCosts, AllocError>
        requires { IsDecisionFor g.now d.now }
        ensures { IfOk result
            (λ costs. costs ≡ map (λ pair. left_in pair.0 pair.1) (zip self.now (states_of g.now d.now))) }
    {
        let states = d.states(alloc, g)?;
        let edges = self
            .edges
            .iter()
            .zip(states.as_slice())
            .map(|(costs, state)| costs.left_in(*state))
            .collect(alloc)?;
        Ok(ReducedCosts { edges })
    }

    /// The same amounts once more. An `Err` is want of memory.
    pub(crate) fn copy(&self) -> Result<ReducedCosts, AllocError>
        ensures { IfOk result (λ costs. costs ≡ self.now) }
    {
        let edges = self.edges.clone()?;
        Ok(ReducedCosts { edges })
    }

    /// What is left of the arc of a number.
    pub(crate) fn cost(&self, arc: u32) -> Option<u64>
        requires { arc < 2 * length self.now }
        ensures { result ≡ cost_of self.now arc }
    {
        let costs = self.edges[(arc / 2) as usize];
        if arc % 2 == 0 {
            costs.there
        } else {
            costs.back
        }
    }

    // Leaves this of the arc of a number.
    fn set_cost(&mut self, arc: u32, cost: Option<u64>)
        requires { arc < 2 * length self.old }
        ensures edges { edges_of self.new ≡ edges_of self.old }
        ensures changed { cost_of self.new arc ≡ cost }
        ensures others { (other : ℕ) → other ≢ arc → cost_of self.new other ≡ cost_of self.old other }
    {
        let place = (arc / 2) as usize;
        self.edges[place] = self.edges[place].with_cost(arc, cost);
    }

    /// Packs one more cut, which these arcs enter.
    pub(crate) fn lower(&mut self, cut: &Cut, entering: &[EnteringArc])
        requires { AreEntering self.old cut.now.members entering.now }
        ensures { self.new ≡ map (lowered_by cut.now) self.old }
    {
        for e in entering {
            self.set_cost(e.arc.number, e.left.checked_sub(cut.weight));
        }
    }

    /// Takes back a packed cut, which these arcs enter.
    pub(crate) fn raise(&mut self, cut: &Cut, entering: &[EnteringArc])
        requires entering { AreEntering self.old cut.now.members entering.now }
        requires fits { All (λ e. e.left + cut.now.weight < 2 ^ 64) entering.now }
        ensures { self.new ≡ map (raised_by cut.now) self.old }
    {
        for e in entering {
            self.set_cost(e.arc.number, Some(e.left + cut.weight));
        }
    }
}

/// The saturated arcs may be walked.
impl Passage for ReducedCosts {
    ghost opens = { is_saturated };

    ghost edges = { λ costs. length costs };

    fn is_open(&self, arc: u32) -> bool {
        self.cost(arc) == Some(0)
    }
}
