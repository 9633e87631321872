//! Splits along a least cut of the saturated ways from the root to a required vertex: once all of its edges are left
//! out, more can be packed.

ghost use Rattle.std.specs.Prelude.{◌≡◌, length};
ghost use Rattle.net_graph.specs.Decision.{IsDecisionFor};
ghost use Rattle.branch.specs.Views.{IsViewIn};
ghost use Rattle.strong_branching.specs.Leaf.{IsLeafOf};

use crate::choice::Choice;
use crate::draws::Draws;
use crate::flow::Flow;
use crate::leaf::Leaf;
use crate::relevant::required_ends;
use branch::LeafView;
use cut_groups::{at, set};
use dual_ascent::ReducedCosts;
use net_graph::{Decision, EdgeState, NetGraph, Passage};
use std::alloc::{AllocError, Global};

// So many orders are drawn at most for the ascents of an edge's inside child.
const ORDERS: u8 = 2;

// So many splits a unit is taken for that an inside child is short of its end.
const SPLITS_A_UNIT: u64 = 8;

// What no cut has room for.
const UNLIMITED: u32 = 1_000_000;

// What an edge's inside child comes to, as ascents bounded it.
#[derive(Clone, Copy)]
struct Inside {
    // About how many splits it takes to leave the edge out and to close this child.
    splits: u32,
    // The seed of the order of the best ascent.
    seed: u64,
}

/// The cut along which a chain of splits goes, and what is known of edges from the leaves before.
#[derive(Drop)]
pub struct CutPlan {
    insides: Vec<Option<Inside>>,
    edges: Vec<u32>,
    // The required vertex that the cut parts from the root.
    vertex: u32,
    flow: Flow,
}

impl CutPlan {
    /// No cut yet, in a graph. An `Err` is want of memory.
    pub fn none(alloc: Global, graph: &NetGraph) -> Result<CutPlan, AllocError> {
        Ok(CutPlan {
            insides: vec![in alloc; None; graph.edge_count() as usize]?,
            edges: Vec::new(alloc),
            vertex: 0,
            flow: Flow::none(alloc, graph)?,
        })
    }

    /// An edge of a leaf's own network that lies on a cut: on the one of the leaf before as long as that parts a
    /// required vertex from the root, and else on one along which the fewest splits seem to be needed. `None` where
    /// these are more than so many. An `Err` is want of memory.
    pub fn next(
        &mut self,
        alloc: Global,
        graph: &NetGraph,
        view: LeafView<'_>,
        aim: u64,
        most: u8,
        draws: &mut Draws,
    ) -> Result<Option<Choice>, AllocError>
        requires { IsViewIn graph.now view }
    {
        let leaf = Leaf::of(graph, view, aim);
        if !self.parts(alloc, &leaf)? && !self.make(alloc, &leaf, most, draws)? {
            return Ok(None);
        }
        Ok(self.edge_of(&leaf, draws))
    }

    // Whether the cut parts its vertex from the root under a leaf. An `Err` is want of memory.
    fn parts(&mut self, alloc: Global, leaf: &Leaf<'_>) -> Result<bool, AllocError>
        requires { IsLeafOf leaf.now }
    {
        if self.edges.is_empty() {
            return Ok(false);
        }
        let mut rooms = self.rooms(alloc, leaf)?;
        for edge in &self.edges {
            if leaf.is_undecided(*edge) {
                set(&mut rooms, edge.wrapping_mul(2), 0);
                set(&mut rooms, edge.wrapping_mul(2).wrapping_add(1), 0);
            }
        }
        let leads = self.flow.leads(leaf.graph, &rooms, self.vertex)?;
        Ok(!leads)
    }

    // Makes a cut for a leaf of which each edge was bounded; whether there is one along which at most so many splits
    // seem to be needed. An `Err` is want of memory.
    fn make(
        &mut self,
        alloc: Global,
        leaf: &Leaf<'_>,
        most: u8,
        draws: &mut Draws,
    ) -> Result<bool, AllocError>
        requires { IsLeafOf leaf.now }
    {
        for _ in 0..leaf.graph.edge_count() {
            if draws.is_spent() || !self.take_least(alloc, leaf, most, draws)? {
                return Ok(false);
            }
            if !self.bound_edges(alloc, leaf, draws)? {
                return Ok(true);
            }
        }
        Ok(false)
    }

    // Takes the least of the cuts that part a required vertex from the root, where an edge that wasn't bounded takes
    // one split; whether there is one of at most so many splits. An `Err` is want of memory.
    fn take_least(
        &mut self,
        alloc: Global,
        leaf: &Leaf<'_>,
        most: u8,
        draws: &mut Draws,
    ) -> Result<bool, AllocError>
        requires { IsLeafOf leaf.now }
    {
        let graph = leaf.graph;
        let rooms = self.rooms(alloc, leaf)?;
        let mut limit = u32::from(most).wrapping_add(1);
        let mut found = false;
        for vertex in &required_ends(alloc, graph, leaf.decision)? {
            if let Some(splits) = self.flow.fill(graph, &rooms, *vertex, limit, draws)? {
                limit = splits;
                found = true;
                self.vertex = *vertex;
                self.edges = self.flow.cut(alloc, graph, &rooms)?;
            }
        }
        Ok(found)
    }

    // Bounds the inside children of the cut's edges that weren't bounded; whether there were any. An `Err` is want of
    // memory.
    fn bound_edges(
        &mut self,
        alloc: Global,
        leaf: &Leaf<'_>,
        draws: &mut Draws,
    ) -> Result<bool, AllocError>
        requires { IsLeafOf leaf.now }
    {
        let mut any = false;
        for edge in &self.edges {
            if at(&self.insides, *edge, None).is_none() {
                any = true;
                let inside = bounded(alloc, leaf, *edge, draws)?;
                set(&mut self.insides, *edge, Some(inside));
            }
        }
        Ok(any)
    }

    // For each arc what its edge takes, where it is saturated and undecided; without limit where it is inside. An `Err`
    // is want of memory.
    fn rooms(&self, alloc: Global, leaf: &Leaf<'_>) -> Result<Vec<u32>, AllocError>
        requires { IsLeafOf leaf.now }
    {
        self.rooms_by(alloc, leaf.graph, leaf.decision, leaf.costs)
    }

    // The same by what a packing leaves of the rooms.
    fn rooms_by(
        &self,
        alloc: Global,
        graph: &NetGraph,
        decision: &Decision,
        costs: &ReducedCosts,
    ) -> Result<Vec<u32>, AllocError>
        requires decision { IsDecisionFor graph.now decision.now }
        requires costs { length costs.now ≡ length graph.now.edges }
    {
        let mut rooms = Vec::new(alloc);
        for edge in 0..graph.edge_count() {
            let room = if decision.state(graph, edge) == EdgeState::Undecided {
                at(&self.insides, edge, None).map_or(1, |inside| inside.splits)
            } else {
                UNLIMITED
            };
            rooms.push(if costs.is_open(2 * edge) { room } else { 0 })?;
            rooms.push(if costs.is_open(2 * edge + 1) { room } else { 0 })?;
        }
        Ok(rooms)
    }

    // The first undecided edge of the cut that a leaf's own network has.
    fn edge_of(&self, leaf: &Leaf<'_>, draws: &mut Draws) -> Option<Choice>
        requires { IsLeafOf leaf.now }
    {
        for edge in &self.edges {
            if leaf.is_candidate(*edge) {
                let seed = match at(&self.insides, *edge, None) {
                    Some(inside) => inside.seed,
                    None => draws.seed(),
                };
                return Some(Choice { edge: *edge, seed });
            }
        }
        None
    }
}

// What ascents in drawn orders make of an edge's inside child. An `Err` is want of memory.
fn bounded(
    alloc: Global,
    leaf: &Leaf<'_>,
    edge: u32,
    draws: &mut Draws,
) -> Result<Inside, AllocError>
    requires { IsLeafOf leaf.now }
{
    let mut best = 0;
    let mut best_seed = 0;
    if leaf.is_undecided(edge) {
        for _ in 0..ORDERS {
            if best >= leaf.aim {
                break;
            }
            let seed = draws.seed();
            draws.spend(leaf.graph.edge_count() / 2);
            let value = leaf.inside_value(alloc, edge, seed)?;
            if value >= best {
                best = value;
                best_seed = seed;
            }
        }
    }
    let missing = leaf.aim.saturating_sub(best);
    let splits = missing.saturating_mul(SPLITS_A_UNIT).saturating_add(1);
    Ok(Inside {
        splits: u32::try_from(splits).unwrap_or(UNLIMITED).min(UNLIMITED),
        seed: best_seed,
    })
}
