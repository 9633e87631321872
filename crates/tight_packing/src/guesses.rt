//! What the prices of a test that there is no packing show of shorter networks, whole and in parts. Let q be the price
//! of a cheapest cut of a group, and Q the greatest of them: the overloads are a direction from the network at hand to
//! a fractional one that is shorter, in which arcs off the tree rise by their overload, and those on it fall by q.

use crate::farkas::FarkasTest;
use cut_groups::{NONE, Tree, at, ends_of, set};
use net_graph::NetGraph;
use std::alloc::{AllocError, Global};

// A vertex counts up to one and this much more times as much by what it branches.
const BRANCH_FACTOR: i128 = 3;

// Parts of one are counted in so many.
const PARTS: i128 = 1 << 20;

/// What a test that there is no packing shows. Nothing is promised of it.
#[derive(Drop)]
pub struct Guesses {
    /// Of each edge the share in percent that shorter networks have of it; empty where there was no test.
    pub shares: Vec<u32>,
    /// Of each vertex how good it is to split on, in parts of 2^20: it is best where the shorter fractional network
    /// feeds it by half, and branches from it. 0 at a terminal; empty where there was no test.
    pub scores: Vec<u32>,
    /// By how much a whole step in the direction makes the network shorter, rounded down, in sixteenths of the unit of
    /// the lengths; 0 where it doesn't.
    pub gap: u64,
}

impl Guesses {
    /// No guess. It takes no memory.
    pub fn none(alloc: Global) -> Guesses {
        Guesses {
            shares: Vec::new(alloc),
            scores: Vec::new(alloc),
            gap: 0,
        }
    }

    /// These, and others where there was no test.
    pub fn or(self, others: Guesses) -> Guesses {
        if self.scores.is_empty() { others } else { self }
    }
}

// What flows into a vertex and out of it, in the fractional network.
#[derive(Clone, Copy)]
struct Flow {
    into: i64,
    out: i64,
}

const NO_FLOW: Flow = Flow { into: 0, out: 0 };

impl FarkasTest {
    /// What the last test shows along a tree, if there was one, with lengths in a unit. An `Err` is want of memory.
    pub fn guesses(
        &self,
        alloc: Global,
        graph: &NetGraph,
        tree: &Tree,
        unit: u64,
    ) -> Result<Guesses, AllocError> {
        let mut guesses = Guesses::none(alloc);
        if self.cheapest.is_empty() {
            return Ok(guesses);
        }
        let mut most = 1i64;
        for price in &self.cheapest {
            most = most.max(*price);
        }
        for edge in 0..graph.edge_count() {
            let arc = edge.wrapping_mul(2);
            let back = arc.wrapping_add(1);
            let share = self
                .share(tree, arc, most)
                .max(self.share(tree, back, most));
            guesses.shares.push(share)?;
        }
        let one = most.saturating_mul(2);
        let flows = self.flows(alloc, graph, tree, one)?;
        guesses.scores = scores(alloc, graph, &flows, one)?;
        let step = self.gain.checked_div(i128::from(most)).unwrap_or(0);
        guesses.gap = u64::try_from(step).unwrap_or(0).saturating_mul(unit);
        Ok(guesses)
    }

    // The share of an arc in percent.
    fn share(&self, tree: &Tree, arc: u32, most: i64) -> u32 {
        let amount = i128::from(self.amount(tree, arc, most, most).max(0));
        let percent = amount.wrapping_mul(100).checked_div(i128::from(most));
        u32::try_from(percent.unwrap_or(0).min(100)).unwrap_or(100)
    }

    // The amount of an arc, where an arc of the tree has `one` less the price of its group.
    fn amount(&self, tree: &Tree, arc: u32, one: i64, most: i64) -> i64 {
        let group = tree.group(arc);
        if group == NONE {
            at(&self.overs, arc, 0)
        } else {
            one.wrapping_sub(at(&self.cheapest, group, most))
        }
    }

    // What flows into all vertices and out of them, half a step in the direction. An `Err` is want of memory.
    fn flows(
        &self,
        alloc: Global,
        graph: &NetGraph,
        tree: &Tree,
        one: i64,
    ) -> Result<Vec<Flow>, AllocError> {
        let mut flows = vec![in alloc; NO_FLOW; graph.vertex_count() as usize]?;
        for arc in 0..graph.edge_count().wrapping_mul(2) {
            let ends = ends_of(graph, arc);
            let amount = self.amount(tree, arc, one, one);
            let mut tail = at(&flows, ends.tail, NO_FLOW);
            tail.out = tail.out.saturating_add(amount);
            set(&mut flows, ends.tail, tail);
            let mut head = at(&flows, ends.head, NO_FLOW);
            head.into = head.into.saturating_add(amount);
            set(&mut flows, ends.head, head);
        }
        Ok(flows)
    }
}

// How good it is to split on each vertex by what flows into it and out of it. One that is fed in part has to be met or
// missed: the nearer what flows into it is to a half, and the more flows out of it than into it, the better. An `Err`
// is want of memory.
fn scores(
    alloc: Global,
    graph: &NetGraph,
    flows: &[Flow],
    one: i64,
) -> Result<Vec<u32>, AllocError> {
    let mut scores = Vec::new(alloc);
    for vertex in 0..graph.vertex_count() {
        scores.push(score(at(flows, vertex, NO_FLOW), one))?;
    }
    for terminal in graph.terminals() {
        set(&mut scores, *terminal, 0);
    }
    Ok(scores)
}

// How good it is to split on a vertex with this flow, in parts of 2^20; 0 where it isn't fed in part.
fn score(flow: Flow, one: i64) -> u32 {
    let fed = flow.into.min(one.saturating_sub(flow.into)).max(0);
    let branched = flow.out.saturating_sub(flow.into).max(0).min(one);
    let factor = PARTS.wrapping_add(BRANCH_FACTOR.wrapping_mul(parts(branched, one)));
    let score = parts(fed, one).wrapping_mul(factor) / PARTS;
    u32::try_from(score).unwrap_or(0)
}

// A number as a share of one, in parts of 2^20.
fn parts(number: i64, one: i64) -> i128 {
    let counted = i128::from(number).wrapping_mul(PARTS);
    counted.checked_div(i128::from(one)).unwrap_or(0)
}
