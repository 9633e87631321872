//! The arcs that enter each vertex, along which a flow is searched from its end.

use cut_groups::{NONE, Tree, at, count};
use net_graph::NetGraph;
use std::alloc::{AllocError, Global};

/// An arc that enters a vertex.
#[derive(Clone, Copy)]
pub struct Step {
    /// The vertex that it enters.
    pub head: u32,
    /// The vertex that it leaves.
    pub tail: u32,
    pub arc: u32,
    /// Whether the tree has it, in its own direction; and the edge's other arc.
    pub on_tree: bool,
    pub back_on_tree: bool,
}

/// No arc.
pub const NO_STEP: Step = Step {
    head: NONE,
    tail: NONE,
    arc: NONE,
    on_tree: false,
    back_on_tree: false,
};

/// All arcs of a graph, by the vertices that they enter.
#[derive(Drop)]
pub struct Steps {
    steps: Vec<Step>,
    // The first arc into each vertex; behind the last vertex the number of arcs.
    firsts: Vec<u32>,
}

impl Steps {
    /// The arcs of a graph with a tree. An `Err` is want of memory.
    pub fn of(alloc: Global, graph: &NetGraph, tree: &Tree) -> Result<Steps, AllocError> {
        let mut steps = Steps {
            steps: Vec::new(alloc),
            firsts: Vec::new(alloc),
        };
        for vertex in 0..graph.vertex_count() {
            steps.firsts.push(count(&steps.steps))?;
            steps.push_into(graph, tree, vertex)?;
        }
        steps.firsts.push(count(&steps.steps))?;
        Ok(steps)
    }

    // Appends the arcs into a vertex. An `Err` is want of memory.
    fn push_into(&mut self, graph: &NetGraph, tree: &Tree, vertex: u32) -> Result<(), AllocError> {
        if vertex >= graph.vertex_count() {
            return Ok(());
        }
        for leaving in graph.arcs_from(vertex) {
            let arc = leaving.number ^ 1;
            self.steps.push(Step {
                head: vertex,
                tail: leaving.to,
                arc,
                on_tree: tree.group(arc) != NONE,
                back_on_tree: tree.group(leaving.number) != NONE,
            })?;
        }
        Ok(())
    }

    /// How many vertices there are.
    pub fn vertices(&self) -> u32 {
        count(&self.firsts).saturating_sub(1)
    }

    /// The place of the first arc into a vertex; those of the next vertex follow.
    #[inline]
    pub fn first(&self, vertex: u32) -> u32 {
        at(&self.firsts, vertex, 0)
    }

    /// The arc at a place.
    #[inline]
    pub fn step(&self, place: u32) -> Step {
        at(&self.steps, place, NO_STEP)
    }

    /// The arcs into a vertex.
    #[inline]
    pub fn entering(&self, vertex: u32) -> &[Step] {
        let first = self.first(vertex) as usize;
        let end = self.first(vertex.wrapping_add(1)) as usize;
        match self.steps.get(first..end) {
            Some(steps) => steps,
            None => &[],
        }
    }
}
