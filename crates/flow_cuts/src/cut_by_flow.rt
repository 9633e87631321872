//! Cheapest cuts by maximum flows (after Ford and Fulkerson 1956).

use crate::flow::Flow;
use crate::largest::Largest;
use crate::query::Query;
use crate::steps::Steps;
use cut_groups::{BLOCKED, CutFinder, NONE, Tree, Wanted, at, ends_of, set};
use net_graph::NetGraph;
use std::alloc::{AllocError, Global};

/// Finds cheapest cuts in a graph.
#[derive(Drop)]
pub struct FlowCuts {
    steps: Steps,
    // The vertex above each on the tree, `NONE` at the root and off the tree.
    above: Vec<u32>,
    // The vertices on the way from the head of the group's arc to the terminal.
    inside: Vec<u32>,
    flow: Flow,
    largest: Largest,
}

impl FlowCuts {
    /// What finds cuts in a graph with a tree. An `Err` is want of memory.
    pub fn new(alloc: Global, graph: &NetGraph, tree: &Tree) -> Result<FlowCuts, AllocError> {
        let steps = Steps::of(alloc, graph, tree)?;
        let flow = Flow::none(alloc, &steps, graph.edges().len().saturating_mul(2))?;
        let mut above = vec![in alloc; NONE; graph.vertex_count() as usize]?;
        for group in 0..tree.groups() {
            let tail = ends_of(graph, tree.arc(group)).tail;
            set(&mut above, tree.head(group), tail);
        }
        Ok(FlowCuts {
            steps,
            above,
            inside: Vec::new(alloc),
            flow,
            largest: Largest::none(alloc, graph.vertex_count())?,
        })
    }

    // Takes the way from a vertex of the tree to a terminal below it. An `Err` is want of memory.
    fn take_way(&mut self, head: u32, terminal: u32) -> Result<(), AllocError> {
        self.inside.clear();
        let mut vertex = terminal;
        for _ in 0..self.steps.vertices() {
            self.inside.push(vertex)?;
            if vertex == head || vertex == NONE {
                break;
            }
            vertex = at(&self.above, vertex, NONE);
        }
        Ok(())
    }

    // Lists the arcs off the tree that enter what was reached. An `Err` is want of memory.
    fn list_border(&self, entered: &mut Vec<u32>) -> Result<(), AllocError> {
        for vertex in &self.flow.levels.reached {
            self.list_entering(*vertex, entered)?;
        }
        Ok(())
    }

    // Lists those that enter it at a vertex. An `Err` is want of memory.
    fn list_entering(&self, vertex: u32, entered: &mut Vec<u32>) -> Result<(), AllocError> {
        for step in self.steps.entering(vertex) {
            if !step.on_tree && !self.flow.levels.has(step.tail) {
                entered.push(step.arc)?;
            }
        }
        Ok(())
    }
}

impl CutFinder for FlowCuts {
    fn cheapest(
        &mut self,
        tree: &Tree,
        prices: &[i64],
        wanted: Wanted,
        entered: &mut Vec<u32>,
    ) -> Result<Option<i64>, AllocError> {
        entered.clear();
        let query = Query::of(tree, prices, wanted.group);
        self.take_way(query.head, wanted.terminal)?;
        let limit = wanted.limit.min(BLOCKED);
        let price = self.flow.fill(&self.steps, query, &self.inside, limit)?;
        if price.is_some() {
            self.list_border(entered)?;
        }
        Ok(price)
    }

    fn largest(
        &mut self,
        tree: &Tree,
        prices: &[i64],
        wanted: Wanted,
        entered: &mut Vec<u32>,
    ) -> Result<bool, AllocError> {
        entered.clear();
        let query = Query::of(tree, prices, wanted.group);
        self.largest
            .list(&self.steps, query, self.flow.amounts(), entered)?;
        Ok(true)
    }

    fn looks(&self) -> u64 {
        self.flow.looks().wrapping_add(self.largest.looks)
    }
}
