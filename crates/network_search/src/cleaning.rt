//! Cleaning: a least spanning tree of a subgraph, without dead ends.

use crate::access::{at, put};
use crate::instance::Instance;
use crate::subgraph::Subgraph;
use std::alloc::{AllocError, Global};
use std::cmp::Reverse;
use std::collections::BinaryHeap;

// At least as many edges as a spanning tree is offered: a graph has at most 4,900, each of them
// from both ends.
const OFFERS: u32 = 9_800;

/// What cleaning works with; it keeps its memory from call to call.
#[derive(Drop)]
pub struct Cleaner {
    reached: Vec<bool>,
    // Edges that lead on, by length and number, each with the vertex that it leads to.
    offers: BinaryHeap<Reverse<(u64, u32, u32)>>,
}

impl Cleaner {
    /// The work space for a graph. An `Err` is want of memory.
    pub fn new(alloc: Global, g: Instance) -> Result<Cleaner, AllocError> {
        Ok(Cleaner {
            reached: vec![in alloc; false; g.vertex_count() as usize]?,
            offers: BinaryHeap::with_capacity(alloc, OFFERS as usize)?,
        })
    }

    /// Makes `tree` a least spanning tree of what a subgraph joins to the root, without the leaves
    /// that are no terminals and what hangs on them alone. An `Err` is want of memory.
    pub fn clean(
        &mut self,
        g: Instance,
        subgraph: &Subgraph,
        tree: &mut Subgraph,
    ) -> Result<(), AllocError> {
        self.span(g, subgraph, tree)?;
        for vertex in 0..g.vertex_count() {
            prune_from(g, vertex, tree);
        }
        Ok(())
    }

    // Makes `tree` a least spanning tree of what a subgraph joins to the root (Jarnik 1930, Prim
    // 1957).
    fn span(
        &mut self,
        g: Instance,
        subgraph: &Subgraph,
        tree: &mut Subgraph,
    ) -> Result<(), AllocError> {
        tree.clear();
        self.reached.fill(false);
        self.offers.clear();
        self.reach(g, subgraph, g.root())?;
        for _ in 0..OFFERS {
            let Some(Reverse((_, edge, vertex))) = self.offers.pop() else {
                break;
            };
            if !at(&self.reached, vertex, true) {
                tree.add(g, edge);
                self.reach(g, subgraph, vertex)?;
            }
        }
        Ok(())
    }

    // Marks a vertex as reached, and offers the edges that lead on from it.
    fn reach(&mut self, g: Instance, subgraph: &Subgraph, vertex: u32) -> Result<(), AllocError> {
        put(&mut self.reached, vertex, true);
        for arc in g.arcs_from(vertex) {
            let edge = arc.number / 2;
            if subgraph.has(edge) && !at(&self.reached, arc.to, true) {
                self.offers
                    .push(Reverse((g.length_of(edge), edge, arc.to)))?;
            }
        }
        Ok(())
    }
}

// Takes a dead end off a tree, from the leaf to the first vertex that has another use.
fn prune_from(g: Instance, leaf: u32, tree: &mut Subgraph) {
    let mut vertex = leaf;
    for _ in 0..g.vertex_count() {
        if tree.degree(vertex) != 1 || g.is_terminal(vertex) {
            break;
        }
        if let Some(arc) = tree.arc_beside(g, vertex, None) {
            tree.remove(g, arc.number / 2);
            vertex = arc.to;
        }
    }
}
