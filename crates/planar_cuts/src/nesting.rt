//! How the edges of a descent nest (after Brandes 2009).

use crate::descent::Descent;
use cut_groups::{NONE, at, set};
use net_graph::NetGraph;
use std::alloc::{AllocError, Global};

// The least height to which edges lead back that lie at an edge or below it, and the next one, which is another height.
#[derive(Clone, Copy)]
struct Low {
    first: u32,
    second: u32,
}

const NO_LOW: Low = Low {
    first: NONE,
    second: NONE,
};

/// How the edges of a descent nest.
#[derive(Drop)]
pub struct Nesting {
    /// Of each edge the least height to which edges lead back that lie at it or below it, or that of its upper end.
    pub lows: Vec<u32>,
    /// Of each edge a number: of the edges that leave a vertex on one side those of less lie around those of more.
    pub depths: Vec<i32>,
}

impl Nesting {
    /// How the edges of a graph's descent nest. An `Err` is want of memory.
    pub fn of(alloc: Global, graph: &NetGraph, descent: &Descent) -> Result<Nesting, AllocError> {
        let edges = graph.edges().len();
        let mut lows = vec![in alloc; NO_LOW; edges]?;
        let mut nesting = Nesting {
            lows: vec![in alloc; NONE; edges]?,
            depths: vec![in alloc; 0; edges]?,
        };
        for vertex in descent.order.iter().rev() {
            nesting.note(graph, descent, &mut lows, *vertex);
        }
        Ok(nesting)
    }

    // Notes the edges that leave a vertex, and the low of the arc into it; those below are noted.
    fn note(&mut self, graph: &NetGraph, descent: &Descent, lows: &mut [Low], vertex: u32) {
        if vertex >= graph.vertex_count() {
            return;
        }
        let height = descent.height(vertex);
        let above = height.wrapping_sub(1);
        let mut low = Low {
            first: above,
            second: above,
        };
        for arc in graph.arcs_from(vertex) {
            if descent.leads(arc.number) {
                let own = if descent.tree_arc(arc.to) == arc.number {
                    at(lows, arc.number / 2, NO_LOW)
                } else {
                    Low {
                        first: descent.height(arc.to),
                        second: height,
                    }
                };
                set(&mut self.lows, arc.number / 2, own.first);
                set(&mut self.depths, arc.number / 2, own.depth(height));
                low = low.with(own);
            }
        }
        set(lows, descent.tree_arc(vertex) / 2, low);
    }
}

impl Low {
    // The low of edges that have this one, and of another edge.
    fn with(self, other: Low) -> Low {
        if other.first < self.first {
            Low {
                first: other.first,
                second: self.first.min(other.second),
            }
        } else if other.first > self.first {
            Low {
                first: self.first,
                second: self.second.min(other.first),
            }
        } else {
            Low {
                first: self.first,
                second: self.second.min(other.second),
            }
        }
    }

    // How deep an edge nests whose upper end has a height: deeper the higher it leads back, and at the same height
    // deeper where others lead back from below it to other heights.
    fn depth(self, height: u32) -> i32 {
        let twice = self.first.wrapping_mul(2);
        let depth = twice.wrapping_add(u32::from(self.second < height));
        i32::try_from(depth).unwrap_or(i32::MAX)
    }
}
