//! The ends of arcs.

use crate::cells::NONE;
use net_graph::NetGraph;

/// The ends of an arc.
#[derive(Clone, Copy)]
pub struct Ends {
    /// The vertex that it leaves.
    pub tail: u32,
    /// The vertex that it leads to.
    pub head: u32,
}

/// The ends of an arc: arc 2e runs from the first end of edge e to the other, arc 2e + 1 back.
/// Both are `NONE` past the last arc.
pub fn ends_of(graph: &NetGraph, arc: u32) -> Ends {
    let Some(edge) = graph.edges().get((arc / 2) as usize) else {
        return Ends {
            tail: NONE,
            head: NONE,
        };
    };
    if arc % 2 == 0 {
        Ends {
            tail: edge.a,
            head: edge.b,
        }
    } else {
        Ends {
            tail: edge.b,
            head: edge.a,
        }
    }
}
