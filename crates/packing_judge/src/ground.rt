//! What a graph is for an exchange.

use graph_lift::Smaller;
use net_graph::NetGraph;
use planar_cuts::Faces;
use std::alloc::{AllocError, Global};

/// The ground of a graph, on which exchanges in it are carried out: the smaller graph, where there is one, and the
/// faces of a drawing of it, or of the graph where there is none. Where there are faces, cheapest cuts are closed
/// curves; else they are found by flows. Nothing rests on it: it decides time, and what is found.
#[derive(Drop)]
pub struct Ground {
    pub(crate) smaller: Option<Smaller>,
    pub(crate) faces: Option<Faces>,
}

impl Ground {
    /// The ground of a graph. An `Err` is want of memory.
    pub fn of(alloc: Global, graph: &NetGraph) -> Result<Ground, AllocError> {
        let smaller = Smaller::of(alloc, graph)?;
        let faces = match &smaller {
            Some(smaller) => Faces::of(alloc, smaller.graph())?,
            None => Faces::of(alloc, graph)?,
        };
        Ok(Ground { smaller, faces })
    }

    /// The ground of a graph that differs from the one of this ground in lengths alone, and in vertices that became
    /// terminals. An `Err` is want of memory.
    pub fn under(&self, alloc: Global, graph: &NetGraph) -> Result<Ground, AllocError> {
        match (&self.smaller, &self.faces) {
            (None, Some(faces)) => Ok(Ground {
                smaller: None,
                faces: Some(faces.copy()?),
            }),
            _ => Ground::of(alloc, graph),
        }
    }

    /// Whether the graph of the exchange can be drawn in the plane, so that its cheapest cuts are found fast.
    pub fn is_in_plane(&self) -> bool {
        self.faces.is_some()
    }
}
