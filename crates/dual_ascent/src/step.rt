//! The steps of a dual ascent.

use net_graph::{Cut, VertexSet};

/// How an ascent goes on.
#[derive(Drop)]
pub(crate) enum Step {
    /// Saturated arcs lead from the root to every required vertex.
    Done,
    /// The next cut, which can be packed.
    Pack(Cut),
    /// A set that only arcs of outside edges enter.
    Close(VertexSet),
}
