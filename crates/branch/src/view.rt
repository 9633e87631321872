//! What a search tells of a leaf that shows a network.

use dual_ascent::ReducedCosts;
use net_graph::{Decision, EdgeSet, Packing};

/// A leaf of a search's tree with what is kept beside it.
#[derive(Clone, Copy)]
pub struct LeafView<'a> {
    /// What is decided there.
    pub decision: &'a Decision,
    /// The leaf's packing, which is maximal.
    pub packing: &'a Packing,
    /// What the packing leaves of the rooms of all arcs.
    pub costs: &'a ReducedCosts,
    /// A network of edges with a saturated arc.
    pub own: &'a EdgeSet,
}
