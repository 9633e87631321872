//! What is kept beside a leaf of the tree.

use dual_ascent::ReducedCosts;
use net_graph::{Decision, EdgeSet};

/// What is kept beside a leaf of the tree: the decision that stands there, the leaf's value, and where its packing is
/// maximal a network whose edges each have a saturated arc, and what the packing leaves of the rooms of all arcs; and
/// whether its packing began with no cut of another leaf, so that its cuts may as well be others with the same loads.
#[derive(Drop)]
pub(crate) struct LeafNote {
    pub decision: Decision,
    pub value: u128,
    pub network: Option<EdgeSet>,
    /// Of no meaning where there is no network.
    pub costs: ReducedCosts,
    pub is_anew: bool,
}
