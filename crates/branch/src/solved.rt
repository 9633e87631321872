//! What a search found.

use cert_tree::CertTree;
use net_graph::EdgeSet;

/// What a search found: a network with its length, and a tree with the bound that no network is shorter than,
/// which is the lesser of the tree's value and the length.
#[derive(Drop)]
pub struct Solved {
    pub network: EdgeSet,
    /// The sum of the lengths of the network's edges.
    pub length: u64,
    pub bound: u64,
    /// Whether the bound is the length, so the network is shortest.
    pub optimal: bool,
    pub tree: CertTree,
}
