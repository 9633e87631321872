//! What is told of a search.

use crate::told::{tell_cuts, tell_edges};
use branch::Solved;
use cert_tree::{CertTree, SplitOn};
use row_tables::Told;

/// The length, the bound, whether the network is shortest, the network and the tree.
pub fn tell_solved(told: &mut Told, solved: &Solved) {
    told.line("length ", &solved.length);
    told.line("bound ", &solved.bound);
    told.line("optimal ", &solved.optimal);
    tell_edges(told, "network", &solved.network);
    tell_tree(told, &solved.tree);
}

// The nodes of a tree in preorder, a leaf with its cuts.
fn tell_tree(told: &mut Told, tree: &CertTree) {
    let mut leaf = 0;
    for node in tree.nodes() {
        tell_node(told, *node);
        if node.is_none() && leaf < tree.leaves() {
            tell_cuts(told, tree.packing(leaf), "");
            leaf += 1;
        }
    }
}

// What a node splits on, or that it is a leaf.
fn tell_node(told: &mut Told, node: Option<SplitOn>) {
    match node {
        Some(SplitOn::Edge(e)) => told.line("edge ", &e),
        Some(SplitOn::Vertex(v)) => told.line("vertex ", &v),
        None => told.word("leaf\n"),
    }
}
