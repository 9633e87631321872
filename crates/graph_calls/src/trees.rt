//! Certificate trees.

ghost use Rattle.std.specs.Prelude.{◌<◌, length, IfOk};
ghost use Rattle.net_graph.specs.Decision.{nothing_decided};
ghost use Rattle.cert_tree.specs.Decisions.{HasUndecidedSplits};

use crate::described::{only, packing};
use crate::told::tell_cuts;
use cert_tree::{CertTree, SplitOn};
use net_graph::{NetGraph, Packing};
use row_tables::{Call, Fault, Told};
use std::alloc::Global;

/// A certificate tree of one split, on the edge under `split`, whose children have the packings under `outside` and
/// `inside`: how many splits and leaves it has, its nodes, its value, and the cuts of each leaf.
pub fn tree(alloc: Global, call: &Call, g: &NetGraph, told: &mut Told) -> Result<(), Fault> {
    let e = only(call.text("split")?)?;
    if e >= g.edge_count() {
        return Err(Fault::NotAllowed);
    }
    tell_tree(g, &given_tree(alloc, call, g, e)?, told);
    Ok(())
}

// The tree with the packings that a row gives.
fn given_tree(alloc: Global, call: &Call, g: &NetGraph, e: u32) -> Result<CertTree, Fault>
    requires { e < length g.now.edges }
    ensures { IfOk result (HasUndecidedSplits g.now (nothing_decided g.now)) }
{
    let outside = packing(alloc, call, g, "outside")?;
    let inside = packing(alloc, call, g, "inside")?;
    split_tree(alloc, g, e, outside, inside)
}

// What is told of the tree.
fn tell_tree(g: &NetGraph, tree: &CertTree, told: &mut Told)
    requires { HasUndecidedSplits g.now (nothing_decided g.now) tree.now }
{
    tell_shape(told, tree);
    told.line("value ", &tree.value(g));
    tell_leaves(told, tree);
}

// Tells of the nodes.
fn tell_shape(told: &mut Told, tree: &CertTree) {
    told.value("splits ", &tree.splits());
    told.line(", leaves ", &tree.leaves());
    for node in tree.nodes() {
        told.debug_line("", node);
    }
}

// Tells of the leaves.
fn tell_leaves(told: &mut Told, tree: &CertTree) {
    for leaf in 0..tree.leaves() {
        told.line("leaf ", &leaf);
        tell_cuts(told, tree.packing(leaf), ":");
    }
}

// A leaf without cuts that is then split on the edge.
fn split_tree(
    alloc: Global,
    _g: &NetGraph,
    e: u32,
    outside: Packing,
    inside: Packing,
) -> Result<CertTree, Fault>
    requires { e < length _g.now.edges }
    ensures { IfOk result (HasUndecidedSplits _g.now (nothing_decided _g.now)) }
{
    let mut tree = CertTree::leaf(alloc, Packing::empty(alloc))?;
    tree.replace_leaf(0, SplitOn::Edge(e), outside, inside)?;
    Ok(tree)
}
