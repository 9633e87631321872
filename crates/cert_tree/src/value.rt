//! The value of a tree.

ghost use Rattle.std.specs.Prelude.{◌≡◌, ◌+◌, ◌<◌, ◌≤◌, ◌^◌, List, length, sum_by, All};
ghost use Rattle.net_graph.specs.declared.packing.Cut.{Cut};
ghost use Rattle.net_graph.specs.declared.edge.Edge.{Edge};
ghost use Rattle.net_graph.specs.Decision.{Decided, nothing_decided};
ghost use Rattle.net_graph.specs.Packing.{packing_value};
ghost use Rattle.cert_tree.specs.Preorder.{packings_of};
ghost use Rattle.cert_tree.specs.Decisions.{HasUndecidedSplits, IsLeafAt};
ghost use Rattle.cert_tree.specs.TreeValue.{tree_value};
ghost use Rattle.cert_tree.specs.Way.{IsTurnIn, inside_part, inside_parts, way_to};

use crate::split::SplitOn;
use crate::tree::CertTree;
use crate::way::{Turn, turn_at};
use net_graph::{NetGraph, total_weight};

impl CertTree {
    /// The value of the tree where nothing is decided at its top: the least value of its leaves. No tool asks for it:
    /// a tool has the bound that a search or the checker tells.
    pub fn value(&self, g: &NetGraph) -> u128
        requires { HasUndecidedSplits g.now (nothing_decided g.now) self.now }
        ensures { result ≡ tree_value g.now (nothing_decided g.now) self.now }
    {
        let mut least = self.leaf_value(g, 0);
        for leaf in 1..self.leaves() {
            least = least.min(self.leaf_value(g, leaf));
        }
        least
    }

    // The value of a leaf under its decision.
    fn leaf_value(&self, g: &NetGraph, leaf: u32) -> u128
        requires leaf { leaf < length (packings_of self.now) }
        requires splits { HasUndecidedSplits g.now (nothing_decided g.now) self.now }
        ensures { (own : Decided) (cuts : List Cut) → IsLeafAt (nothing_decided g.now) self.now leaf own cuts →
            result ≡ packing_value g.now own cuts }
    {
        // The lengths of a graph's edges sum to less than 2^63.
        prove!(g.edge_count() <= 4900);
        u128::from(self.inside_length(g, leaf)) + total_weight(self.packing(leaf).cuts())
    }

    // The length of the edges that are decided to be inside on the way to a leaf.
    fn inside_length(&self, g: &NetGraph, leaf: u32) -> u64
        requires leaf { leaf < length (packings_of self.now) }
        requires turns { All (IsTurnIn g.now.edges) (way_to self.now leaf) }
        requires short { inside_parts g.now.edges (way_to self.now leaf) < 2 ^ 63 }
        ensures { result ≡ inside_parts g.now.edges (way_to self.now leaf) }
    {
        let nodes = self.nodes();
        let mut passed = 0;
        let mut sum = 0;
        for place in (0..self.place_of(leaf)).rev() {
            if let Some(turn) = turn_at(nodes[place], &mut passed) {
                sum += inside_part(g, turn);
            }
        }
        sum
    }
}

// The length that a turn decides to be inside.
fn inside_part(g: &NetGraph, turn: Turn) -> u64
    requires { IsTurnIn g.now.edges turn }
    ensures { result ≡ inside_part g.now.edges turn }
{
    match turn {
        Turn {
            on: SplitOn::Edge(e),
            inside: true,
        } => g.edge(e).length,
        _ => 0,
    }
}
