//! The lengths of edge sets.

ghost use Rattle.std.specs.Prelude.{◌≡◌, ◌<◌, ◌^◌, length, sum_by};
ghost use Rattle.net_graph.specs.Network.{length_of, length_of_edges};

use crate::edge::Edge;
use crate::graph::NetGraph;
use crate::sets::EdgeSet;

/// The length of an edge set: the plain sum of its edges' lengths, each counted once. It is below 2^63.
pub fn length(g: &NetGraph, set: &EdgeSet) -> u64
    requires { length set.now ≡ length g.now.edges }
    ensures sum { result ≡ length_of g.now set.now }
    ensures small { result < 2 ^ 63 }
{
    sum_of_lengths(g.edges(), set)
}

// The sum of the lengths of the set's edges.
fn sum_of_lengths(edges: &[Edge], set: &EdgeSet) -> u64
    requires total { sum_by (λ e. e.length) edges.now < 2 ^ 63 }
    requires size { length edges.now ≡ length set.now }
    ensures { result ≡ length_of_edges edges.now set.now }
{
    let mut sum = 0;
    for n in 0..set.len() {
        if set.has(n) {
            sum += edges[n as usize].length;
        }
    }
    sum
}
