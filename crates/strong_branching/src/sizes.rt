//! Whether the cuts of a packing are of a graph.

ghost use Rattle.std.specs.Prelude.{◌≡◌, length, All, IsTrue};

use net_graph::{NetGraph, Packing};

/// Whether each cut of a packing is a set of a graph's vertices.
pub fn is_of(graph: &NetGraph, packing: &Packing) -> bool
    ensures { IsTrue result → All (λ c. length c.members ≡ graph.now.vertices) packing.now }
{
    packing
        .cuts()
        .iter()
        .all(|cut| cut.members.len() == graph.vertex_count())
}
