//! The ends of edges.

ghost use Rattle.std.specs.Prelude.{◌≡◌, ◌⊎◌};
ghost use Rattle.std.specs.Bool.{OnTrue, OnFalse};
ghost use Rattle.net_graph.specs.Network.{HasEnds};

use net_graph::Edge;

/// Whether the edges have the same two ends.
pub(crate) fn have_same_ends(x: Edge, y: Edge) -> bool
    ensures same { OnTrue result (HasEnds y x.a x.b) }
    ensures apart { OnFalse result (¬ HasEnds y x.a x.b) }
{
    if x.a == y.a {
        x.b == y.b
    } else {
        x.a == y.b && x.b == y.a
    }
}

/// The other end of an edge of a node.
pub(crate) fn other_end(edge: Edge, v: u32) -> u32
    requires { (edge.a ≡ v) ⊎ (edge.b ≡ v) }
    ensures { HasEnds edge v result }
{
    if edge.a == v { edge.b } else { edge.a }
}
