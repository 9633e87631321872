//! The part of an edge set that hangs together with the root.

ghost use Rattle.std.specs.Prelude.{◌≡◌, ◌<◌, ◌↔◌, ℕ, true, length, slice_get, Some, IfOk, IsTrue};
ghost use Rattle.net_graph.specs.Flags.{has};
ghost use Rattle.net_graph.specs.Network.{Reaches};
ghost use Rattle.net_graph.specs.Decision.{InRootPart};

use crate::graph::NetGraph;
use crate::network::reached;
use crate::sets::{EdgeSet, VertexSet};
use std::alloc::{AllocError, Global};

/// The root part of an edge set: its edges with an end that it joins to the root. An `Err` is want of memory.
/// No tool asks for it: it shows what a decision speaks of.
pub fn root_part(alloc: Global, g: &NetGraph, set: &EdgeSet) -> Result<EdgeSet, AllocError>
    requires { length set.now ≡ length g.now.edges }
    ensures size { IfOk result (λ part. length part ≡ length g.now.edges) }
    ensures part { IfOk result (λ part. (n : ℕ) → (slice_get part n ≡ Some true) ↔ InRootPart g.now set.now n) }
{
    let marks = reached(alloc, g, set)?;
    let mut part = EdgeSet::empty(alloc, g.edge_count())?;
    for n in 0..g.edge_count() {
        if is_in_root_part(g, set, &marks, n) {
            part.add(n);
        }
    }
    Ok(part)
}

// Whether the edge is in the set and one of its ends is among the marked vertices, which are the reached ones.
fn is_in_root_part(g: &NetGraph, set: &EdgeSet, marks: &VertexSet, n: u32) -> bool
    requires edge { n < length g.now.edges }
    requires size { length set.now ≡ length g.now.edges }
    requires vertices { length marks.now ≡ g.now.vertices }
    requires reached { (v : ℕ) → (has marks.now v ≡ true) ↔ Reaches g.now set.now v }
    ensures { IsTrue result ↔ InRootPart g.now set.now n }
{
    let e = g.edge(n);
    set.has(n) && (marks.has(e.a) || marks.has(e.b))
}
