//! The parts of the first state of a reduction.

ghost use Rattle.std.specs.Prelude.{◌≡◌, ◌<◌, true, length, replicate, IfOk, Some};
ghost use Rattle.graph_reduce.specs.State.{bundles_from};

use crate::originals::{Bundle, Originals};
use net_graph::{Edge, VertexSet};
use std::alloc::{AllocError, Global};

// The set of all nodes. An `Err` is want of memory.
pub(crate) fn every_node(alloc: Global, count: u32) -> Result<VertexSet, AllocError>
    ensures { IfOk result (λ set. set ≡ replicate count true) }
{
    let mut set = VertexSet::empty(alloc, count)?;
    for v in 0..count {
        set.add(v);
    }
    Ok(set)
}

// Each edge in its place, which stands for itself. An `Err` is want of memory.
pub(crate) fn every_edge(
    alloc: Global,
    edges: &[Edge],
    size: u32,
) -> Result<Vec<Option<Bundle>>, AllocError>
    requires { length edges.now ≡ size }
    ensures { IfOk result (λ v. v.items ≡ bundles_from size 0 edges.now) }
{
    let mut bundles = Vec::with_capacity(alloc, edges.len())?;
    for (n, edge) in edges.iter().enumerate() {
        bundles.push(Some(Bundle {
            edge: *edge,
            originals: Originals::of_one(alloc, size, n as u32)?,
        }))?;
    }
    Ok(bundles)
}
