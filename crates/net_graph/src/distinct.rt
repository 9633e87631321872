//! Lists in which no number stands twice.

ghost use Rattle.std.specs.Prelude.{◌≡◌, ◌<◌, All, IfOk};
ghost use Rattle.net_graph.specs.Distinct.{distinct_of};

use crate::sets::VertexSet;
use std::alloc::{AllocError, Global};

/// The numbers of a list, all of which are below `size`, without repeats: each where it stands first. An `Err` is want
/// of memory.
pub fn without_repeats(alloc: Global, numbers: &[u32], size: u32) -> Result<Vec<u32>, AllocError>
    requires { All (λ n. n < size) numbers.now }
    ensures distinct { IfOk result (λ kept. kept.items ≡ distinct_of numbers.now) }
    ensures below { IfOk result (λ kept. All (λ n. n < size) kept.items) }
{
    let mut listed = VertexSet::empty(alloc, size)?;
    let mut kept = Vec::new(alloc);
    for n in numbers {
        if !listed.has(*n) {
            listed.add(*n);
            kept.push(*n)?;
        }
    }
    Ok(kept)
}
