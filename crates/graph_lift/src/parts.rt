//! What became of the edges of a given graph.

use crate::steps::{Role, Step};
use crate::work::Work;
use cut_groups::{at, set};
use net_graph::{EdgeSet, NetGraph};
use std::alloc::{AllocError, Global};

/// What became of an edge.
#[derive(Clone, Copy)]
pub enum Part {
    /// It is a part of the smaller graph's edge of this number.
    Of(u32),
    /// It went with a terminal.
    Taken,
    /// No least network needs it.
    Gone,
}

/// What became of all edges, also of those that came up later, where these are left. An `Err` is want of memory.
pub fn parts_of(alloc: Global, work: &Work, left: &[u32]) -> Result<Vec<Part>, AllocError> {
    let mut parts = vec![in alloc; Part::Gone; work.edges() as usize]?;
    let mut number = 0u32;
    for edge in left {
        set(&mut parts, *edge, Part::Of(number));
        number = number.wrapping_add(1);
    }
    for step in work.steps.iter().rev() {
        match *step {
            Step::Between(between) => {
                let part = at(&parts, between.edge, Part::Gone);
                set(&mut parts, between.near.edge, part);
                set(&mut parts, between.far.edge, part);
            }
            Step::Leaf(leaf) if leaf.role != Role::Plain => {
                set(&mut parts, leaf.side.edge, Part::Taken);
            }
            _ => {}
        }
    }
    Ok(parts)
}

/// Of each edge, also of those that came up later, whether a network has all of it, or of an edge that went in favour
/// of it. An `Err` is want of memory.
pub fn whole_in(
    alloc: Global,
    graph: &NetGraph,
    steps: &[Step],
    network: &EdgeSet,
) -> Result<Vec<bool>, AllocError> {
    let mut whole = Vec::new(alloc);
    for edge in 0..graph.edge_count() {
        whole.push(edge < network.len() && network.has(edge))?;
    }
    for step in steps {
        match *step {
            Step::Between(between) => {
                let has_near = at(&whole, between.near.edge, false);
                whole.push(has_near && at(&whole, between.far.edge, false))?;
            }
            Step::Parallel(edges) if at(&whole, edges.gone, false) => {
                set(&mut whole, edges.kept, true);
            }
            _ => {}
        }
    }
    Ok(whole)
}
