//! The nodes and edges that are left, with their new numbers.

ghost use Rattle.std.specs.Prelude.{◌≡◌, ◌<◌, length, map, slice_index, All, IfOk};
ghost use Rattle.net_graph.specs.Members.{members_of};
ghost use Rattle.graph_reduce.specs.Reduction.{bundles_left};
ghost use Rattle.graph_reduce.specs.Left.{edges_left, numbers_of, HaveEndsBelow};

use crate::originals::{Bundle, Originals};
use lists::ItemList;
use net_graph::{Edge, EdgeList, VertexList, VertexSet};
use std::alloc::{AllocError, Global};

/// The new numbers of the nodes that are left.
#[derive(Drop)]
pub(crate) struct Numbering {
    /// For each new number the node, ascending.
    pub origins: Vec<u32>,
    /// For each node its new number, where it is left: how many lower nodes are left.
    pub numbers: Vec<u32>,
}

impl Numbering {
    /// The new numbers of these nodes. An `Err` is want of memory.
    pub fn of(alloc: Global, nodes: &VertexSet) -> Result<Numbering, AllocError>
        ensures origins { IfOk result (λ n. n.origins.items ≡ members_of nodes.now) }
        ensures numbers { IfOk result (λ n. n.numbers.items ≡ numbers_of nodes.now) }
    {
        let mut origins = Vec::new(alloc);
        let mut numbers = Vec::with_capacity(alloc, nodes.len() as usize)?;
        for v in 0..nodes.len() {
            numbers.push(origins.len() as u32)?;
            if nodes.has(v) {
                origins.push(v)?;
            }
        }
        Ok(Numbering { origins, numbers })
    }
}

/// The edges that are left, between new numbers. An `Err` is want of memory.
pub(crate) fn renumbered_edges(
    alloc: Global,
    edges: &[Option<Bundle>],
    numbers: &[u32],
) -> Result<EdgeList, AllocError>
    requires { HaveEndsBelow (length numbers.now) edges.now }
    ensures { IfOk result (λ list. list ≡ edges_left numbers.now edges.now) }
{
    let mut left = Vec::new(alloc);
    for held in edges {
        if let Some(bundle) = held {
            left.push(Edge {
                a: numbers[bundle.edge.a as usize],
                b: numbers[bundle.edge.b as usize],
                length: bundle.edge.length,
            })?;
        }
    }
    Ok(ItemList::from_vec(left))
}

/// What the edges that are left stand for. An `Err` is want of memory.
pub(crate) fn originals_left(
    alloc: Global,
    edges: Vec<Option<Bundle>>,
) -> Result<Vec<Originals>, AllocError>
    ensures { IfOk result (λ v. v.items ≡ map (λ x. x.originals) (bundles_left edges.items)) }
{
    let mut left = Vec::new(alloc);
    for held in edges {
        if let Some(bundle) = held {
            left.push(bundle.originals)?;
        }
    }
    Ok(left)
}

/// The new numbers of the terminals. An `Err` is want of memory.
pub(crate) fn renumbered_terminals(
    alloc: Global,
    terminals: &[u32],
    numbers: &[u32],
) -> Result<VertexList, AllocError>
    requires { All (λ t. t < length numbers.now) terminals.now }
    ensures { IfOk result (λ list. list ≡ map (λ t. slice_index numbers.now t) terminals.now) }
{
    let mut list = Vec::with_capacity(alloc, terminals.len())?;
    for t in terminals {
        list.push(numbers[*t as usize])?;
    }
    Ok(ItemList::from_vec(list))
}
