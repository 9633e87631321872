//! Networks along paths that are shortest in other lengths.

ghost use Rattle.std.specs.Prelude.{◌≡◌, length, IfOk};

use crate::access::at;
use crate::path_network::propose_network;
use net_graph::{Edge, EdgeList, EdgeSet, GraphFault, NetGraph, VertexList};
use std::alloc::{AllocError, Global};

// An edge of which networks have all is as long as so many hundredths of its length, one of which they have nothing as
// so many.
const LEAST_PERCENT: u64 = 5;

const MOST_PERCENT: u64 = 105;

// Lengths are changed by up to so many hundredths up or down, by a draw.
const NOISE: u64 = 10;

// Changed lengths are counted in hundredths of hundredths where the lengths sum to less than this, and else in as many
// times as much as their sum is greater: so the sum stays below 2^63.
const MOST_TOTAL: u64 = 1 << 49;

/// A network that grows along shortest paths from so many starts where the edges are shorter by shares in percent of
/// their lengths, and a little longer or shorter by a draw. That this is a network is not promised. The same arguments
/// give the same edges. An `Err` is want of memory.
pub fn propose_by_shares(
    alloc: Global,
    g: &NetGraph,
    shares: &[u32],
    draw: u32,
    starts: u32,
) -> Result<EdgeSet, AllocError>
    ensures { IfOk result (λ found. length found ≡ length g.now.edges) }
{
    let edges = shared_edges(alloc, g, shares, draw)?;
    let mut terminals = Vec::new(alloc);
    terminals.extend_from_slice(g.terminals())?;
    let terminals = VertexList::from_vec(terminals);
    match NetGraph::new(alloc, g.vertex_count(), edges, terminals) {
        Ok(changed) => propose_network(alloc, &changed, starts),
        Err(GraphFault::Memory(error)) => Err(error),
        // The lengths may sum to too much.
        Err(_) => EdgeSet::empty(alloc, g.edge_count()),
    }
}

// The edges with their lengths changed. An `Err` is want of memory.
fn shared_edges(
    alloc: Global,
    g: &NetGraph,
    shares: &[u32],
    draw: u32,
) -> Result<EdgeList, AllocError>
    ensures { IfOk result (λ list. length list ≡ length g.now.edges) }
{
    let mut list = EdgeList::empty(alloc);
    let unit = (g.total() / MOST_TOTAL).saturating_add(1);
    for number in 0..g.edge_count() {
        let edge = g.edge(number);
        let units = edge.length.checked_div(unit).unwrap_or(0);
        let length = shared_length(units, at(shares, number, 0), noise(number, draw));
        list.push(Edge { length, ..edge })?;
    }
    Ok(list)
}

// A length changed by a share and by some noise, both in percent.
fn shared_length(length: u64, share: u32, noise: u64) -> u64 {
    let left = MOST_PERCENT
        .saturating_sub(u64::from(share))
        .max(LEAST_PERCENT);
    length.saturating_mul(left).saturating_mul(noise).max(1)
}

// A drawn number of hundredths (by the mixing of splitmix64, Steele, Lea and Flood 2014).
fn noise(number: u32, draw: u32) -> u64 {
    let seed = u64::from(number).wrapping_mul(0x1_0000_0001).wrapping_add(
        u64::from(draw)
            .wrapping_add(1)
            .wrapping_mul(0x9e37_79b9_7f4a_7c15),
    );
    let mixed = (seed ^ seed.wrapping_shr(30)).wrapping_mul(0xbf58_476d_1ce4_e5b9);
    let mixed = (mixed ^ mixed.wrapping_shr(27)).wrapping_mul(0x94d0_49bb_1331_11eb);
    (mixed ^ mixed.wrapping_shr(31)) % (2 * NOISE + 1) + (100 - NOISE)
}
