//! The edges of a node, as far as a rule wants them.

/// The places of a node's edges, as far as a rule wants them.
#[derive(Clone, Copy)]
pub(crate) enum NodeEdges {
    /// The node has no edge.
    NoEdge,
    /// It has one.
    OneEdge(u32),
    /// It has two, the earlier first.
    TwoEdges(u32, u32),
    /// It has more.
    More,
}
