//! What the splits of a tree are on.

/// What a split is on: an edge or a vertex of the graph, by its number.
#[derive(Clone, Copy, Debug)]
pub enum SplitOn {
    /// Outside and inside say that the edge isn't in the root part of a network, or is.
    Edge(u32),
    /// Outside and inside say that the vertex is missed by a network, or met.
    Vertex(u32),
}
