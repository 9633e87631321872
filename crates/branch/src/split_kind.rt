//! What a search splits its leaves on.

/// What a search splits its leaves on: what it asks of the networks below a leaf.
#[derive(Clone, Copy)]
pub enum SplitKind {
    /// Edges alone: is the edge in the network's root part?
    Edges,
    /// Vertices, where one may be asked for, and else edges: does the network reach the vertex?
    Vertices,
}
