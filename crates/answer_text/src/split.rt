//! What a split of an answer's text is on.

use crate::label::{EdgeLabel, VertexLabel};

/// What a split is on, as the text names it.
#[derive(Clone, Copy, Debug)]
pub enum SplitName {
    /// An edge: whether a network has it.
    Edge(EdgeLabel),
    /// A vertex: whether a network reaches it. Version 1 of the text on a grid has no such splits.
    Vertex(VertexLabel),
}
