//! Edges, and lists of edges and of vertices.

use lists::ItemList;

/// An edge between two vertices, which are given by their numbers, with its length.
#[derive(Clone, Copy)]
pub struct Edge {
    pub a: u32,
    pub b: u32,
    pub length: u64,
}

/// A list of edges. An edge's number is its place.
pub type EdgeList = ItemList<Edge>;

/// A list of vertices, each by its number.
pub type VertexList = ItemList<u32>;
