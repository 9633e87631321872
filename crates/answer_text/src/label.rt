//! How an answer's text names an edge and a vertex.

use hanan_grid::EdgeName;
use points_in::Point;

/// The name of an edge in an answer's text.
#[derive(Clone, Copy, Debug)]
pub enum EdgeLabel {
    /// Its two ends: on a grid.
    Ends(EdgeName),
    /// Its number, counted from 1: in a graph.
    Number(u32),
}

/// The name of a vertex in an answer's text.
#[derive(Clone, Copy, Debug)]
pub enum VertexLabel {
    /// Its point: on a grid.
    At(Point),
    /// Its number, counted from 1: in a graph.
    Number(u32),
}
