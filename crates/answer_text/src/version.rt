//! The versions of an answer's text.

/// A version of an answer's text, which its first line tells (this project's own format).
#[derive(Clone, Copy)]
pub enum Version {
    /// The first one on a grid: every split is on an edge, and its line is the name of the edge behind `split`.
    One,
    /// The second one on a grid: a split is on an edge or on a vertex, and its line says which behind `split`.
    Two,
    /// The one in a graph: its splits' lines are as in the second one on a grid, and it has no note on a concatenation.
    Graph,
}
