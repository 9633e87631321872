//! Which answers a text tells, and how it names edges and vertices.

/// The two families of answers' texts (this project's own formats), each with the sizes that its readers know.
#[derive(Clone, Copy)]
pub enum Form {
    /// An answer on a grid of so many vertices: its edges are named by their ends, its vertices by their points.
    OnGrid(u32),
    /// An answer in a graph with so many edges and so many vertices: both are named by numbers, counted from 1.
    OfGraph(u32, u32),
}
