//! The border of a set of vertices: the edges that have one end in it alone, found by whole words.

ghost use Rattle.std.specs.Prelude.{◌≡◌, ℕ, ◌+◌, ◌<◌, ◌≤◌, length};
ghost use Rattle.net_graph.specs.Graph.{Graph};
ghost use Rattle.tree_judge.specs.Borders.{MarksParted};

use net_graph::{NetGraph, VertexSet};

/// Edges of successive numbers, some of which a set of vertices parts.
#[derive(Clone, Copy)]
pub struct Run {
    /// The number of the first edge.
    pub edge: u32,
    /// Which edges the set may part: the first at the lowest bit. Neither arc of an edge whose bit is 0 enters the set.
    pub marks: u64,
}

/// How the edges of a graph are numbered: in runs of at most 64 successive edges each, of which a word tells those that
/// a set of vertices parts.
pub trait Border {
    /// The graph is numbered so.
    ghost is_of: { Graph → Self → Type 0 };

    /// How many runs the graph's edges make.
    ghost count: { Graph → Self → ℕ };

    /// How many edges of the graph stand before the run at a place.
    ghost before: { Graph → Self → ℕ → ℕ };

    /// How many runs there are, which have all edges.
    fn runs(&self, g: &NetGraph) -> u32
        requires { is_of g.now self.now }
        ensures count { result ≡ count g.now self.now }
        ensures none { before g.now self.now 0 ≡ 0 }
        ensures all { length g.now.edges ≤ before g.now self.now result };

    /// The run at a place, counted from 0, with the marks of the edges that a set of vertices parts.
    fn run(&self, g: &NetGraph, place: u32, members: &VertexSet) -> Run
        requires of { is_of g.now self.now }
        requires place { place < count g.now self.now }
        requires members { length members.now ≡ g.now.vertices }
        ensures first { result.edge ≡ before g.now self.now place }
        ensures within { before g.now self.now (place + 1) ≤ length g.now.edges }
        ensures parted { MarksParted g.now members.now result.marks result.edge
            (before g.now self.now (place + 1)) };
}
