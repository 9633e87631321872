//! What an answer's text is about, and what its labels name there.

ghost use Rattle.std.specs.Prelude.{◌≡◌, ◌<◌, ◌+◌, ◌⊎◌, [], IfSome, IfNone, false, length, replicate};
ghost use Rattle.answer_text.specs.Reader.{Reads};
ghost use Rattle.cert_check.specs.Named.{in_graph, named_of, on_grid};
ghost use Rattle.cert_check.specs.Resolved.{IsLabelOfEdge, IsLabelOfVertex, LabelsNoEdge, LabelsNoVertex};

use answer_text::{EdgeLabel, EventReader, VertexLabel};
use hanan_grid::Grid;
use net_graph::{NetGraph, VertexSet};

/// What an answer's text is about: it decides how the text names edges and vertices.
#[derive(Clone, Copy)]
pub enum Subject<'a> {
    /// The grid of points, whose edges are named by their ends and whose vertices by their points.
    OnGrid(&'a Grid),
    /// A graph, whose edges and vertices are named by their numbers.
    InGraph(&'a NetGraph),
}

impl<'a> Subject<'a> {
    /// The graph whose edges and vertices are named.
    pub(crate) fn graph(self) -> &'a NetGraph
        ensures { result.now ≡ (named_of self.entry).graph }
    {
        match self {
            Subject::OnGrid(grid) => grid.graph(),
            Subject::InGraph(g) => g,
        }
    }

    /// A reader of its answer's text that was fed no byte, which keeps the set of a cut in the one that it is handed.
    pub(crate) fn reader(self, members: VertexSet) -> EventReader
        requires { members ≡ replicate (named_of self).graph.vertices false }
        ensures { Reads (named_of self.entry).form [] [] result }
    {
        match self {
            Subject::OnGrid(grid) => EventReader::begin(grid.graph().vertex_count(), members),
            Subject::InGraph(g) => EventReader::of_graph(g.edge_count(), g.vertex_count(), members),
        }
    }

    /// The number of the edge with a label, where there is one.
    pub(crate) fn edge_labelled(self, label: &EdgeLabel) -> Option<u32>
        ensures edge { IfSome result (IsLabelOfEdge (named_of self.entry) label.now) }
        ensures none { IfNone result (LabelsNoEdge (named_of self.entry) label.now) }
    {
        match self {
            Subject::OnGrid(grid) => edge_of_grid(grid, label),
            Subject::InGraph(g) => edge_of_graph(g, label),
        }
    }

    /// The number of the vertex with a label, where there is one.
    pub(crate) fn vertex_labelled(self, label: &VertexLabel) -> Option<u32>
        ensures vertex { IfSome result (IsLabelOfVertex (named_of self.entry) label.now) }
        ensures none { IfNone result (LabelsNoVertex (named_of self.entry) label.now) }
    {
        match self {
            Subject::OnGrid(grid) => vertex_of_grid(grid, label),
            Subject::InGraph(g) => vertex_of_graph(g, label),
        }
    }
}

// The number of the edge of the grid with a label, where there is one.
fn edge_of_grid(grid: &Grid, label: &EdgeLabel) -> Option<u32>
    ensures edge { IfSome result (IsLabelOfEdge (on_grid grid.now) label.now) }
    ensures none { IfNone result (LabelsNoEdge (on_grid grid.now) label.now) }
{
    match label {
        EdgeLabel::Ends(name) => grid.edge_named(name),
        EdgeLabel::Number(_) => None,
    }
}

// The number of the vertex of the grid with a label, where there is one.
fn vertex_of_grid(grid: &Grid, label: &VertexLabel) -> Option<u32>
    ensures vertex { IfSome result (IsLabelOfVertex (on_grid grid.now) label.now) }
    ensures none { IfNone result (LabelsNoVertex (on_grid grid.now) label.now) }
{
    match label {
        VertexLabel::At(point) => grid.vertex_at(*point),
        VertexLabel::Number(_) => None,
    }
}

// The number of the edge of the graph with a label, where there is one.
fn edge_of_graph(g: &NetGraph, label: &EdgeLabel) -> Option<u32>
    ensures edge { IfSome result (IsLabelOfEdge (in_graph g.now) label.now) }
    ensures none { IfNone result (LabelsNoEdge (in_graph g.now) label.now) }
{
    match label {
        EdgeLabel::Ends(_) => None,
        EdgeLabel::Number(n) => place_of(*n, g.edge_count()),
    }
}

// The number of the vertex of the graph with a label, where there is one.
fn vertex_of_graph(g: &NetGraph, label: &VertexLabel) -> Option<u32>
    ensures vertex { IfSome result (IsLabelOfVertex (in_graph g.now) label.now) }
    ensures none { IfNone result (LabelsNoVertex (in_graph g.now) label.now) }
{
    match label {
        VertexLabel::At(_) => None,
        VertexLabel::Number(n) => place_of(*n, g.vertex_count()),
    }
}

// The number counted from 0 of what has the number n counted from 1, where there are so many.
fn place_of(n: u32, count: u32) -> Option<u32>
    ensures place { IfSome result (λ place. (place < count) × (place + 1 ≡ n)) }
    ensures none { IfNone result ((n ≡ 0) ⊎ (count < n)) }
{
    if n == 0 || n > count {
        return None;
    }
    Some(n - 1)
}
