//! What an answer's text is of: a graph whose edges and vertices have labels.

ghost use Rattle.std.specs.Prelude.{◌≡◌, ◌<◌, length};
ghost use Rattle.net_graph.specs.Graph.{Graph, IsGraph};
ghost use Rattle.hanan_grid.specs.Grid.{hanan_grid_of};
ghost use Rattle.answer_text.specs.declared.form.Form.{Form};
ghost use Rattle.answer_text.specs.declared.form.Form.TheVariants as form_of;
ghost use Rattle.answer_text.specs.Answers.{Labels, grid_labels, number_labels};
ghost use Rattle.answer_text.specs.Forms.{newest_of, set_size};
ghost use Rattle.answer_text.specs.Spelling.{FitsEdge, FitsVertex};

use crate::label::{EdgeLabel, VertexLabel};
use crate::version::Version;
use hanan_grid::Grid;
use net_graph::NetGraph;

/// A graph whose edges and vertices the text of an answer names: a grid, by their ends and points, or any graph, by
/// their numbers.
pub trait Labelled {
    /// The form of the text.
    ghost form: { Self → Form };

    /// The graph.
    ghost graph: { Self → Graph };

    /// The labels.
    ghost labels: { Self → Labels };

    /// The version that the text is written in.
    fn version(&self) -> Version
        ensures { result ≡ newest_of (form self.now) };

    /// How many edges have labels, at most 4,900.
    fn labelled_edges(&self) -> u32
        ensures count { result ≡ length (graph self.now).edges }
        ensures graph { IsGraph (graph self.now) }
        ensures size { set_size (form self.now) ≡ (graph self.now).vertices };

    /// The label of an edge.
    fn edge_label(&self, edge: u32) -> EdgeLabel
        requires { edge < length (graph self.now).edges }
        ensures label { result ≡ (labels self.now).edge edge }
        ensures fits { FitsEdge (form self.now) result };

    /// The label of a vertex.
    fn vertex_label(&self, vertex: u32) -> VertexLabel
        requires { vertex < (graph self.now).vertices }
        ensures label { result ≡ (labels self.now).vertex vertex }
        ensures fits { FitsVertex (form self.now) result };
}

impl Labelled for Grid {
    ghost form = { λ points. form_of.OnGrid (hanan_grid_of points).vertices };

    ghost graph = { λ points. hanan_grid_of points };

    ghost labels = { λ points. grid_labels points };

    fn version(&self) -> Version {
        Version::Two
    }

    fn labelled_edges(&self) -> u32 {
        self.graph().edge_count()
    }

    fn edge_label(&self, edge: u32) -> EdgeLabel {
        EdgeLabel::Ends(self.edge_name(edge))
    }

    fn vertex_label(&self, vertex: u32) -> VertexLabel {
        VertexLabel::At(self.vertex_point(vertex))
    }
}

impl Labelled for NetGraph {
    ghost form = { λ graph. form_of.OfGraph (length graph.edges) graph.vertices };

    ghost graph = { λ graph. graph };

    ghost labels = { λ graph. number_labels };

    fn version(&self) -> Version {
        Version::Graph
    }

    fn labelled_edges(&self) -> u32 {
        self.edge_count()
    }

    fn edge_label(&self, edge: u32) -> EdgeLabel {
        // A graph has few edges: the next number is within 32 bits.
        prove!(self.edge_count() <= 4900);
        EdgeLabel::Number(edge + 1)
    }

    fn vertex_label(&self, vertex: u32) -> VertexLabel {
        // A graph has few vertices too.
        prove!(self.vertex_count() <= 2500);
        VertexLabel::Number(vertex + 1)
    }
}
