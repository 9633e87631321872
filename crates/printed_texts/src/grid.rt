//! Hanan's grid of points, as an STP file.

ghost use Rattle.std.specs.Prelude.{flat_map};
ghost use Rattle.std.specs.List.{range_with_len};
ghost use Rattle.rst_outside.specs.Sink.{Writes};
ghost use Rattle.text_out.specs.Gathers.{Gathers};
ghost use Rattle.hanan_grid.specs.Grid.{hanan_grid_of};
ghost use Rattle.printed_texts.specs.Grid.{edge_between, graph_text, terminal_at, terminals_text, vertex_line, coordinates_text, grid_sections_text, grid_stp_text};

use hanan_grid::Grid;
use net_graph::NetGraph;
use rst_outside::{PutFault, Sink};
use stp_text::{
    write_coordinates_head, write_edge, write_end, write_graph_head, write_head, write_located,
    write_section_end, write_terminal, write_terminals_head,
};
use text_out::{Block, finish};

/// Writes the grid of points as an STP file: node v + 1 is the vertex v, edges stand in ascending number, terminals
/// in the points' order, and each vertex has its coordinates. It takes no memory; on an `Err` the sink failed, and
/// the text was cut short.
#[tactic(auto, using(text_out::specs::GatherLaws::pieces), unfolding(crate::specs::Grid::grid_stp_text))]
pub fn grid_as_stp<S: Sink>(sink: &mut S, grid: &Grid) -> Result<(), PutFault>
    ensures { Writes (S.state sink.old) (grid_stp_text grid.now) (S.state sink.new) result }
{
    let mut block = Block::new();
    write_head(&mut block, sink);
    write_sections(&mut block, sink, grid);
    write_end(&mut block, sink);
    finish(block, sink)
}

// The sections behind the comment.
#[tactic(auto, using(text_out::specs::GatherLaws::pieces))]
fn write_sections<S: Sink>(block: &mut Block, sink: &mut S, grid: &Grid)
    ensures { Gathers (S.state sink.old) block.old (grid_sections_text grid.now) (S.state sink.new) block.new }
{
    write_graph(block, sink, grid.graph());
    write_terminals(block, sink, grid.graph());
    write_vertices(block, sink, grid);
}

// The section of the graph.
#[tactic(auto, using(text_out::specs::GatherLaws::pieces))]
fn write_graph<S: Sink>(block: &mut Block, sink: &mut S, graph: &NetGraph)
    ensures { Gathers (S.state sink.old) block.old (graph_text graph.now) (S.state sink.new) block.new }
{
    write_graph_head(block, sink, graph.vertex_count(), graph.edges().len());
    write_edges(block, sink, graph);
    write_section_end(block, sink);
}

// The lines of the edges.
fn write_edges<S: Sink>(block: &mut Block, sink: &mut S, graph: &NetGraph)
    ensures { Gathers (S.state sink.old) block.old (flat_map edge_between graph.now.edges)
        (S.state sink.new) block.new }
{
    for n in 0..graph.edge_count() {
        let edge = graph.edge(n);
        write_edge(block, sink, edge.a + 1, edge.b + 1, edge.length);
    }
}

// The section of the terminals.
#[tactic(auto, using(text_out::specs::GatherLaws::pieces))]
fn write_terminals<S: Sink>(block: &mut Block, sink: &mut S, graph: &NetGraph)
    ensures { Gathers (S.state sink.old) block.old (terminals_text graph.now) (S.state sink.new) block.new }
{
    write_terminals_head(block, sink, graph.terminal_count());
    write_terminal_lines(block, sink, graph);
    write_section_end(block, sink);
}

// The lines of the terminals.
fn write_terminal_lines<S: Sink>(block: &mut Block, sink: &mut S, graph: &NetGraph)
    ensures { Gathers (S.state sink.old) block.old (flat_map terminal_at graph.now.terminals)
        (S.state sink.new) block.new }
{
    for place in 0..graph.terminal_count() {
        write_terminal(block, sink, graph.terminal(place) + 1);
    }
}

// The section of the coordinates.
#[tactic(auto, using(text_out::specs::GatherLaws::pieces))]
fn write_vertices<S: Sink>(block: &mut Block, sink: &mut S, grid: &Grid)
    ensures { Gathers (S.state sink.old) block.old (coordinates_text grid.now) (S.state sink.new) block.new }
{
    write_coordinates_head(block, sink);
    write_vertex_lines(block, sink, grid);
    write_section_end(block, sink);
}

// The lines of the vertices.
#[tactic(auto, using(text_out::specs::GatherLaws::pieces))]
fn write_vertex_lines<S: Sink>(block: &mut Block, sink: &mut S, grid: &Grid)
    ensures { Gathers (S.state sink.old) block.old
        (flat_map (vertex_line grid.now) (range_with_len 0 (hanan_grid_of grid.now).vertices))
        (S.state sink.new) block.new }
{
    for vertex in 0..grid.graph().vertex_count() {
        write_located(block, sink, vertex + 1, &grid.vertex_point(vertex));
    }
}
