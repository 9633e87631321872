//! The text of a graph as an STP file.

ghost use Rattle.std.specs.Prelude.{◌++◌, flat_map};
ghost use Rattle.rst_outside.specs.Sink.{Writes};
ghost use Rattle.text_out.specs.Gathers.{Gathers};
ghost use Rattle.net_graph.specs.Graph.{HasEndsBelow};
ghost use Rattle.obstacle_grid.specs.Text.{edge_text, graph_text, terminal_text, terminals_text, graph_stp_text};

use net_graph::{Edge, NetGraph};
use rst_outside::{PutFault, Sink};
use stp_text::{
    write_edge, write_end, write_graph_head, write_head, write_section_end, write_terminal,
    write_terminals_head,
};
use text_out::{Block, finish};

/// Writes the graph as an STP file without coordinates: node v + 1 is the vertex v, edges stand in ascending number
/// with the end of the lower number first, and terminals in their order. It takes no memory; on an `Err` the sink
/// failed, and the text was cut short.
#[tactic(auto, using(text_out::specs::GatherLaws::pieces), unfolding(crate::specs::Text::graph_stp_text))]
pub fn write_graph_stp<S: Sink>(sink: &mut S, g: &NetGraph) -> Result<(), PutFault>
    ensures { Writes (S.state sink.old) (graph_stp_text g.now) (S.state sink.new) result }
{
    let mut block = Block::new();
    write_head(&mut block, sink);
    write_sections(&mut block, sink, g);
    write_end(&mut block, sink);
    finish(block, sink)
}

// The sections behind the comment.
#[tactic(auto, using(text_out::specs::GatherLaws::pieces))]
fn write_sections<S: Sink>(block: &mut Block, sink: &mut S, g: &NetGraph)
    ensures { Gathers (S.state sink.old) block.old (graph_text g.now ++ terminals_text g.now)
        (S.state sink.new) block.new }
{
    write_graph(block, sink, g);
    write_terminals(block, sink, g);
}

// The section of the graph.
#[tactic(auto, using(text_out::specs::GatherLaws::pieces))]
fn write_graph<S: Sink>(block: &mut Block, sink: &mut S, g: &NetGraph)
    ensures { Gathers (S.state sink.old) block.old (graph_text g.now) (S.state sink.new) block.new }
{
    write_graph_head(block, sink, g.vertex_count(), g.edges().len());
    write_edges(block, sink, g);
    write_section_end(block, sink);
}

// The lines of the edges.
fn write_edges<S: Sink>(block: &mut Block, sink: &mut S, g: &NetGraph)
    ensures { Gathers (S.state sink.old) block.old (flat_map edge_text g.now.edges) (S.state sink.new) block.new }
{
    for n in 0..g.edge_count() {
        write_between(block, sink, g.edge(n));
    }
}

// The line of an edge, whose end of the lower number stands first.
fn write_between<S: Sink>(block: &mut Block, sink: &mut S, edge: Edge)
    requires { HasEndsBelow 2500 edge }
    ensures { Gathers (S.state sink.old) block.old (edge_text edge) (S.state sink.new) block.new }
{
    let low = edge.a.min(edge.b);
    let high = edge.a.max(edge.b);
    write_edge(block, sink, low + 1, high + 1, edge.length);
}

// The section of the terminals.
#[tactic(auto, using(text_out::specs::GatherLaws::pieces))]
fn write_terminals<S: Sink>(block: &mut Block, sink: &mut S, g: &NetGraph)
    ensures { Gathers (S.state sink.old) block.old (terminals_text g.now) (S.state sink.new) block.new }
{
    write_terminals_head(block, sink, g.terminal_count());
    write_terminal_lines(block, sink, g);
    write_section_end(block, sink);
}

// The lines of the terminals.
fn write_terminal_lines<S: Sink>(block: &mut Block, sink: &mut S, g: &NetGraph)
    ensures { Gathers (S.state sink.old) block.old (flat_map terminal_text g.now.terminals)
        (S.state sink.new) block.new }
{
    for place in 0..g.terminal_count() {
        write_terminal(block, sink, g.terminal(place) + 1);
    }
}
