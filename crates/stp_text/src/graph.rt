//! The section of the graph.

ghost use Rattle.text_out.specs.Gathers.{Gathers};
ghost use Rattle.stp_text.specs.Lines.{graph_head, edge_line};

use rst_outside::Sink;
use text_out::{Block, literal, number};

/// Writes the first lines of the section: how many nodes and how many edges there are.
#[tactic(auto, using(text_out::specs::GatherLaws::pieces))]
pub fn write_graph_head<S: Sink>(block: &mut Block, sink: &mut S, nodes: u32, edges: usize)
    ensures { Gathers (S.state sink.old) block.old (graph_head nodes edges) (S.state sink.new) block.new }
{
    literal(block, sink, b"SECTION Graph\nNodes ");
    number(block, sink, nodes);
    literal(block, sink, b"\nEdges ");
    number(block, sink, edges);
    literal(block, sink, b"\n");
}

/// Writes the line of an edge: the nodes that it joins, counted from 1, and its length.
#[tactic(auto, using(text_out::specs::GatherLaws::pieces))]
pub fn write_edge<S: Sink>(block: &mut Block, sink: &mut S, i: u32, j: u32, length: u64)
    ensures { Gathers (S.state sink.old) block.old (edge_line i j length) (S.state sink.new) block.new }
{
    literal(block, sink, b"E ");
    number(block, sink, i);
    literal(block, sink, b" ");
    number(block, sink, j);
    literal(block, sink, b" ");
    number(block, sink, length);
    literal(block, sink, b"\n");
}
