//! Writing a file.

ghost use Rattle.std.specs.Prelude.{flat_map, Some};
ghost use Rattle.text_out.specs.Gathers.{Gathers};
ghost use Rattle.rst_outside.specs.Sink.{Writes};
ghost use Rattle.stp_text.specs.Lines.{edge_line, terminal_line, located_line};
ghost use Rattle.stp_format.specs.Text.{graph_text, terminals_text, coordinates_text, sections_text, stp_text};

use crate::edge::StpEdge;
use crate::file::StpFile;
use points_in::Point;
use rst_outside::{PutFault, Sink};
use std::collections::BTreeMap;
use stp_text::{
    write_coordinates_head, write_edge, write_end, write_graph_head, write_head, write_located,
    write_section_end, write_terminal, write_terminals_head,
};
use text_out::{Block, finish};

/// Writes the text of a file, with the points in ascending order of their nodes. It takes no memory. An `Err`
/// says that the sink failed, and that a proper prefix of the text was written. No tool calls it.
#[tactic(auto, using(text_out::specs::GatherLaws::pieces))]
pub fn write_stp<S: Sink>(sink: &mut S, file: &StpFile) -> Result<(), PutFault>
    ensures { Writes (S.state sink.old) (stp_text file.now) (S.state sink.new) result }
{
    let mut block = Block::new();
    write_head(&mut block, sink);
    write_sections(&mut block, sink, file);
    write_end(&mut block, sink);
    finish(block, sink)
}

// The sections that hold the value.
#[tactic(auto, using(text_out::specs::GatherLaws::pieces))]
fn write_sections<S: Sink>(block: &mut Block, sink: &mut S, file: &StpFile)
    ensures { Gathers (S.state sink.old) block.old (sections_text file.now) (S.state sink.new) block.new }
{
    write_graph(block, sink, file);
    write_terminals(block, sink, file);
    write_coordinates(block, sink, file);
}

// The Graph section.
#[tactic(auto, using(text_out::specs::GatherLaws::pieces))]
fn write_graph<S: Sink>(block: &mut Block, sink: &mut S, file: &StpFile)
    ensures { Gathers (S.state sink.old) block.old (graph_text file.now.nodes file.now.edges)
        (S.state sink.new) block.new }
{
    let edges = file.edges();
    write_graph_head(block, sink, file.nodes(), edges.len());
    write_edges(block, sink, edges);
    write_section_end(block, sink);
}

// The lines of the edges.
#[tactic(auto, using(text_out::specs::GatherLaws::pieces))]
fn write_edges<S: Sink>(block: &mut Block, sink: &mut S, edges: &[StpEdge])
    ensures { Gathers (S.state sink.old) block.old (flat_map (λ e. edge_line e.i e.j e.length) edges.now)
        (S.state sink.new) block.new }
{
    for edge in edges {
        write_edge(block, sink, edge.i, edge.j, edge.length);
    }
}

// The Terminals section.
#[tactic(auto, using(text_out::specs::GatherLaws::pieces))]
fn write_terminals<S: Sink>(block: &mut Block, sink: &mut S, file: &StpFile)
    ensures { Gathers (S.state sink.old) block.old (terminals_text file.now.terminals)
        (S.state sink.new) block.new }
{
    let terminals = file.terminals();
    write_terminals_head(block, sink, terminals.len());
    write_terminal_lines(block, sink, terminals);
    write_section_end(block, sink);
}

// The lines of the terminals.
#[tactic(auto, using(text_out::specs::GatherLaws::pieces))]
fn write_terminal_lines<S: Sink>(block: &mut Block, sink: &mut S, terminals: &[u32])
    ensures { Gathers (S.state sink.old) block.old (flat_map terminal_line terminals.now)
        (S.state sink.new) block.new }
{
    for node in terminals {
        write_terminal(block, sink, *node);
    }
}

// The Coordinates section, where there is one.
#[tactic(auto, using(text_out::specs::GatherLaws::pieces))]
fn write_coordinates<S: Sink>(block: &mut Block, sink: &mut S, file: &StpFile)
    ensures { Gathers (S.state sink.old) block.old (coordinates_text file.now.coordinates)
        (S.state sink.new) block.new }
{
    if let Some(points) = file.located() {
        write_points(block, sink, points.as_map());
    }
}

// The Coordinates section of points.
#[tactic(auto, using(text_out::specs::GatherLaws::pieces))]
fn write_points<S: Sink>(block: &mut Block, sink: &mut S, points: &BTreeMap<u32, Point>)
    ensures { Gathers (S.state sink.old) block.old (coordinates_text (Some points.now.entries))
        (S.state sink.new) block.new }
{
    write_coordinates_head(block, sink);
    write_point_lines(block, sink, points);
    write_section_end(block, sink);
}

// The lines of the points.
#[tactic(auto, using(text_out::specs::GatherLaws::pieces))]
fn write_point_lines<S: Sink>(block: &mut Block, sink: &mut S, points: &BTreeMap<u32, Point>)
    ensures { Gathers (S.state sink.old) block.old (flat_map (λ l. located_line l.0 l.1) points.now.entries)
        (S.state sink.new) block.new }
{
    for (node, point) in points {
        write_located(block, sink, *node, point);
    }
}
