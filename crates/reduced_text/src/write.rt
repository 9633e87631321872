//! The text of a reduction.

ghost use Rattle.std.specs.Prelude.{◌<◌, ◌≤◌, length, flat_map, All};
ghost use Rattle.rst_outside.specs.Sink.{Writes};
ghost use Rattle.text_out.specs.Gathers.{Gathers};
ghost use Rattle.net_graph.specs.Graph.{HasEndsBelow};
ghost use Rattle.net_graph.specs.Members.{members_of};
ghost use Rattle.reduced_text.specs.Text.{number_line, next_number, left_line, left_lines, forced_text, nodes_text, edges_text, end_text, left_text, reduced_text};

use crate::set_lines::{write_count, write_number, write_set};
use graph_reduce::{Originals, Reduced};
use net_graph::{Edge, NetGraph};
use rst_outside::{PutFault, Sink};
use text_out::{Block, finish, literal, number};

/// Writes the text of the reduction: the offset and the forced edges, and then the nodes, edges and terminals that are
/// left, with what they stand for. It takes no memory; on an `Err` the sink failed, and the text was cut short.
#[tactic(auto, using(text_out::specs::GatherLaws::pieces), unfolding(crate::specs::Text::reduced_text))]
pub fn write_reduced<S: Sink>(sink: &mut S, reduced: &Reduced) -> Result<(), PutFault>
    ensures { Writes (S.state sink.old) (reduced_text reduced.now) (S.state sink.new) result }
{
    let mut block = Block::new();
    write_forced(&mut block, sink, reduced);
    write_left(&mut block, sink, reduced);
    finish(block, sink)
}

// The first lines.
#[tactic(auto, using(text_out::specs::GatherLaws::pieces))]
fn write_forced<S: Sink>(block: &mut Block, sink: &mut S, reduced: &Reduced)
    ensures { Gathers (S.state sink.old) block.old (forced_text reduced.now) (S.state sink.new) block.new }
{
    literal(block, sink, b"rst reduced 1\n");
    write_count(block, sink, b"offset ", reduced.offset());
    write_set(block, sink, b"forced ", reduced.forced());
}

// The lines of what is left.
#[tactic(auto, using(text_out::specs::GatherLaws::pieces))]
fn write_left<S: Sink>(block: &mut Block, sink: &mut S, reduced: &Reduced)
    ensures { Gathers (S.state sink.old) block.old (left_text reduced.now) (S.state sink.new) block.new }
{
    write_nodes(block, sink, reduced);
    write_edges(block, sink, reduced);
    write_end(block, sink, reduced.graph());
}

// The lines of the nodes.
#[tactic(auto, using(text_out::specs::GatherLaws::pieces))]
fn write_nodes<S: Sink>(block: &mut Block, sink: &mut S, reduced: &Reduced)
    ensures { Gathers (S.state sink.old) block.old (nodes_text reduced.now) (S.state sink.new) block.new }
{
    write_count(block, sink, b"nodes ", reduced.origins().len() as u64);
    write_numbers(block, sink, reduced.origins());
}

// The lines of the edges.
#[tactic(auto, using(text_out::specs::GatherLaws::pieces))]
fn write_edges<S: Sink>(block: &mut Block, sink: &mut S, reduced: &Reduced)
    ensures { Gathers (S.state sink.old) block.old (edges_text reduced.now) (S.state sink.new) block.new }
{
    write_count(
        block,
        sink,
        b"edges ",
        u64::from(reduced.graph().edge_count()),
    );
    write_edge_lines(block, sink, reduced);
}

// The lines of the terminals, and the last line.
#[tactic(auto, using(text_out::specs::GatherLaws::pieces))]
fn write_end<S: Sink>(block: &mut Block, sink: &mut S, graph: &NetGraph)
    ensures { Gathers (S.state sink.old) block.old (end_text graph.now) (S.state sink.new) block.new }
{
    write_count(block, sink, b"terminals ", graph.terminal_count() as u64);
    write_terminals(block, sink, graph);
    literal(block, sink, b"end\n");
}

// The lines of numbers.
#[tactic(auto, using(text_out::specs::GatherLaws::pieces))]
fn write_numbers<S: Sink>(block: &mut Block, sink: &mut S, numbers: &[u32])
    requires { All (λ n. n < 4900) numbers.now }
    ensures { Gathers (S.state sink.old) block.old (flat_map number_line numbers.now) (S.state sink.new) block.new }
{
    for n in numbers {
        write_number(block, sink, *n);
    }
}

// The lines of the terminals.
fn write_terminals<S: Sink>(block: &mut Block, sink: &mut S, graph: &NetGraph)
    ensures { Gathers (S.state sink.old) block.old (flat_map number_line graph.now.terminals)
        (S.state sink.new) block.new }
{
    for place in 0..graph.terminal_count() {
        write_number(block, sink, graph.terminal(place));
    }
}

// The lines of the edges.
fn write_edge_lines<S: Sink>(block: &mut Block, sink: &mut S, reduced: &Reduced)
    ensures { Gathers (S.state sink.old) block.old (left_lines reduced.now.graph.edges reduced.now.originals)
        (S.state sink.new) block.new }
{
    for n in 0..reduced.graph().edge_count() {
        write_edge(block, sink, reduced.graph().edge(n), reduced.originals(n));
    }
}

// The line of an edge.
#[tactic(auto, using(text_out::specs::GatherLaws::pieces))]
fn write_edge<S: Sink>(block: &mut Block, sink: &mut S, edge: Edge, originals: &Originals)
    requires ends { HasEndsBelow 2500 edge }
    requires few { length originals.now ≤ 4900 }
    ensures { Gathers (S.state sink.old) block.old (left_line edge originals.now) (S.state sink.new) block.new }
{
    number(block, sink, edge.a.min(edge.b) + 1);
    literal(block, sink, b" ");
    number(block, sink, edge.a.max(edge.b) + 1);
    literal(block, sink, b" ");
    number(block, sink, edge.length);
    write_originals(block, sink, originals);
    literal(block, sink, b"\n");
}

// The original edges that an edge stands for, ascending, each behind a blank.
fn write_originals<S: Sink>(block: &mut Block, sink: &mut S, originals: &Originals)
    requires { length originals.now ≤ 4900 }
    ensures { Gathers (S.state sink.old) block.old (flat_map next_number (members_of originals.now))
        (S.state sink.new) block.new }
{
    for e in 0..originals.len() {
        if originals.has(e) {
            write_next(block, sink, e);
        }
    }
}

// A number behind others.
#[tactic(auto, using(text_out::specs::GatherLaws::pieces))]
fn write_next<S: Sink>(block: &mut Block, sink: &mut S, n: u32)
    requires { n < 4900 }
    ensures { Gathers (S.state sink.old) block.old (next_number n) (S.state sink.new) block.new }
{
    literal(block, sink, b" ");
    number(block, sink, n + 1);
}
