//! The lines of an answer's text that name an edge or a vertex.

ghost use Rattle.std.specs.Prelude.{◌++◌, codes};
ghost use Rattle.text_out.specs.Gathers.{Gathers};
ghost use Rattle.answer_text.specs.declared.version.Version.TheVariants as version_of;
ghost use Rattle.answer_text.specs.LineKinds as line_of;
ghost use Rattle.answer_text.specs.Lines.{line_text, split_line};
ghost use Rattle.answer_text.specs.Words.{name_words, point_words};

use crate::label::{EdgeLabel, VertexLabel};
use crate::split::SplitName;
use crate::write::write_number;
use hanan_grid::EdgeName;
use points_in::Point;
use rst_outside::Sink;
use text_out::{Block, literal, signed};

// The line of an edge.
#[tactic(auto, using(text_out::specs::GatherLaws::pieces))]
pub(crate) fn write_edge<S: Sink>(block: &mut Block, sink: &mut S, label: &EdgeLabel)
    ensures { Gathers (S.state sink.old) block.old (line_text (line_of.Edge label.now)) (S.state sink.new) block.new }
{
    match label {
        EdgeLabel::Ends(name) => {
            write_name(block, sink, name);
            literal(block, sink, b"\n");
        }
        EdgeLabel::Number(number) => write_number(block, sink, b"", *number),
    }
}

/// Writes an edge's name: the coordinates of one end and of the other.
#[tactic(auto, using(text_out::specs::GatherLaws::pieces))]
pub fn write_name<S: Sink>(block: &mut Block, sink: &mut S, name: &EdgeName)
    ensures { Gathers (S.state sink.old) block.old (name_words name.now) (S.state sink.new) block.new }
{
    signed(block, sink, &name.x1);
    literal(block, sink, b" ");
    signed(block, sink, &name.y1);
    literal(block, sink, b" ");
    signed(block, sink, &name.x2);
    literal(block, sink, b" ");
    signed(block, sink, &name.y2);
}

// The line of a split, which says what it is on.
#[tactic(auto, using(text_out::specs::GatherLaws::pieces))]
pub(crate) fn write_split<S: Sink>(block: &mut Block, sink: &mut S, name: &SplitName)
    ensures { Gathers (S.state sink.old) block.old
        (line_text (split_line version_of.Two name.now))
        (S.state sink.new) block.new }
{
    match name {
        SplitName::Edge(edge) => {
            literal(block, sink, b"split edge ");
            write_edge(block, sink, edge);
        }
        SplitName::Vertex(vertex) => write_vertex(block, sink, vertex),
    }
}

// The line of a split on a vertex.
fn write_vertex<S: Sink>(block: &mut Block, sink: &mut S, label: &VertexLabel)
    ensures { Gathers (S.state sink.old) block.old
        (line_text (line_of.SplitVertex label.now))
        (S.state sink.new) block.new }
{
    match label {
        VertexLabel::At(point) => write_point(block, sink, point),
        VertexLabel::Number(number) => write_number(block, sink, b"split vertex ", *number),
    }
}

// The line of a split on the vertex of a point.
#[tactic(auto, using(text_out::specs::GatherLaws::pieces))]
fn write_point<S: Sink>(block: &mut Block, sink: &mut S, point: &Point)
    ensures { Gathers (S.state sink.old) block.old
        (codes "split vertex " ++ point_words point.now ++ codes "\n")
        (S.state sink.new) block.new }
{
    literal(block, sink, b"split vertex ");
    signed(block, sink, &point.x);
    literal(block, sink, b" ");
    signed(block, sink, &point.y);
    literal(block, sink, b"\n");
}
