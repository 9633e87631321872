//! The section of the coordinates.

ghost use Rattle.text_out.specs.Gathers.{Gathers};
ghost use Rattle.stp_text.specs.Lines.{coordinates_head, located_line};

use points_in::Point;
use rst_outside::Sink;
use text_out::{Block, literal, number, signed};

/// Writes the first line of the section.
pub fn write_coordinates_head<S: Sink>(block: &mut Block, sink: &mut S)
    ensures { Gathers (S.state sink.old) block.old coordinates_head (S.state sink.new) block.new }
{
    literal(block, sink, b"SECTION Coordinates\n");
}

/// Writes the line of a node, counted from 1, and of the point where it lies.
#[tactic(auto, using(text_out::specs::GatherLaws::pieces))]
pub fn write_located<S: Sink>(block: &mut Block, sink: &mut S, node: u32, point: &Point)
    ensures { Gathers (S.state sink.old) block.old (located_line node point.now) (S.state sink.new) block.new }
{
    literal(block, sink, b"DD ");
    number(block, sink, node);
    literal(block, sink, b" ");
    signed(block, sink, &point.x);
    literal(block, sink, b" ");
    signed(block, sink, &point.y);
    literal(block, sink, b"\n");
}
