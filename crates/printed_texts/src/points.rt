//! Lists of points.

ghost use Rattle.rst_outside.specs.Sink.{Writes};
ghost use Rattle.text_out.specs.Gathers.{Gathers};
ghost use Rattle.points_in.specs.Text.{point_line, points_text};
ghost use Rattle.printed_texts.specs.Trees.{point_text};

use drawn_points::Drawn;
use points_in::{Point, Points};
use rst_outside::{PutFault, Sink};
use text_out::{Block, finish, literal, signed};

/// Writes drawn points, repeats among them, one a line. It takes no memory; on an `Err` the sink failed, and the text
/// was cut short.
#[tactic(auto, using(text_out::specs::GatherLaws::pieces))]
pub fn dump_points<S: Sink>(sink: &mut S, list: &Drawn) -> Result<(), PutFault>
    ensures { Writes (S.state sink.old) (points_text list.now) (S.state sink.new) result }
{
    let mut block = Block::new();
    write_points(&mut block, sink, list.as_slice());
    finish(block, sink)
}

/// Writes distinct points, one a line. It takes no memory; on an `Err` the sink failed, and the text was cut short.
#[tactic(auto, using(text_out::specs::GatherLaws::pieces))]
pub fn dump_distinct<S: Sink>(sink: &mut S, points: &Points) -> Result<(), PutFault>
    ensures { Writes (S.state sink.old) (points_text points.now) (S.state sink.new) result }
{
    let mut block = Block::new();
    write_points(&mut block, sink, points.as_slice());
    finish(block, sink)
}

// The lines of points.
#[tactic(auto, using(text_out::specs::GatherLaws::pieces))]
fn write_points<S: Sink>(block: &mut Block, sink: &mut S, points: &[Point])
    ensures { Gathers (S.state sink.old) block.old (points_text points.now) (S.state sink.new) block.new }
{
    for point in points {
        write_line(block, sink, point);
    }
}

// The line of a point.
#[tactic(auto, using(text_out::specs::GatherLaws::pieces))]
fn write_line<S: Sink>(block: &mut Block, sink: &mut S, point: &Point)
    ensures { Gathers (S.state sink.old) block.old (point_line point.now) (S.state sink.new) block.new }
{
    write_point(block, sink, point);
    literal(block, sink, b"\n");
}

// A point by its coordinates.
#[tactic(auto, using(text_out::specs::GatherLaws::pieces))]
pub(crate) fn write_point<S: Sink>(block: &mut Block, sink: &mut S, point: &Point)
    ensures { Gathers (S.state sink.old) block.old (point_text point.now) (S.state sink.new) block.new }
{
    signed(block, sink, &point.x);
    literal(block, sink, b" ");
    signed(block, sink, &point.y);
}
