//! The causes of a refusal, as they are told.

ghost use Rattle.text_out.specs.Gathers.{Gathers};
ghost use Rattle.verdict_line.specs.Verdicts.{cause_text_by, refusal, refusal_by, about_point};
ghost use Rattle.verdict_line.specs.Verdicts.{about_number, about_decided, about_decided_vertex, about_load};

use crate::counting::Counting;
use cert_check::Cause;
use rst_outside::Sink;
use text_in::write_line;
use text_out::{Block, literal, number};

/// Writes what is said of an answer for points that is refused, without the line feed.
pub fn write_refusal<O: Sink>(block: &mut Block, out: &mut O, cause: Cause)
    ensures { Gathers (O.state out.old) block.old (refusal cause) (O.state out.new) block.new }
{
    write_refusal_by(block, out, Counting::FromZero, cause);
}

/// Writes what is said of an answer that is refused, with edges and vertices so counted, and without the line feed.
#[tactic(auto, using(text_out::specs::GatherLaws::pieces))]
pub(crate) fn write_refusal_by<O: Sink>(
    block: &mut Block,
    out: &mut O,
    counting: Counting,
    cause: Cause,
)
    ensures { Gathers (O.state out.old) block.old (refusal_by counting cause) (O.state out.new) block.new }
{
    literal(block, out, b"refused ");
    write_cause(block, out, counting, cause);
}

// Why an answer is refused.
fn write_cause<O: Sink>(block: &mut Block, out: &mut O, counting: Counting, cause: Cause)
    ensures { Gathers (O.state out.old) block.old (cause_text_by counting cause) (O.state out.new) block.new }
{
    match cause {
        Cause::NotAnswer(line) => write_line(block, out, line, b" is not in the format"),
        Cause::OffGrid(line) => write_line(block, out, line, b" names no grid edge"),
        Cause::OffGridVertex(line) => { write_line(block, out, line, b" names no grid vertex") }
        Cause::EdgeOrder(line) => write_line(block, out, line, b" is out of order"),
        Cause::NotJoined(point) => write_about_point(block, out, point),
        Cause::WrongLength { printed, found } => {
            write_about_number(block, out, b"length", printed, found)
        }
        Cause::Decided { line, edge } => {
            write_about_decided(block, out, line, counting.told(edge))
        }
        Cause::DecidedVertex { line, vertex } => {
            write_about_decided_vertex(block, out, line, counting.told(vertex))
        }
        Cause::TooDeep(line) => write_line(block, out, line, b" is split 256"),
        Cause::RootInCut(line) => write_line(block, out, line, b" has the root in its cut"),
        Cause::IdleCut(line) => { write_line(block, out, line, b" cuts off no required vertex") }
        Cause::Overload {
            line,
            edge,
            load,
            room,
        } => write_about_load(block, out, line, counting.told(edge), load, room),
        Cause::WrongBound { printed, found } => {
            write_about_number(block, out, b"bound", printed, found)
        }
        Cause::WrongStatus => literal(block, out, b"status"),
    }
}

// What is said of a point that isn't joined.
#[tactic(auto, using(text_out::specs::GatherLaws::pieces))]
fn write_about_point<O: Sink>(block: &mut Block, out: &mut O, point: u8)
    ensures { Gathers (O.state out.old) block.old (about_point point) (O.state out.new) block.new }
{
    literal(block, out, b"point ");
    number(block, out, point);
    literal(block, out, b" is not joined");
}

// What is said of a number that the answer tells wrongly.
#[tactic(auto, using(text_out::specs::GatherLaws::pieces))]
fn write_about_number<O: Sink>(
    block: &mut Block,
    out: &mut O,
    name: &[u8],
    printed: u64,
    found: u64,
)
    ensures { Gathers (O.state out.old) block.old (about_number name.now printed found) (O.state out.new) block.new }
{
    literal(block, out, name);
    literal(block, out, b" says ");
    number(block, out, printed);
    literal(block, out, b", found ");
    number(block, out, found);
}

// What is said of a line that decides an edge which isn't undecided there.
#[tactic(auto, using(text_out::specs::GatherLaws::pieces))]
fn write_about_decided<O: Sink>(block: &mut Block, out: &mut O, line: u64, edge: u64)
    ensures { Gathers (O.state out.old) block.old (about_decided line edge) (O.state out.new) block.new }
{
    write_line(block, out, line, b" decides edge ");
    number(block, out, edge);
    literal(block, out, b" again");
}

// What is said of a line of a split on a vertex that isn't undecided there.
#[tactic(auto, using(text_out::specs::GatherLaws::pieces))]
fn write_about_decided_vertex<O: Sink>(block: &mut Block, out: &mut O, line: u64, vertex: u64)
    ensures { Gathers (O.state out.old) block.old (about_decided_vertex line vertex) (O.state out.new) block.new }
{
    write_line(block, out, line, b" splits on vertex ");
    number(block, out, vertex);
    literal(block, out, b", which is decided");
}

// What is said of a line whose cut loads an edge above its room.
#[tactic(auto, using(text_out::specs::GatherLaws::pieces))]
fn write_about_load<O: Sink>(
    block: &mut Block,
    out: &mut O,
    line: u64,
    edge: u64,
    load: u128,
    room: u64,
)
    ensures { Gathers (O.state out.old) block.old (about_load line edge load room) (O.state out.new) block.new }
{
    write_line(block, out, line, b" loads edge ");
    number(block, out, edge);
    literal(block, out, b" with ");
    number(block, out, load);
    literal(block, out, b" of ");
    number(block, out, room);
}
