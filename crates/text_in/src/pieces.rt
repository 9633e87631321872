//! What formats say alike.

ghost use Rattle.text_out.specs.Gathers.{Gathers};
ghost use Rattle.text_in.specs.Texts.{line_text, total_text};

use rst_outside::Sink;
use text_out::{Block, literal, number};

/// Writes what is said of a line, which counts from 1.
#[tactic(auto, using(text_out::specs::GatherLaws::pieces))]
pub fn write_line<S: Sink>(block: &mut Block, sink: &mut S, line: u64, said: &[u8])
    ensures { Gathers (S.state sink.old) block.old (line_text line said.now) (S.state sink.new) block.new }
{
    literal(block, sink, b"line ");
    number(block, sink, line);
    literal(block, sink, said);
}

/// Writes what is said of points' grid whose edges sum to this total, which is too great.
#[tactic(auto, using(text_out::specs::GatherLaws::pieces))]
pub fn write_total<S: Sink>(block: &mut Block, sink: &mut S, total: u128)
    ensures { Gathers (S.state sink.old) block.old (total_text total) (S.state sink.new) block.new }
{
    literal(block, sink, b"the grid is too long: ");
    number(block, sink, total);
}
