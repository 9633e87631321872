//! The section of the terminals.

ghost use Rattle.text_out.specs.Gathers.{Gathers};
ghost use Rattle.stp_text.specs.Lines.{terminals_head, terminal_line};

use rst_outside::Sink;
use text_out::{Block, literal, number};

/// Writes the first lines of the section: how many terminals there are.
#[tactic(auto, using(text_out::specs::GatherLaws::pieces))]
pub fn write_terminals_head<S: Sink>(block: &mut Block, sink: &mut S, count: usize)
    ensures { Gathers (S.state sink.old) block.old (terminals_head count) (S.state sink.new) block.new }
{
    literal(block, sink, b"SECTION Terminals\nTerminals ");
    number(block, sink, count);
    literal(block, sink, b"\n");
}

/// Writes the line of a terminal, by its node, counted from 1.
#[tactic(auto, using(text_out::specs::GatherLaws::pieces))]
pub fn write_terminal<S: Sink>(block: &mut Block, sink: &mut S, node: u32)
    ensures { Gathers (S.state sink.old) block.old (terminal_line node) (S.state sink.new) block.new }
{
    literal(block, sink, b"T ");
    number(block, sink, node);
    literal(block, sink, b"\n");
}
