//! What stands round the sections.

ghost use Rattle.text_out.specs.Gathers.{Gathers};
ghost use Rattle.stp_text.specs.Lines.{head_text, section_end, end_text};

use rst_outside::Sink;
use text_out::{Block, literal};

/// Writes the lines before the graph: the magic number, and a comment that names the program.
pub fn write_head<S: Sink>(block: &mut Block, sink: &mut S)
    ensures { Gathers (S.state sink.old) block.old head_text (S.state sink.new) block.new }
{
    literal(
        block,
        sink,
        b"33D32945 STP File, STP Format Version 1.0\n\nSECTION Comment\nName \"rst\"\nEND\n\n",
    );
}

/// Writes the end of a section, and an empty line.
pub fn write_section_end<S: Sink>(block: &mut Block, sink: &mut S)
    ensures { Gathers (S.state sink.old) block.old section_end (S.state sink.new) block.new }
{
    literal(block, sink, b"END\n\n");
}

/// Writes the last line.
pub fn write_end<S: Sink>(block: &mut Block, sink: &mut S)
    ensures { Gathers (S.state sink.old) block.old end_text (S.state sink.new) block.new }
{
    literal(block, sink, b"EOF\n");
}
