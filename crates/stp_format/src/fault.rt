//! Why bytes are no STP file, and why a file gives no points; and what is said of it.

ghost use Rattle.std.specs.Prelude.{◌≡◌};
ghost use Rattle.text_out.specs.Gathers.{Gathers};
ghost use Rattle.stp_format.specs.Said.{section_name, section_text, number_text, stp_fault_text, stp_passes_limit, IsMemory};

use rst_outside::Sink;
use std::alloc::AllocError;
use text_in::{FormatFault, write_line};
use text_out::{Block, literal, number};

/// A section of which a fault can speak.
#[derive(Clone, Copy)]
pub enum StpSection {
    /// The nodes and the edges.
    Graph,
    /// The nodes to be joined.
    Terminals,
    /// The points of nodes.
    Coordinates,
}

/// The first fault of the lines of an STP file, or the first reason why its terminals give no points, or want of
/// memory. Lines and nodes are counted from 1.
#[derive(Clone, Copy)]
pub enum StpFault {
    /// The first line doesn't begin with the format's number.
    NoMagic,
    /// The line is not in the format. A text without an end has its fault in the line counted as one more than
    /// its line feeds.
    BadLine(u64),
    /// The line has what STP has, but this profile has not.
    LeftOut(u64),
    /// The line names a node below 1 or above the count of the nodes.
    NodeOutOfRange(u64),
    /// The section has more or fewer lines than it says.
    WrongCount(StpSection),
    /// The section is missing, or stands behind one that needs it.
    MissingSection(StpSection),
    /// There is no terminal.
    NoTerminals,
    /// The terminal has no point.
    NoCoordinates(u32),
    /// The terminal's point is the 51st distinct one.
    TooManyPoints(u32),
    /// Want of memory.
    Memory(AllocError),
}

impl From<AllocError> for StpFault {
    ghost use Rattle.std.specs.Prelude.{◌≡◌};
    ghost use Rattle.stp_format.specs.declared.fault.StpFault.TheVariants.{Memory};

    ghost from_gives = { λ error fault. fault ≡ Memory error };

    fn from(error: AllocError) -> StpFault {
        StpFault::Memory(error)
    }
}

impl FormatFault for StpFault {
    ghost text = { stp_fault_text };

    ghost passes_limit = { stp_passes_limit };

    ghost IsMemory = { IsMemory };

    fn passes_limit(&self) -> bool {
        matches!(self, StpFault::TooManyPoints(_))
    }

    fn write<S: Sink>(&self, block: &mut Block, sink: &mut S) {
        match self {
            StpFault::NoMagic => literal(block, sink, b"not an STP file"),
            StpFault::BadLine(line) => write_line(block, sink, *line, b" is not in the format"),
            StpFault::LeftOut(line) => {
                write_line(block, sink, *line, b" is left out of this profile")
            }
            StpFault::NodeOutOfRange(line) => write_line(block, sink, *line, b" names no node"),
            StpFault::WrongCount(section) => {
                write_section(block, sink, *section, b" has a wrong count")
            }
            StpFault::MissingSection(section) => {
                write_section(block, sink, *section, b" is missing")
            }
            StpFault::NoTerminals => literal(block, sink, b"no terminals"),
            StpFault::NoCoordinates(node) => {
                write_number(block, sink, b"node ", *node, b" has no coordinates")
            }
            StpFault::TooManyPoints(node) => {
                write_number(block, sink, b"more than 50 points at node ", *node, b"")
            }
            StpFault::Memory(_) => literal(block, sink, b"out of memory"),
        }
    }

    fn of_text(self) -> Result<StpFault, AllocError> {
        match self {
            StpFault::Memory(error) => Err(error),
            fault => Ok(fault),
        }
    }
}

// Writes what is said of a section.
#[tactic(auto, using(text_out::specs::GatherLaws::pieces))]
fn write_section<S: Sink>(block: &mut Block, sink: &mut S, section: StpSection, said: &[u8])
    ensures { Gathers (S.state sink.old) block.old (section_text section said.now) (S.state sink.new) block.new }
{
    literal(block, sink, b"section ");
    literal(block, sink, name_of(section));
    literal(block, sink, said);
}

/// Writes what is said of a number.
#[tactic(auto, using(text_out::specs::GatherLaws::pieces))]
pub fn write_number<S: Sink>(block: &mut Block, sink: &mut S, before: &[u8], n: u32, after: &[u8])
    ensures { Gathers (S.state sink.old) block.old (number_text before.now n after.now)
        (S.state sink.new) block.new }
{
    literal(block, sink, before);
    number(block, sink, n);
    literal(block, sink, after);
}

// The name of a section.
fn name_of(section: StpSection) -> &'static [u8]
    ensures { result.now ≡ section_name section }
{
    match section {
        StpSection::Graph => b"Graph",
        StpSection::Terminals => b"Terminals",
        StpSection::Coordinates => b"Coordinates",
    }
}
