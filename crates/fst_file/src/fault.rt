//! Why bytes are no file, and what is said of it.

ghost use Rattle.text_out.specs.Gathers.{Gathers};
ghost use Rattle.fst_file.specs.Said.{fst_fault_text, fst_passes_limit, IsMemory, length_text};

use rst_outside::Sink;
use std::alloc::AllocError;
use text_in::{FormatFault, write_line, write_total};
use text_out::{Block, literal, number};

/// Why bytes are no file between the phases: the first fault of their lines, and of one line the first in
/// this order, but for `TooLong`, which comes after the last point and before the next line. Lines are
/// counted from 1.
#[derive(Clone, Copy)]
pub enum FstFault {
    /// The line is not in the format. A text that ends too soon fails in the line counted as one more than
    /// its line feeds, and one that goes on after its end in the line after it.
    BadLine(u64),
    /// The line asks for more than 50 points.
    TooManyPoints(u64),
    /// The line's point stands in an earlier one.
    RepeatedPoint(u64),
    /// The lengths of the edges of the points' grid sum to more than 2^63 - 1.
    TooLong {
        /// The sum.
        total: u128,
    },
    /// The line asks for more than 20,000 trees.
    TooManyTrees(u64),
    /// The line's code is not in form for the points.
    NotInForm(u64),
    /// The line's code has another length.
    WrongLength {
        /// The line.
        line: u64,
        /// The length that it says.
        printed: u64,
        /// The length of its code.
        found: u64,
    },
    /// The line's tree doesn't come after the one before it in file order.
    OutOfOrder(u64),
    /// Want of memory.
    Memory(AllocError),
}

impl From<AllocError> for FstFault {
    ghost use Rattle.std.specs.Prelude.{◌≡◌};
    ghost use Rattle.fst_file.specs.declared.fault.FstFault.TheVariants.{Memory};

    ghost from_gives = { λ error fault. fault ≡ Memory error };

    fn from(error: AllocError) -> FstFault {
        FstFault::Memory(error)
    }
}

impl FormatFault for FstFault {
    ghost text = { fst_fault_text };

    ghost passes_limit = { fst_passes_limit };

    ghost IsMemory = { IsMemory };

    fn passes_limit(&self) -> bool {
        matches!(self, FstFault::TooManyPoints(_) | FstFault::TooManyTrees(_))
    }

    fn write<S: Sink>(&self, block: &mut Block, sink: &mut S) {
        match self {
            FstFault::BadLine(line) => write_line(block, sink, *line, b" is not in the format"),
            FstFault::TooManyPoints(line) => {
                write_line(block, sink, *line, b" asks for more than 50 points")
            }
            FstFault::RepeatedPoint(line) => write_line(block, sink, *line, b" repeats a point"),
            FstFault::TooLong { total } => write_total(block, sink, *total),
            FstFault::TooManyTrees(line) => {
                write_line(block, sink, *line, b" asks for more than 20000 trees")
            }
            FstFault::NotInForm(line) => write_line(block, sink, *line, b" is no full tree"),
            FstFault::WrongLength {
                line,
                printed,
                found,
            } => write_length(block, sink, *line, *printed, *found),
            FstFault::OutOfOrder(line) => write_line(block, sink, *line, b" is out of order"),
            FstFault::Memory(_) => literal(block, sink, b"out of memory"),
        }
    }

    fn of_text(self) -> Result<FstFault, AllocError> {
        match self {
            FstFault::Memory(error) => Err(error),
            fault => Ok(fault),
        }
    }
}

// Writes what is said of a line with another length than the tree's.
#[tactic(auto, using(text_out::specs::GatherLaws::pieces))]
fn write_length<S: Sink>(block: &mut Block, sink: &mut S, line: u64, printed: u64, found: u64)
    ensures { Gathers (S.state sink.old) block.old (length_text line printed found) (S.state sink.new) block.new }
{
    write_line(block, sink, line, b" says length ");
    number(block, sink, printed);
    literal(block, sink, b", found ");
    number(block, sink, found);
}
