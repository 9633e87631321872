//! Why bytes are no points and boxes, and what is said of it.

ghost use Rattle.obstacles_in.specs.Said.{obstacle_fault_text, obstacle_passes_limit, IsMemory};

use rst_outside::Sink;
use std::alloc::AllocError;
use text_in::{FormatFault, write_line};
use text_out::{Block, literal};

/// Why bytes are no points and boxes: the first fault of their lines, and of one line the first in this order; or,
/// where no line has one, `TooLarge`. Lines are counted from 1.
#[derive(Clone, Copy)]
pub enum ObstacleFault {
    /// The line is not in the format. A text that ends too soon fails in the line counted as one more than its line
    /// feeds, and one that goes on after its end in the line after it.
    BadLine(u64),
    /// The line asks for more than 50 points.
    TooManyPoints(u64),
    /// The line's point stands in an earlier one.
    RepeatedPoint(u64),
    /// The line asks for more than 25 boxes.
    TooManyBoxes(u64),
    /// The line's box has no width or no height: its second corner isn't above and to the right of its first one.
    BadBox(u64),
    /// A point lies strictly inside the line's box.
    PointInBox(u64),
    /// The lines through the points and along the sides of the boxes cross in more than 2,500 places.
    TooLarge {
        /// In how many.
        vertices: u32,
    },
    /// Want of memory.
    Memory(AllocError),
}

impl From<AllocError> for ObstacleFault {
    ghost use Rattle.std.specs.Prelude.{◌≡◌};
    ghost use Rattle.obstacles_in.specs.declared.fault.ObstacleFault.TheVariants.{Memory};

    ghost from_gives = { λ error fault. fault ≡ Memory error };

    fn from(error: AllocError) -> ObstacleFault {
        ObstacleFault::Memory(error)
    }
}

impl FormatFault for ObstacleFault {
    ghost text = { obstacle_fault_text };

    ghost passes_limit = { obstacle_passes_limit };

    ghost IsMemory = { IsMemory };

    fn passes_limit(&self) -> bool {
        matches!(
            self,
            ObstacleFault::TooManyPoints(_)
                | ObstacleFault::TooManyBoxes(_)
                | ObstacleFault::TooLarge { .. }
        )
    }

    fn write<S: Sink>(&self, block: &mut Block, sink: &mut S) {
        match self {
            ObstacleFault::BadLine(line) => write_line(
                block,
                sink,
                *line,
                b" is not in the format",
            ),
            ObstacleFault::TooManyPoints(line) => {
                write_line(block, sink, *line, b" asks for more than 50 points")
            }
            ObstacleFault::RepeatedPoint(line) => write_line(
                block,
                sink,
                *line,
                b" repeats a point",
            ),
            ObstacleFault::TooManyBoxes(line) => {
                write_line(block, sink, *line, b" asks for more than 25 boxes")
            }
            ObstacleFault::BadBox(line) => write_line(block, sink, *line, b" is no box"),
            ObstacleFault::PointInBox(line) => {
                write_line(block, sink, *line, b" has a point inside")
            }
            ObstacleFault::TooLarge { .. } => literal(block, sink, b"more than 2500 vertices"),
            ObstacleFault::Memory(_) => literal(block, sink, b"out of memory"),
        }
    }

    fn of_text(self) -> Result<ObstacleFault, AllocError> {
        match self {
            ObstacleFault::Memory(error) => Err(error),
            fault => Ok(fault),
        }
    }
}
