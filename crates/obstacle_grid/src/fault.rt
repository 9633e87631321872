//! Why points and boxes have no graph of the suite, and what is said of it.

ghost use Rattle.obstacle_grid.specs.Said.{task_fault_text, task_passes_limit, IsMemory};

use graph_solve::write_total;
use rst_outside::Sink;
use std::alloc::AllocError;
use stp_format::write_number;
use text_in::FormatFault;
use text_out::{Block, literal};

/// Why points and boxes are no Steiner problem of the suite: the first of their faults in this order; or want of
/// memory.
#[derive(Clone, Copy)]
pub enum ObstacleTaskFault {
    /// The lengths of the allowed edges sum to more than 2^63 - 1.
    TooLong {
        /// The sum of the lengths.
        total: u128,
    },
    /// The place, counted from 0, of the first point that all allowed edges together don't join to the first point.
    Apart(u8),
    /// Want of memory.
    Memory(AllocError),
}

impl From<AllocError> for ObstacleTaskFault {
    ghost use Rattle.std.specs.Prelude.{◌≡◌};
    ghost use Rattle.obstacle_grid.specs.declared.fault.ObstacleTaskFault.TheVariants.{Memory};

    ghost from_gives = { λ error fault. fault ≡ Memory error };

    fn from(error: AllocError) -> ObstacleTaskFault {
        ObstacleTaskFault::Memory(error)
    }
}

impl FormatFault for ObstacleTaskFault {
    ghost text = { task_fault_text };

    ghost passes_limit = { task_passes_limit };

    ghost IsMemory = { IsMemory };

    fn passes_limit(&self) -> bool {
        false
    }

    fn write<S: Sink>(&self, block: &mut Block, sink: &mut S) {
        match self {
            ObstacleTaskFault::TooLong { total } => write_total(block, sink, *total),
            ObstacleTaskFault::Apart(place) => write_number(
                block,
                sink,
                b"the boxes leave point ",
                u32::from(*place),
                b" apart",
            ),
            ObstacleTaskFault::Memory(_) => literal(block, sink, b"out of memory"),
        }
    }

    fn of_text(self) -> Result<ObstacleTaskFault, AllocError> {
        match self {
            ObstacleTaskFault::Memory(error) => Err(error),
            fault => Ok(fault),
        }
    }
}
