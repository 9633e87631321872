//! Why an STP file is no Steiner problem of the suite, and what is said of it.

ghost use Rattle.text_out.specs.Gathers.{Gathers};
ghost use Rattle.graph_solve.specs.Said.{total_text, task_fault_text, task_passes_limit, IsMemory};

use rst_outside::Sink;
use std::alloc::AllocError;
use stp_format::write_number;
use text_in::FormatFault;
use text_out::{Block, literal, number};

/// Why an STP file is no Steiner problem of the suite: the first of its faults in this order; or want of memory. Nodes
/// and edges are counted from 1.
#[derive(Clone, Copy)]
pub enum TaskFault {
    /// There are more than 2,500 nodes.
    TooManyNodes,
    /// There are more than 4,900 edges.
    TooManyEdges,
    /// There are more than 255 distinct terminals.
    TooManyTerminals,
    /// There is no terminal.
    NoTerminals,
    /// The first edge of length 0.
    ZeroLength(u32),
    /// The lengths sum to more than 2^63 - 1.
    TooLong {
        /// The sum of the lengths.
        total: u128,
    },
    /// The node of the first terminal that all edges together don't join to the first terminal.
    Apart(u32),
    /// Want of memory.
    Memory(AllocError),
}

impl From<AllocError> for TaskFault {
    ghost use Rattle.std.specs.Prelude.{◌≡◌};
    ghost use Rattle.graph_solve.specs.declared.fault.TaskFault.TheVariants.{Memory};

    ghost from_gives = { λ error fault. fault ≡ Memory error };

    fn from(error: AllocError) -> TaskFault {
        TaskFault::Memory(error)
    }
}

impl FormatFault for TaskFault {
    ghost text = { task_fault_text };

    ghost passes_limit = { task_passes_limit };

    ghost IsMemory = { IsMemory };

    fn passes_limit(&self) -> bool {
        matches!(
            self,
            TaskFault::TooManyNodes | TaskFault::TooManyEdges | TaskFault::TooManyTerminals
        )
    }

    fn write<S: Sink>(&self, block: &mut Block, sink: &mut S) {
        match self {
            TaskFault::TooManyNodes => literal(block, sink, b"more than 2500 nodes"),
            TaskFault::TooManyEdges => literal(block, sink, b"more than 4900 edges"),
            TaskFault::TooManyTerminals => literal(block, sink, b"more than 255 terminals"),
            TaskFault::NoTerminals => literal(block, sink, b"no terminals"),
            TaskFault::ZeroLength(edge) => {
                write_number(block, sink, b"edge ", *edge, b" has no length")
            }
            TaskFault::TooLong { total } => write_total(block, sink, *total),
            TaskFault::Apart(node) => {
                write_number(block, sink, b"the edges leave node ", *node, b" apart")
            }
            TaskFault::Memory(_) => literal(block, sink, b"out of memory"),
        }
    }

    fn of_text(self) -> Result<TaskFault, AllocError> {
        match self {
            TaskFault::Memory(error) => Err(error),
            fault => Ok(fault),
        }
    }
}

/// Writes what is said of lengths that sum to this total, which is too great.
#[tactic(auto, using(text_out::specs::GatherLaws::pieces))]
pub fn write_total<S: Sink>(block: &mut Block, sink: &mut S, total: u128)
    ensures { Gathers (S.state sink.old) block.old (total_text total) (S.state sink.new) block.new }
{
    literal(block, sink, b"the graph is too long: ");
    number(block, sink, total);
}
