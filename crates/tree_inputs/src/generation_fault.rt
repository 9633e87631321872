//! Why a text gives no file of full trees of its points.

ghost use Rattle.text_out.specs.Gathers.{Gathers};
ghost use Rattle.tree_inputs.specs.GenerationFaults.{generation_fault_text, generation_fault_status};

use rst_outside::Sink;
use text_out::{Block, literal};
use tool_frame::{Fault, FaultStatus, ListFault};

/// Why a text gives no file of full trees of its points.
#[derive(Clone, Copy)]
pub enum GenerationFault {
    /// It lists no points, or points whose grid is too long.
    List(ListFault),
    /// Its points have more than 20,000 trees.
    TooManyTrees,
}

impl Fault for GenerationFault {
    ghost text = { generation_fault_text };

    ghost status = { generation_fault_status };

    fn status(&self) -> FaultStatus {
        match self {
            GenerationFault::List(fault) => fault.status(),
            GenerationFault::TooManyTrees => FaultStatus::TooLarge,
        }
    }

    fn write<R: Sink>(&self, block: &mut Block, err: &mut R) {
        match self {
            GenerationFault::List(fault) => fault.write(block, err),
            GenerationFault::TooManyTrees => literal(block, err, b"more than 20000 trees"),
        }
    }
}
