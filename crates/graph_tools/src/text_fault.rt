//! Why a text gives no Steiner problem in a graph.

ghost use Rattle.graph_tools.specs.Reading.{graph_fault_text, graph_fault_status};

use graph_solve::TaskFault;
use rst_outside::Sink;
use stp_format::StpFault;
use text_out::Block;
use tool_frame::{Fault, FaultStatus};

/// Why a text gives no Steiner problem in a graph.
#[derive(Clone, Copy)]
pub enum GraphTextFault {
    /// It is no STP file.
    InFile(StpFault),
    /// It is one whose graph is no Steiner problem of the suite.
    InGraph(TaskFault),
}

impl Fault for GraphTextFault {
    ghost text = { graph_fault_text };

    ghost status = { graph_fault_status };

    fn status(&self) -> FaultStatus {
        match self {
            GraphTextFault::InFile(fault) => Fault::status(fault),
            GraphTextFault::InGraph(fault) => Fault::status(fault),
        }
    }

    fn write<R: Sink>(&self, block: &mut Block, err: &mut R) {
        match self {
            GraphTextFault::InFile(fault) => Fault::write(fault, block, err),
            GraphTextFault::InGraph(fault) => Fault::write(fault, block, err),
        }
    }
}
