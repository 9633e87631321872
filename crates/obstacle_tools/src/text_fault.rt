//! Why a text gives no points and boxes that a tool takes.

ghost use Rattle.obstacle_tools.specs.Reading.{around_fault_text, around_fault_status};

use obstacle_grid::ObstacleTaskFault;
use obstacles_in::ObstacleFault;
use rst_outside::Sink;
use text_out::Block;
use tool_frame::{Fault, FaultStatus};

/// Why a text gives no Steiner problem around boxes.
#[derive(Clone, Copy)]
pub enum ObstacleTextFault {
    /// It is no text of points and boxes.
    InText(ObstacleFault),
    /// It is one whose graph is no Steiner problem of the suite.
    InGraph(ObstacleTaskFault),
}

impl Fault for ObstacleTextFault {
    ghost text = { around_fault_text };

    ghost status = { around_fault_status };

    fn status(&self) -> FaultStatus {
        match self {
            ObstacleTextFault::InText(fault) => Fault::status(fault),
            ObstacleTextFault::InGraph(fault) => Fault::status(fault),
        }
    }

    fn write<R: Sink>(&self, block: &mut Block, err: &mut R) {
        match self {
            ObstacleTextFault::InText(fault) => Fault::write(fault, block, err),
            ObstacleTextFault::InGraph(fault) => Fault::write(fault, block, err),
        }
    }
}
