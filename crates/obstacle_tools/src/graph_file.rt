//! A graph, as the tool prints it.

ghost use Rattle.obstacle_tools.specs.Around.{graph_file_text};

use net_graph::NetGraph;
use obstacle_grid::write_graph_stp;
use rst_outside::{PutFault, Sink};
use tool_frame::{Answer, AnswerStatus};

/// A graph that is printed as an STP file.
#[derive(Drop)]
pub struct GraphFile {
    pub graph: NetGraph,
}

impl Answer for GraphFile {
    ghost text = { graph_file_text };

    fn status(&self) -> AnswerStatus {
        AnswerStatus::Done
    }

    fn write<O: Sink>(&self, out: &mut O) -> Result<(), PutFault> {
        write_graph_stp(out, &self.graph)
    }
}
