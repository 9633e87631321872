//! A plot of a network, as an answer of a tool.

ghost use Rattle.judge_tools.specs.Pictures.{HasEdges, picture_text};

use hanan_grid::Grid;
use net_graph::EdgeSet;
use printed_texts::plot;
use rst_outside::{PutFault, Sink};
use tool_frame::{Answer, AnswerStatus};

/// A network on the grid of points, of which a tool prints a plot.
#[derive(Drop)]
pub struct Picture {
    pub grid: Grid,
    pub network: EdgeSet,
}

impl Answer for Picture {
    ghost text = { picture_text };

    ghost fits = { HasEdges };

    fn status(&self) -> AnswerStatus {
        AnswerStatus::Done
    }

    fn write<O: Sink>(&self, out: &mut O) -> Result<(), PutFault> {
        plot(out, &self.grid, &self.network)
    }
}
