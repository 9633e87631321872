//! The bounds of a grid's edges, as an answer of a tool.

ghost use Rattle.slack_tools.specs.SlackAnswer.{answer_text, HasEachBound};

use crate::write::write_slack;
use hanan_grid::Grid;
use rst_outside::{PutFault, Sink};
use tool_frame::{Answer, AnswerStatus};

/// A bound for each edge of a grid, of which those above a threshold are printed, or all where there is none.
#[derive(Drop)]
pub(crate) struct SlackAnswer {
    pub grid: Grid,
    pub above: Option<u64>,
    pub bounds: Vec<u64>,
}

impl Answer for SlackAnswer {
    ghost text = { answer_text };

    ghost fits = { HasEachBound };

    fn status(&self) -> AnswerStatus {
        AnswerStatus::Done
    }

    fn write<O: Sink>(&self, out: &mut O) -> Result<(), PutFault> {
        write_slack(out, &self.grid, self.above, self.bounds.as_slice())
    }
}
