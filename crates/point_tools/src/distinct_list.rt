//! Distinct points, as an answer of a tool.

ghost use Rattle.point_tools.specs.DistinctList.{distinct_text};

use points_in::Points;
use printed_texts::dump_distinct;
use rst_outside::{PutFault, Sink};
use tool_frame::{Answer, AnswerStatus};

/// Distinct points that a tool prints.
#[derive(Drop)]
pub struct DistinctList {
    pub points: Points,
}

impl Answer for DistinctList {
    ghost text = { distinct_text };

    fn status(&self) -> AnswerStatus {
        AnswerStatus::Done
    }

    fn write<O: Sink>(&self, out: &mut O) -> Result<(), PutFault> {
        dump_distinct(out, &self.points)
    }
}
