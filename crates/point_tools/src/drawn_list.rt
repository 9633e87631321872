//! Drawn points, as an answer of a tool.

ghost use Rattle.point_tools.specs.DrawnList.{drawn_text};

use drawn_points::Drawn;
use printed_texts::dump_points;
use rst_outside::{PutFault, Sink};
use tool_frame::{Answer, AnswerStatus};

/// Drawn points that a tool prints.
#[derive(Drop)]
pub struct DrawnList {
    pub drawn: Drawn,
}

impl Answer for DrawnList {
    ghost text = { drawn_text };

    fn status(&self) -> AnswerStatus {
        AnswerStatus::Done
    }

    fn write<O: Sink>(&self, out: &mut O) -> Result<(), PutFault> {
        dump_points(out, &self.drawn)
    }
}
