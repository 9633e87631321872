//! The grid of a file's points, as an answer of a tool.

ghost use Rattle.tree_tools.specs.GraphAnswer.{graph_answer_text};

use fst_file::FstFile;
use printed_texts::grid_as_stp;
use rst_outside::{PutFault, Sink};
use tool_frame::{Answer, AnswerStatus};

/// A file of full trees, of whose points a tool prints the grid.
#[derive(Drop)]
pub struct GraphAnswer {
    pub file: FstFile,
}

impl Answer for GraphAnswer {
    ghost text = { graph_answer_text };

    fn status(&self) -> AnswerStatus {
        AnswerStatus::Done
    }

    fn write<O: Sink>(&self, out: &mut O) -> Result<(), PutFault> {
        grid_as_stp(out, &self.file.grid)
    }
}
