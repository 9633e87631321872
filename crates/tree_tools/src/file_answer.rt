//! A file of full trees, as an answer of a tool.

ghost use Rattle.tree_tools.specs.FileAnswer.{file_text};

use fst_file::{FstFile, write_file};
use rst_outside::{PutFault, Sink};
use tool_frame::{Answer, AnswerStatus};

/// A file of full trees that a tool prints.
#[derive(Drop)]
pub struct FileAnswer {
    pub file: FstFile,
}

impl Answer for FileAnswer {
    ghost text = { file_text };

    fn status(&self) -> AnswerStatus {
        AnswerStatus::Done
    }

    fn write<O: Sink>(&self, out: &mut O) -> Result<(), PutFault> {
        write_file(out, &self.file)
    }
}
