//! The list of a file's trees, as an answer of a tool.

ghost use Rattle.tree_tools.specs.Listing.{listing_text};

use fst_file::FstFile;
use printed_texts::dump_trees;
use rst_outside::{PutFault, Sink};
use tool_frame::{Answer, AnswerStatus};

/// The list of a file's trees, with or without their pieces.
#[derive(Drop)]
pub struct Listing {
    pub file: FstFile,
    pub pieces: bool,
}

impl Answer for Listing {
    ghost text = { listing_text };

    fn status(&self) -> AnswerStatus {
        AnswerStatus::Done
    }

    fn write<O: Sink>(&self, out: &mut O) -> Result<(), PutFault> {
        dump_trees(out, &self.file.grid, &self.file.trees, self.pieces)
    }
}
