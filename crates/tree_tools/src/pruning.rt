//! The tool `prunefst`: a file of full trees comes in, the file of the trees that pruning keeps goes out.

ghost use Rattle.rst_outside.specs.Shelf.{ShelfState};
ghost use Rattle.tool_frame.specs.Outside.{outside};
ghost use Rattle.tree_tools.specs.Pruning.{EndsPrunefst, PrunesFile};

use crate::file_answer::FileAnswer;
use fst_file::FstFault;
use rst_outside::{Sink, Source};
use std::alloc::Global;
use tool_frame::{Stop, TextTool, run_on_text};
use tree_inputs::{fst_in, pruned};

/// Runs `prunefst`: reads a file of full trees from the input and prints the file of the same points and of the trees
/// that pruning keeps. Gives the status that the program ends with.
pub fn prunefst<I: Source, O: Sink, R: Sink>(
    alloc: Global,
    input: &mut I,
    out: &mut O,
    err: &mut R,
) -> u8
    ensures { (shelf : ShelfState) → EndsPrunefst
        (outside (I.state input.old) (O.state out.old) (R.state err.old) shelf)
        (outside (I.state input.new) (O.state out.new) (R.state err.new) shelf) result }
{
    run_on_text(alloc, b"prunefst", &Pruning, input, out, err)
}

// The file of the points and the kept trees of the file that a text spells.
struct Pruning;

impl TextTool for Pruning {
    type Found = FileAnswer;

    type Wrong = FstFault;

    ghost prints = { λ _. PrunesFile };

    fn find(&self, alloc: Global, bytes: &[u8]) -> Result<FileAnswer, Stop<FstFault>> {
        let file = pruned(alloc, fst_in(alloc, bytes)?)?;
        Ok(FileAnswer { file })
    }
}
