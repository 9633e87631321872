//! The tool `fst2graph`: a file of full trees comes in, the grid of its points goes out.

ghost use Rattle.rst_outside.specs.Shelf.{ShelfState};
ghost use Rattle.tool_frame.specs.Outside.{outside};
ghost use Rattle.tree_tools.specs.Graph.{EndsFst2graph, GraphsFile};

use crate::graph_answer::GraphAnswer;
use fst_file::FstFault;
use rst_outside::{Sink, Source};
use std::alloc::Global;
use tool_frame::{Stop, TextTool, run_on_text};
use tree_inputs::fst_in;

/// Runs `fst2graph`: reads a file of full trees from the input and prints the grid of its points as an STP file.
/// Gives the status that the program ends with.
pub fn fst2graph<I: Source, O: Sink, R: Sink>(
    alloc: Global,
    input: &mut I,
    out: &mut O,
    err: &mut R,
) -> u8
    ensures { (shelf : ShelfState) → EndsFst2graph
        (outside (I.state input.old) (O.state out.old) (R.state err.old) shelf)
        (outside (I.state input.new) (O.state out.new) (R.state err.new) shelf) result }
{
    run_on_text(alloc, b"fst2graph", &GridOfFile, input, out, err)
}

// The grid of the points of the file that a text spells.
struct GridOfFile;

impl TextTool for GridOfFile {
    type Found = GraphAnswer;

    type Wrong = FstFault;

    ghost prints = { λ _. GraphsFile };

    fn find(&self, alloc: Global, bytes: &[u8]) -> Result<GraphAnswer, Stop<FstFault>> {
        let file = fst_in(alloc, bytes)?;
        Ok(GraphAnswer { file })
    }
}
