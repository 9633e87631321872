//! The tool `bb`: a file of full trees comes in, the answer of a network no longer than a concatenation of them goes
//! out.

ghost use Rattle.rst_outside.specs.Shelf.{ShelfState};
ghost use Rattle.tool_frame.specs.Outside.{outside};
ghost use Rattle.search_tools.specs.Build.{Builds, EndsBb};

use crate::build_fault::BuildFault;
use crate::solution::solution_of;
use graph_search::Solution;
use hanan_grid::Grid;
use rst_outside::{Sink, Source};
use search_rules::SearchOptions;
use std::alloc::Global;
use tool_frame::{Stop, TextTool, run_on_text, within};
use tree_inputs::fst_in;

/// Runs `bb`: reads a file of full trees from the input and prints the answer of a network that is no longer than a
/// concatenation of them. Gives the status that the program ends with.
pub fn bb<I: Source, O: Sink, R: Sink>(
    alloc: Global,
    options: SearchOptions,
    input: &mut I,
    out: &mut O,
    err: &mut R,
) -> u8
    ensures { (shelf : ShelfState) → EndsBb options
        (outside (I.state input.old) (O.state out.old) (R.state err.old) shelf)
        (outside (I.state input.new) (O.state out.new) (R.state err.new) shelf) result }
{
    run_on_text(alloc, b"bb", &Build { options }, input, out, err)
}

// The answer for the file of full trees that a text spells.
#[derive(Drop)]
struct Build {
    options: SearchOptions,
}

impl TextTool for Build {
    type Found = Solution<Grid>;

    type Wrong = BuildFault;

    ghost prints = { λ tool. Builds tool.options };

    fn find(&self, alloc: Global, bytes: &[u8]) -> Result<Solution<Grid>, Stop<BuildFault>> {
        let file = within(fst_in(alloc, bytes), BuildFault::InFile)?;
        within(solution_of(alloc, file, self.options), BuildFault::Apart)
    }
}
