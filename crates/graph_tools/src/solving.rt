//! The tool `graph`: an STP file comes in, the answer of a network of its graph goes out.

ghost use Rattle.rst_outside.specs.Shelf.{ShelfState};
ghost use Rattle.tool_frame.specs.Outside.{outside};
ghost use Rattle.graph_tools.specs.Solve.{EndsGraph, SolvesGraph};

use crate::reading::graph_in;
use crate::solution::solution_in;
use crate::text_fault::GraphTextFault;
use graph_search::Solution;
use net_graph::NetGraph;
use rst_outside::{Sink, Source};
use search_rules::GraphOptions;
use std::alloc::Global;
use tool_frame::{Stop, TextTool, run_on_text};

/// Runs `graph`: reads an STP file from the input and prints the answer of a network of its graph, with edges and
/// vertices by their numbers in the file. Gives the status that the program ends with.
pub fn graph<I: Source, O: Sink, R: Sink>(
    alloc: Global,
    options: GraphOptions,
    input: &mut I,
    out: &mut O,
    err: &mut R,
) -> u8
    ensures { (shelf : ShelfState) → EndsGraph options
        (outside (I.state input.old) (O.state out.old) (R.state err.old) shelf)
        (outside (I.state input.new) (O.state out.new) (R.state err.new) shelf) result }
{
    run_on_text(alloc, b"graph", &Solving { options }, input, out, err)
}

// The answer in the graph of the file that a text is.
#[derive(Drop)]
struct Solving {
    options: GraphOptions,
}

impl TextTool for Solving {
    type Found = Solution<NetGraph>;

    type Wrong = GraphTextFault;

    ghost prints = { λ tool. SolvesGraph tool.options };

    #[tactic(auto, using(crate::specs::SolutionLaws::answer_printed, crate::specs::SolutionLaws::for_fits))]
    fn find(
        &self,
        alloc: Global,
        bytes: &[u8],
    ) -> Result<Solution<NetGraph>, Stop<GraphTextFault>> {
        let graph = graph_in(alloc, bytes)?;
        Ok(solution_in(alloc, graph, self.options)?)
    }
}
