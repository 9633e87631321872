//! The tool `obstacles`: points and boxes come in, the answer of a network of their graph goes out, or the graph.

ghost use Rattle.rst_outside.specs.Shelf.{ShelfState};
ghost use Rattle.tool_frame.specs.Outside.{outside};
ghost use Rattle.obstacle_tools.specs.Around.{EndsObstacles, SolvesAround, WritesGraph};

use crate::graph_file::GraphFile;
use crate::reading::graph_around;
use crate::text_fault::ObstacleTextFault;
use graph_search::Solution;
use graph_tools::solution_in;
use net_graph::NetGraph;
use rst_outside::{Sink, Source};
use search_rules::GraphOptions;
use std::alloc::Global;
use tool_frame::{Stop, TextTool, run_on_text};

/// Runs `obstacles`: reads points and boxes from the input and prints the answer of a network of their graph, with
/// edges and vertices by their numbers in it; or that graph as an STP file, where it is asked for. Gives the status
/// that the program ends with.
pub fn obstacles<I: Source, O: Sink, R: Sink>(
    alloc: Global,
    stp: bool,
    options: GraphOptions,
    input: &mut I,
    out: &mut O,
    err: &mut R,
) -> u8
    ensures { (shelf : ShelfState) → EndsObstacles stp options
        (outside (I.state input.old) (O.state out.old) (R.state err.old) shelf)
        (outside (I.state input.new) (O.state out.new) (R.state err.new) shelf) result }
{
    if stp {
        run_on_text(alloc, b"obstacles", &GraphAround, input, out, err)
    } else {
        let tool = SolvingAround { options };
        run_on_text(alloc, b"obstacles", &tool, input, out, err)
    }
}

// The answer in the graph of the points and boxes that a text spells.
#[derive(Drop)]
struct SolvingAround {
    options: GraphOptions,
}

impl TextTool for SolvingAround {
    type Found = Solution<NetGraph>;

    type Wrong = ObstacleTextFault;

    ghost prints = { λ tool. SolvesAround tool.options };

    #[tactic(auto, using(graph_tools::specs::SolutionLaws::answer_printed, graph_tools::specs::SolutionLaws::for_fits))]
    fn find(
        &self,
        alloc: Global,
        bytes: &[u8],
    ) -> Result<Solution<NetGraph>, Stop<ObstacleTextFault>> {
        let graph = graph_around(alloc, bytes)?;
        Ok(solution_in(alloc, graph, self.options)?)
    }
}

// The graph of the points and boxes that a text spells.
#[derive(Drop)]
struct GraphAround;

impl TextTool for GraphAround {
    type Found = GraphFile;

    type Wrong = ObstacleTextFault;

    ghost prints = { λ _. WritesGraph };

    fn find(&self, alloc: Global, bytes: &[u8]) -> Result<GraphFile, Stop<ObstacleTextFault>> {
        let graph = graph_around(alloc, bytes)?;
        Ok(GraphFile { graph })
    }
}
