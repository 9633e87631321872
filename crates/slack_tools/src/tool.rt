//! The tool `slack`: points come in, a bound for each edge of their grid goes out.

ghost use Rattle.rst_outside.specs.Shelf.{ShelfState};
ghost use Rattle.tool_frame.specs.Outside.{outside};
ghost use Rattle.slack_tools.specs.Slack.{BoundsEdges, EndsSlack};

use crate::bounds::edge_bounds;
use crate::slack_answer::SlackAnswer;
use rst_outside::{Sink, Source};
use search_rules::AscentRule;
use std::alloc::Global;
use tool_frame::{ListFault, Stop, TextTool, grid_in, run_on_text};

/// Runs `slack`: reads points from the input and prints for each edge of their grid a bound below which no network goes
/// whose root part holds the edge; where `above` is a number, for exactly those edges whose bound is above it. The rule
/// chooses the candidates of the ascents. Gives the status that the program ends with.
pub fn slack<I: Source, O: Sink, R: Sink>(
    alloc: Global,
    above: Option<u64>,
    ascent: AscentRule,
    input: &mut I,
    out: &mut O,
    err: &mut R,
) -> u8
    ensures { (shelf : ShelfState) → EndsSlack above
        (outside (I.state input.old) (O.state out.old) (R.state err.old) shelf)
        (outside (I.state input.new) (O.state out.new) (R.state err.new) shelf) result }
{
    let tool = EdgeBounds { above, ascent };
    run_on_text(alloc, b"slack", &tool, input, out, err)
}

// The bounds for the points that a text lists.
#[derive(Drop)]
struct EdgeBounds {
    above: Option<u64>,
    ascent: AscentRule,
}

impl TextTool for EdgeBounds {
    type Found = SlackAnswer;

    type Wrong = ListFault;

    ghost prints = { λ tool. BoundsEdges tool.above };

    #[tactic(auto, using(crate::proofs::SlackLaws::found_bounds))]
    fn find(&self, alloc: Global, bytes: &[u8]) -> Result<SlackAnswer, Stop<ListFault>> {
        let grid = grid_in(alloc, bytes)?;
        let bounds = edge_bounds(alloc, &grid, self.ascent)?;
        Ok(SlackAnswer {
            grid,
            above: self.above,
            bounds,
        })
    }
}
