//! The tool `reduce`: an STP file comes in, the reduction of its graph goes out, or a network that is found there and
//! lifted.

ghost use Rattle.rst_outside.specs.Shelf.{ShelfState};
ghost use Rattle.tool_frame.specs.Outside.{outside};
ghost use Rattle.graph_tools.specs.Reduce.{ReducesGraph};
ghost use Rattle.graph_tools.specs.Lifted.{EndsReduceAs, LiftsGraph};

use crate::lifted::Lifted;
use crate::lifting::lifted_in;
use crate::reading::graph_in;
use crate::reduction::{GraphReduction, reduction_in};
use crate::text_fault::GraphTextFault;
use rst_outside::{Sink, Source};
use std::alloc::Global;
use tool_frame::{Stop, TextTool, run_on_text};

/// Runs `reduce`: reads an STP file from the input and prints the reduction of its graph; where it is to be solved, the
/// network of an answer in the reduced graph, lifted. Gives the status that the program ends with.
pub fn reduce<I: Source, O: Sink, R: Sink>(
    alloc: Global,
    solve: bool,
    input: &mut I,
    out: &mut O,
    err: &mut R,
) -> u8
    ensures { (shelf : ShelfState) → EndsReduceAs solve
        (outside (I.state input.old) (O.state out.old) (R.state err.old) shelf)
        (outside (I.state input.new) (O.state out.new) (R.state err.new) shelf) result }
{
    if solve {
        run_on_text(alloc, b"reduce", &Lifting, input, out, err)
    } else {
        run_on_text(alloc, b"reduce", &Reducing, input, out, err)
    }
}

// The reduction of the graph of the file that a text is.
#[derive(Drop)]
struct Reducing;

impl TextTool for Reducing {
    type Found = GraphReduction;

    type Wrong = GraphTextFault;

    ghost prints = { λ _. ReducesGraph };

    fn find(&self, alloc: Global, bytes: &[u8]) -> Result<GraphReduction, Stop<GraphTextFault>> {
        let graph = graph_in(alloc, bytes)?;
        Ok(reduction_in(alloc, &graph)?)
    }
}

// The network that is lifted in the graph of the file that a text is.
#[derive(Drop)]
struct Lifting;

impl TextTool for Lifting {
    type Found = Lifted;

    type Wrong = GraphTextFault;

    ghost prints = { λ _. LiftsGraph };

    #[tactic(auto, using(crate::proofs::ReduceLaws::lifted_printed))]
    fn find(&self, alloc: Global, bytes: &[u8]) -> Result<Lifted, Stop<GraphTextFault>> {
        let graph = graph_in(alloc, bytes)?;
        Ok(lifted_in(alloc, &graph)?)
    }
}
