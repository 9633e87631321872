//! The reduction of a graph, as the tool prints it.

ghost use Rattle.std.specs.Prelude.{IfOk};
ghost use Rattle.graph_tools.specs.Reduce.{IsReduced, reduction_text};

use graph_reduce::{Reduced, reduce};
use net_graph::NetGraph;
use reduced_text::write_reduced;
use rst_outside::{PutFault, Sink};
use std::alloc::{AllocError, Global};
use tool_frame::{Answer, AnswerStatus};

/// The reduction of a graph.
#[derive(Drop)]
pub struct GraphReduction {
    pub reduced: Reduced,
}

impl Answer for GraphReduction {
    ghost text = { reduction_text };

    fn status(&self) -> AnswerStatus {
        AnswerStatus::Done
    }

    fn write<O: Sink>(&self, out: &mut O) -> Result<(), PutFault> {
        write_reduced(out, &self.reduced)
    }
}

/// The reduction of a graph. An `Err` is want of memory.
pub(crate) fn reduction_in(alloc: Global, graph: &NetGraph) -> Result<GraphReduction, AllocError>
    ensures { IfOk result (λ found. IsReduced graph.now found.reduced) }
{
    let reduced = reduce(alloc, graph)?;
    Ok(GraphReduction { reduced })
}
