//! A network of a graph by way of its reduction.

ghost use Rattle.std.specs.Prelude.{◌≡◌, ◌+◌, ◌<◌, ◌^◌, IfOk};
ghost use Rattle.net_graph.specs.Network.{IsNetwork};
ghost use Rattle.graph_solve.specs.Task.{all_edges};
ghost use Rattle.search_rules.specs.Options.{usual_in_graph};
ghost use Rattle.graph_tools.specs.Lifted.{IsLiftedFor, lifted_by};
ghost use Rattle.graph_tools.specs.Solution.{IsAnswerFor};

use crate::lifted::Lifted;
use crate::solution::answer_in;
use answer_text::Answer;
use graph_reduce::{Reduced, reduce};
use net_graph::NetGraph;
use search_rules::GraphOptions;
use std::alloc::{AllocError, Global};

/// The network of an answer in the reduction of a graph, lifted. An `Err` is want of memory.
pub(crate) fn lifted_in(alloc: Global, graph: &NetGraph) -> Result<Lifted, AllocError>
    requires { IsNetwork graph.now (all_edges graph.now) }
    ensures { IfOk result (IsLiftedFor graph.now) }
{
    // The lengths sum to less than 2^63, and the offset is no more than they.
    let _total = graph.total();
    let reduced = reduce(alloc, graph)?;
    let answer = answer_in(alloc, reduced.graph(), GraphOptions::USUAL)?;
    lifted_by(alloc, &reduced, &answer)
}

// What is told of an answer's network in the reduced graph, once it is lifted. An `Err` is want of memory.
fn lifted_by(alloc: Global, reduced: &Reduced, answer: &Answer) -> Result<Lifted, AllocError>
    requires answer { IsAnswerFor usual_in_graph reduced.now.graph answer.now }
    requires offset { reduced.now.offset < 2 ^ 63 }
    ensures { IfOk result (λ lifted. lifted ≡ lifted_by reduced.now answer.now.network answer.now.tree) }
{
    let _total = reduced.graph().total();
    let offset = reduced.offset();
    let network = reduced.lift(alloc, &answer.network)?;
    Ok(Lifted {
        network,
        length: answer.head.length + offset,
        bound: answer.head.bound + offset,
        optimal: answer.head.optimal,
    })
}
