//! An answer in a graph, as the tool prints it.

ghost use Rattle.std.specs.Prelude.{◌≡◌, ◌<◌, IfOk};
ghost use Rattle.net_graph.specs.Network.{IsNetwork};
ghost use Rattle.graph_solve.specs.Task.{all_edges};
ghost use Rattle.graph_tools.specs.Solution.{IsAnswerFor, IsFor};

use crate::ladder::Ladder;
use answer_text::{Answer, ConcatNote, answer_len};
use graph_search::{Solution, answer_with, searched};
use graph_solve::first_network;
use net_graph::NetGraph;
use search_rules::GraphOptions;
use std::alloc::{AllocError, Global};

/// The answer in a graph whose edges all together join its terminals: what a search finds that begins with a network
/// which grows along shortest paths and is made short by local search. An `Err` is want of memory.
pub fn solution_in(
    alloc: Global,
    graph: NetGraph,
    options: GraphOptions,
) -> Result<Solution<NetGraph>, AllocError>
    requires { IsNetwork graph (all_edges graph) }
    ensures { IfOk result (IsFor options graph) }
{
    let answer = answer_in(alloc, &graph, options)?;
    Ok(Solution {
        instance: graph,
        answer,
    })
}

/// What is answered in a graph: what a search finds that begins with a network which grows along shortest paths and is
/// made short by local search, and that is raised by exchanges. An `Err` is want of memory.
pub(crate) fn answer_in(
    alloc: Global,
    graph: &NetGraph,
    options: GraphOptions,
) -> Result<Answer, AllocError>
    requires { IsNetwork graph.now (all_edges graph.now) }
    ensures { IfOk result (IsAnswerFor options graph.now) }
{
    let first = first_network(alloc, graph)?;
    let solved = searched(alloc, graph, first, options, &Ladder { graph })?;
    let answer = answer_with(options.openings, ConcatNote::default(), solved);
    prove!(answer_len(graph, &answer) < 1 << 32);
    Ok(answer)
}
