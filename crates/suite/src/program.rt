//! The top call.

ghost use Rattle.std.specs.Prelude.{IfSome, map, option_map, string_bytes};
ghost use Rattle.tool_frame.specs.Outside.{outside};
ghost use Rattle.requests.specs.Requests.{request_of, meaning, IsWithinLimits};
ghost use Rattle.suite.specs.Run.{EndsAsAsked, IsRun};
ghost use Rattle.suite.specs.Headlines.{TellsTruly};
ghost use Rattle.suite.specs.Complete.{Completes};

use crate::laws::trial_is_solve;
use graph_tools::{checkgraph, graph, reduce, task_has_no_fault};
use judge_tools::{check, plot, upgrade};
use obstacle_grid::{graphs_are_read_back, no_edge_crosses};
use obstacle_tools::{around_has_no_fault, obstacles};
use point_tools::{located_has_no_fault, points, stp2points};
use requests::{Request, request_in};
use rst_outside::{Shelf, Sink, Source};
use search_tools::{bb, solve, trial};
use slack_tools::slack;
use std::alloc::{AllocError, Global};
use tool_frame::{MISUSED, NO_MEMORY, report};
use tree_inputs::spelled_has_no_fault;
use tree_tools::{dumpfst, fst2graph, prunefst, rfst};

/// What is said where the words ask for no tool.
const USAGE_LINE: &[u8] =
    b"usage: rst points|stp2points|rfst|prunefst|bb|solve|check|dumpfst|fst2graph|plot|trial\
      |upgrade|graph|checkgraph|reduce|obstacles|slack [WORDS]\n";

/// Runs the tool that the words after the program's name ask for, and gives the status that the program ends with.
///
/// The order of work is: words, the file that they name, input (read to its end), computing, writing. Statuses and
/// texts stand in docs/FORMATS.md.
pub fn run<I: Source, O: Sink, R: Sink, S: Shelf>(
    alloc: Global,
    words: &[String],
    input: &mut I,
    out: &mut O,
    err: &mut R,
    shelf: &mut S,
) -> u8
    ensures run { IsRun (request_of (map string_bytes words.now))
        (outside (I.state input.old) (O.state out.old) (R.state err.old) (S.state shelf.old))
        (outside (I.state input.new) (O.state out.new) (R.state err.new) (S.state shelf.new)) result }
    ensures headline { TellsTruly (request_of (map string_bytes words.now))
        (outside (I.state input.old) (O.state out.old) (R.state err.old) (S.state shelf.old))
        (outside (I.state input.new) (O.state out.new) (R.state err.new) (S.state shelf.new)) result }
    ensures complete { Completes (request_of (map string_bytes words.now))
        (outside (I.state input.old) (O.state out.old) (R.state err.old) (S.state shelf.old))
        (outside (I.state input.new) (O.state out.new) (R.state err.new) (S.state shelf.new)) result }
{
    located_has_no_fault();
    spelled_has_no_fault();
    task_has_no_fault();
    around_has_no_fault();
    no_edge_crosses();
    graphs_are_read_back();
    trial_is_solve();
    match request_in(alloc, words) {
        Ok(request) => answer(alloc, request, input, out, err, shelf),
        Err(AllocError) => {
            report(err, b"rst: out of memory\n");
            NO_MEMORY
        }
    }
}

// Runs the tool of a request, and says how the program is used where there is none.
fn answer<I: Source, O: Sink, R: Sink, S: Shelf>(
    alloc: Global,
    request: Option<Request<'_>>,
    input: &mut I,
    out: &mut O,
    err: &mut R,
    shelf: &mut S,
) -> u8
    requires { IfSome request (λ asked. IsWithinLimits (meaning asked)) }
    ensures { EndsAsAsked (option_map meaning request.entry)
        (outside (I.state input.old) (O.state out.old) (R.state err.old) (S.state shelf.old))
        (outside (I.state input.new) (O.state out.new) (R.state err.new) (S.state shelf.new)) result }
{
    match request {
        Some(Request::Points(drawing)) => points(alloc, drawing.count, drawing.seed, out, err),
        Some(Request::Stp2points) => stp2points(alloc, input, out, err),
        Some(Request::Rfst { size }) => rfst(alloc, size, input, out, err),
        Some(Request::Prunefst) => prunefst(alloc, input, out, err),
        Some(Request::Bb(search)) => bb(alloc, search, input, out, err),
        Some(Request::Solve { size, search }) => { solve(alloc, search, size, input, out, err) }
        Some(Request::Check { points }) => check(alloc, points, input, out, err, shelf),
        Some(Request::Dumpfst { pieces }) => dumpfst(alloc, pieces, input, out, err),
        Some(Request::Fst2graph) => fst2graph(alloc, input, out, err),
        Some(Request::Plot { points }) => plot(alloc, points, input, out, err, shelf),
        Some(Request::Trial(drawing)) => trial(alloc, drawing.count, drawing.seed, out, err),
        Some(Request::Upgrade { points }) => upgrade(alloc, points, input, out, err, shelf),
        Some(Request::Graph(options)) => graph(alloc, options, input, out, err),
        Some(Request::Checkgraph { graph }) => checkgraph(alloc, graph, input, out, err, shelf),
        Some(Request::Reduce { solve }) => reduce(alloc, solve, input, out, err),
        Some(Request::Obstacles { stp, search }) => {
            obstacles(alloc, stp, search, input, out, err)
        }
        Some(Request::Slack { above, ascent }) => slack(alloc, above, ascent, input, out, err),
        None => {
            report(err, USAGE_LINE);
            MISUSED
        }
    }
}
