//! The tool `checkgraph`: an STP file and an answer in its graph come in, the verdict on the answer goes out.

ghost use Rattle.std.specs.Prelude.{◌≡◌};
ghost use Rattle.tool_frame.specs.Outside.{readable, outside};
ghost use Rattle.tool_frame.specs.Leaves.{LeavesFiles};
ghost use Rattle.tool_frame.specs.Stops.{FindsDue, IfFound, OnStarved};
ghost use Rattle.tool_frame.specs.Taking.{KeepsFiles};
ghost use Rattle.verdict_line.specs.Verdicts.{line_text, line_status};
ghost use Rattle.graph_tools.specs.Check.{ChecksGraph, EndsCheckgraph, ReadsGraphFile};
ghost use Rattle.graph_tools.specs.Check.{checkgraph_fault_text, checkgraph_fault_status};

use crate::reading::graph_in;
use crate::text_fault::GraphTextFault;
use cert_check::Subject;
use net_graph::NetGraph;
use rst_outside::{Shelf, Sink, Source};
use std::alloc::Global;
use std::marker::Brand;
use text_out::Block;
use tool_frame::{
    Fault, FaultStatus, FileFault, InputFault, Stop, TEXT_LIMIT, end_found, whole_file, within,
};
use verdict_line::{Counting, VerdictLine, judge_input};

/// The greatest number of bytes of an answer in a graph that is judged.
pub const GRAPH_ANSWER_LIMIT: u64 = 1 << 28;

/// Why an answer in a graph isn't judged.
#[derive(Clone, Copy)]
pub enum CheckgraphFault {
    /// The STP file isn't taken whole.
    File(FileFault),
    /// It gives no Steiner problem.
    Graph(GraphTextFault),
    /// The answer isn't read to its end.
    Input(InputFault),
}

impl Fault for CheckgraphFault {
    ghost text = { checkgraph_fault_text };

    ghost status = { checkgraph_fault_status };

    fn status(&self) -> FaultStatus {
        match self {
            CheckgraphFault::File(fault) => fault.status(),
            CheckgraphFault::Graph(fault) => fault.status(),
            CheckgraphFault::Input(fault) => fault.status(),
        }
    }

    fn write<R: Sink>(&self, block: &mut Block, err: &mut R) {
        match self {
            CheckgraphFault::File(fault) => fault.write(block, err, b"the graph"),
            CheckgraphFault::Graph(fault) => fault.write(block, err),
            CheckgraphFault::Input(fault) => fault.write(block, err),
        }
    }
}

/// Runs `checkgraph`: reads the STP file of this name, then judges an answer in the file's graph as it comes from the
/// input, and prints the line of the verdict. Gives the status that the program ends with. Memory is taken before the
/// input is touched alone.
pub fn checkgraph<I: Source, O: Sink, R: Sink, S: Shelf>(
    alloc: Global,
    graph_name: &str,
    input: &mut I,
    out: &mut O,
    err: &mut R,
    shelf: &mut S,
) -> u8
    ensures { EndsCheckgraph graph_name.now
        (outside (I.state input.old) (O.state out.old) (R.state err.old) (S.state shelf.old))
        (outside (I.state input.new) (O.state out.new) (R.state err.new) (S.state shelf.new)) result }
{
    let found = verdict_on(alloc, graph_name, input, shelf);
    end_found(out, err, b"checkgraph", found)
}

// The line of the verdict on the input as an answer in the graph of a file. Memory is wanting before the input is
// touched alone.
fn verdict_on<I: Source, S: Shelf>(
    alloc: Global,
    graph_name: &str,
    input: &mut I,
    shelf: &mut S,
) -> Result<VerdictLine, Stop<CheckgraphFault>>
    ensures finds { FindsDue line_text line_status (ChecksGraph graph_name.now
        (readable (I.state input.old) (S.state shelf.old)) (readable (I.state input.new) (S.state shelf.new))) result }
    ensures unread { OnStarved result (I.state input.new ≡ I.state input.old) }
    ensures leaves { LeavesFiles
        (readable (I.state input.old) (S.state shelf.old)) (readable (I.state input.new) (S.state shelf.new)) }
{
    let graph = read_graph_file(alloc, shelf, graph_name)?;
    let subject = Subject::InGraph(&graph);
    let judging = judge_input::<Brand, I>(alloc, subject, input, GRAPH_ANSWER_LIMIT);
    let judged = within(judging, CheckgraphFault::Input)?;
    Ok(VerdictLine {
        counting: Counting::FromOne,
        ruling: judged.ruling,
    })
}

// The graph of the STP file of this name; or why there is none.
fn read_graph_file<S: Shelf>(
    alloc: Global,
    shelf: &mut S,
    name: &str,
) -> Result<NetGraph, Stop<CheckgraphFault>>
    ensures reads { IfFound result (ReadsGraphFile (S.state shelf.old) (S.state shelf.new) name.now) }
    ensures files { KeepsFiles (S.state shelf.old) (S.state shelf.new) }
{
    let read = whole_file(alloc, shelf, name, TEXT_LIMIT);
    let bytes = within(read, CheckgraphFault::File)?;
    within(graph_in(alloc, bytes.as_slice()), CheckgraphFault::Graph)
}
