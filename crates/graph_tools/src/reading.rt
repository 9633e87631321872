//! The graph of an STP file's text.

ghost use Rattle.tool_frame.specs.Stops.{IfFound};
ghost use Rattle.graph_tools.specs.Reading.{ReadsFile, ReadsGraph, TakesTask, TaskHasNoFault};

use crate::text_fault::GraphTextFault;
use graph_solve::{TaskFault, graph_of};
use net_graph::NetGraph;
use std::alloc::Global;
use stp_format::{StpFault, StpFile, read_stp};
use tool_frame::{Stop, faults_apart, within};

/// The graph of the STP file that a text is; or why it gives none.
pub fn graph_in(alloc: Global, bytes: &[u8]) -> Result<NetGraph, Stop<GraphTextFault>>
    ensures { IfFound result (ReadsGraph bytes.now) }
{
    let file = within(file_in(alloc, bytes), GraphTextFault::InFile)?;
    within(task_in(alloc, &file), GraphTextFault::InGraph)
}

/// A text that is a Steiner problem has no fault.
pub fn task_has_no_fault()
    ensures { TaskHasNoFault }
{}

// The STP file that a text is; or its first fault.
fn file_in(alloc: Global, bytes: &[u8]) -> Result<StpFile, Stop<StpFault>>
    ensures { IfFound result (ReadsFile bytes.now) }
{
    faults_apart(read_stp(alloc, bytes))
}

// The graph of a file; or its first fault as a Steiner problem.
fn task_in(alloc: Global, file: &StpFile) -> Result<NetGraph, Stop<TaskFault>>
    ensures { IfFound result (TakesTask file.now) }
{
    faults_apart(graph_of(alloc, file))
}
