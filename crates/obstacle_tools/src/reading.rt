//! The graph of a text of points and boxes.

ghost use Rattle.tool_frame.specs.Stops.{IfFound};
ghost use Rattle.obstacle_tools.specs.Reading.{ReadsText, ReadsAround, TakesTask, AroundHasNoFault};

use crate::text_fault::ObstacleTextFault;
use net_graph::NetGraph;
use obstacle_grid::{ObstacleTaskFault, obstacle_graph};
use obstacles_in::{ObstacleFault, Obstacles, ObstaclesFormat, read_obstacles};
use section_text::{one_outcome, one_reading, values_are_spelled};
use std::alloc::Global;
use tool_frame::{Stop, faults_apart, within};

/// The graph of the points and boxes that a text spells; or why it gives none.
pub(crate) fn graph_around(alloc: Global, bytes: &[u8]) -> Result<NetGraph, Stop<ObstacleTextFault>>
    ensures { IfFound result (ReadsAround bytes.now) }
{
    let obstacles = within(text_in(alloc, bytes), ObstacleTextFault::InText)?;
    within(task_in(alloc, &obstacles), ObstacleTextFault::InGraph)
}

/// A text that is a Steiner problem around boxes has no fault.
pub fn around_has_no_fault()
    ensures { AroundHasNoFault }
{
    one_outcome::<ObstaclesFormat>();
    values_are_spelled::<ObstaclesFormat>();
    one_reading::<ObstaclesFormat>();
}

// The points and boxes that a text spells; or its first fault.
fn text_in(alloc: Global, bytes: &[u8]) -> Result<Obstacles, Stop<ObstacleFault>>
    ensures { IfFound result (ReadsText bytes.now) }
{
    faults_apart(read_obstacles(alloc, bytes))
}

// The graph of points and boxes; or their first fault as a Steiner problem.
fn task_in(alloc: Global, obstacles: &Obstacles) -> Result<NetGraph, Stop<ObstacleTaskFault>>
    ensures { IfFound result (TakesTask obstacles.now) }
{
    faults_apart(obstacle_graph(alloc, obstacles))
}
