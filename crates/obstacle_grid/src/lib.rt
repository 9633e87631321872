//! Steiner problems around boxes: the grid of points and boxes, its graph without the edges that a box blocks, and the
//! text of a graph as an STP file.
#![tactic(auto)]

mod blocked;
mod fault;
mod graph;
mod grid;
mod laws;
mod write;

pub use fault::ObstacleTaskFault;
pub use graph::obstacle_graph;
pub use laws::{blocking_is_crossing, graphs_are_read_back, no_edge_crosses};
pub use write::write_graph_stp;
