//! The lines of an STP file (STP Format 1.0 of SteinLib) as they are written.
#![tactic(auto)]

mod coordinates;
mod frame;
mod graph;
mod terminals;

pub use coordinates::{write_coordinates_head, write_located};
pub use frame::{write_end, write_head, write_section_end};
pub use graph::{write_edge, write_graph_head};
pub use terminals::{write_terminal, write_terminals_head};
