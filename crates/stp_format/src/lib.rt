//! STP files of a small profile: reading, writing, and the points of the terminals.
#![tactic(auto)]

mod coordinates;
mod counted;
mod edge;
mod fault;
mod file;
mod graph;
mod line;
mod lines;
mod node_points;
mod number;
mod points;
mod read;
mod section;
mod terminals;
mod words;
mod write;

pub use edge::StpEdge;
pub use fault::{StpFault, StpSection, write_number};
pub use file::StpFile;
pub use points::points_of;
pub use read::read_stp;
pub use write::write_stp;
