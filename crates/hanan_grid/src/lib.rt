//! Hanan's grid of a list of points, and the lines and edges that such grids are made of.
#![tactic(auto)]

mod distance;
mod edges;
mod fault;
mod grid;
mod lines;
mod name;
mod place;
mod segment;

pub use edges::{line_edges, point_vertices};
pub use fault::{GridFault, SegmentFault};
pub use grid::Grid;
pub use lines::{x_lines, y_lines};
pub use name::EdgeName;
pub use place::Place;
