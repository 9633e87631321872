//! What the tools print for readers and other programs: points, lists of trees, grids and plots.
#![tactic(auto)]

mod grid;
mod plots;
mod points;
mod scale;
mod trees;

pub use grid::grid_as_stp;
pub use plots::plot;
pub use points::{dump_distinct, dump_points};
pub use trees::dump_trees;
