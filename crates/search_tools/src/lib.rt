//! The tools that search for networks: of listed trees, of points, and of drawn points.
#![tactic(auto)]

mod build;
mod build_fault;
mod judged_text;
mod longer_trees;
mod network;
mod solution;
mod solve_points;
mod trial_line;
mod trial_run;

pub use build::bb;
pub use build_fault::BuildFault;
pub use solve_points::{solve, solved_on};
pub use trial_line::TrialLine;
pub use trial_run::trial;
