//! The tools that print points.
#![tactic(auto)]

mod distinct_list;
mod drawing;
mod drawn_list;
mod stp_points;

pub use drawing::points;
pub use stp_points::{located_has_no_fault, stp2points};
