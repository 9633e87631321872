//! Points of the plane, and the text that lists them.
#![tactic(auto)]

mod fault;
mod laws;
mod number;
mod point;
mod points;
mod read;

pub use fault::PointFault;
pub use laws::{each_point_once, one_answer, written_points};
pub use point::Point;
pub use points::{AddFault, Added, MAX_POINTS, Points};
pub use read::read_points;
