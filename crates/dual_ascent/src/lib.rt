//! Lower bounds from packings of weighted directed cuts.
#![tactic(auto)]

mod active;
mod ascent;
mod candidate;
mod carried;
mod chooser;
mod costs;
mod entering;
mod maximality;
mod required;
mod state;
mod step;

pub use ascent::{Ascent, ascend, ascend_on, ascend_with};
pub use candidate::Candidate;
pub use carried::{CarriedRooms, carry, carry_costs, carry_rooms};
pub use chooser::{Chooser, Rule};
pub use costs::ReducedCosts;
pub use maximality::maximal;
pub use required::{required_in, required_set};
