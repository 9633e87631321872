//! Concatenations of full trees: sublists of a list of trees that join all terminals, what a search for the least one
//! leaves behind, and the laws by which such a search says that a total is least.
#![tactic(auto)]

mod choice;
mod laws;

pub use choice::Choice;
pub use laws::{closed_trail_is_least, more_trees, partition_bound, spent_trails_are_short};
