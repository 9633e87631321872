//! The text of a reduction, and the lines of sets and counts of which it and others are made.
#![tactic(auto)]

mod set_lines;
mod write;

pub use set_lines::{write_count, write_set};
pub use write::write_reduced;
