//! Full trees as what tools work on: read from a file, or generated from points.
#![tactic(auto)]

mod fst_input;
mod generation;
mod generation_fault;
mod laws;
mod pruning;
mod tree_lists;

pub use fst_input::fst_in;
pub use generation::{MOST_MEMBERS, generated_in, trees_of};
pub use generation_fault::GenerationFault;
pub use laws::spelled_has_no_fault;
pub use pruning::{kept_trees, pruned};
pub use tree_lists::{TreeLists, lists_of};
