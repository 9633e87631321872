//! The tools that make and read files of full trees.
#![tactic(auto)]

mod dump;
mod file_answer;
mod generation;
mod graph;
mod graph_answer;
mod listing;
mod pruning;

pub use dump::dumpfst;
pub use generation::rfst;
pub use graph::fst2graph;
pub use pruning::prunefst;
