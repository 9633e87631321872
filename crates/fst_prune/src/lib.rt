//! Pruning of lists of full trees: which trees of a list are kept, and that the least total stays.
#![tactic(auto)]

mod copying;
mod firsts;
mod laws;
mod pair_array;
mod pruning;
mod within;

pub use copying::copy;
pub use laws::pruning_keeps_least_total;
pub use pruning::prune;
