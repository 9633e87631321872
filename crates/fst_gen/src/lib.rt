//! Generation of full Steiner trees of terminals.
#![tactic(auto)]

mod begin;
mod crosses;
mod fault;
mod generation;
mod growth;
mod laws;
mod listed;
mod listing;
mod prefix;
mod store;
mod tries;

pub use fault::GenFault;
pub use generation::generate;
pub use laws::{failing_prefix_never_passes, pairs_join_all, trees_are_one_list};
