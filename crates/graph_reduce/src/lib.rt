//! Reductions of Steiner problems in graphs: smaller graphs whose networks lift.
#![tactic(auto)]

mod due;
mod ends;
mod laws;
mod left;
mod node_edges;
mod node_rules;
mod number_sets;
mod numbers;
mod originals;
mod places;
mod reduction;
mod start;
mod steps;
mod survey;
mod taken;
mod tidy;
mod work;

pub use laws::{lifting_keeps_length, one_reduction, reductions_end, reductions_fit};
pub use originals::Originals;
pub use reduction::{Reduced, reduce};
