//! For an edge, a bound below which no network goes whose root part holds the edge.
#![tactic(auto)]

mod beginning;
mod bound;

pub use beginning::{Beginning, carried_edge_bound};
pub use bound::{edge_bound, taking_in};
