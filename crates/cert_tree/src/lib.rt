//! Certificate trees: packings of cuts that bound every network from below, each under what is decided on its way.
#![tactic(auto)]

mod laws;
mod split;
mod tree;
mod value;
mod way;

pub use laws::tree_bounds_every_network;
pub use split::SplitOn;
pub use tree::CertTree;
pub use way::Turn;
