//! Networks of a grid that full trees make up.
#![tactic(auto)]

mod network;

pub use network::network_of;
