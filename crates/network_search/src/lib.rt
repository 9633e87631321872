//! Networks along shortest paths, and shorter ones by local search. It proposes: who calls it judges what it finds.
#![tactic(auto)]

mod access;
mod cleaning;
mod distances;
mod exchange;
mod instance;
mod key_path;
mod key_tree;
mod key_vertices;
mod local_search;
mod path_network;
mod path_search;
mod shared_lengths;
mod shortening;
mod shortest_paths;
mod subgraph;

pub use path_network::propose_network;
pub use shared_lengths::propose_by_shares;
pub use shortening::{propose_cleaned, propose_shorter};
