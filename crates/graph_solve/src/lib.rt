//! Steiner problems in the graphs of STP files: the graph of a file, a first network of it, and the
//! checker of an answer.
#![tactic(auto)]

mod check;
mod fault;
mod network;
mod task;

pub use cert_check::Ruling as GraphVerdict;
pub use check::check_graph;
pub use fault::{TaskFault, write_total};
pub use network::first_network;
pub use task::graph_of;
