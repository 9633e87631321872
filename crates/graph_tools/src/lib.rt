//! The tools for Steiner problems in the graphs of STP files: one solves them, one judges answers, one reduces them.
#![tactic(auto)]

mod checking;
mod ladder;
mod lifted;
mod lifting;
mod reading;
mod reducing;
mod reduction;
mod solution;
mod solving;
mod text_fault;

pub use checking::{CheckgraphFault, GRAPH_ANSWER_LIMIT, checkgraph};
pub use lifted::Lifted;
pub use reading::{graph_in, task_has_no_fault};
pub use reducing::reduce;
pub use reduction::GraphReduction;
pub use solution::solution_in;
pub use solving::graph;
pub use text_fault::GraphTextFault;
