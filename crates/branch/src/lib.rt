//! The search that proves a network short: it splits the leaves of a certificate tree, each time one whose
//! value is below the length of the best network.
#![tactic(auto)]

mod best;
mod branch_and_bound;
mod frontier;
mod leaf;
mod next_opening;
mod note;
mod offered;
mod open;
mod opening;
mod saturated;
mod saturation;
mod solve;
mod solved;
mod split_choice;
mod split_kind;
mod step;
mod view;

pub use branch_and_bound::Search;
pub use offered::Offered;
pub use saturated::saturated_network;
pub use solve::solve_graph;
pub use solved::Solved;
pub use split_kind::SplitKind;
pub use step::Step;
pub use view::LeafView;
