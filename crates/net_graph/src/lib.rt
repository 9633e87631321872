//! Graphs with edge lengths, sets of their edges and vertices, and the networks among the edge sets.
#![tactic(auto)]

mod arcs;
mod decision;
mod distinct;
mod edge;
mod feasibility;
mod flag_set;
mod found;
mod graph;
mod growth;
mod lengths;
mod lent_room;
mod network;
mod packing;
mod reaching;
mod rooted;
mod sets;
mod state;

pub use arcs::{Arc, partner};
pub use decision::{Decision, required, vertex_undecided};
pub use distinct::without_repeats;
pub use edge::{Edge, EdgeList, VertexList};
pub use feasibility::{enters, feasible, holds_terminal};
pub use found::Found;
pub use graph::{GraphFault, NetGraph};
pub use growth::{found_leading_to, grow_leading_to};
pub use lengths::length;
pub use network::{first_apart, first_apart_within, has_all, joins, reached};
pub use packing::{Cut, Packing, total_weight, value};
pub use reaching::{Passage, reached_from};
pub use rooted::root_part;
pub use sets::{EdgeSet, VertexSet};
pub use state::{EdgeState, VertexState};
