//! Cheapest cuts of the groups of a tree in a graph that can be drawn in the plane, as shortest closed curves in the
//! dual of a drawing that it finds itself, searched from both ends.
#![tactic(auto)]

mod buckets;
mod conflicts;
mod cut_by_curve;
mod descent;
mod faces;
mod front;
mod leaving;
mod nesting;
mod rotation;
mod steps;
mod tour;

pub use cut_by_curve::PlanarCuts;
pub use faces::Faces;
