//! Cheapest cuts of the groups of a tree in any graph, by maximum flows.
#![tactic(auto)]

mod cut_by_flow;
mod flow;
mod largest;
mod levels;
mod query;
mod steps;

pub use cut_by_flow::FlowCuts;
