//! The tool that bounds the networks which use an edge of a grid, edge by edge.
#![tactic(auto)]

mod beginning;
mod bounds;
mod slack_answer;
mod tool;
mod write;

pub use tool::slack;
