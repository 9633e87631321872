//! Judges an answer as it comes in, and tells the verdict in a line, which the tools that judge print and end with.
#![tactic(auto)]

mod cause;
mod counting;
mod judged_input;
mod line;

pub use cause::write_refusal;
pub use counting::Counting;
pub use judged_input::{About, Judged, judge_input};
pub use line::VerdictLine;
