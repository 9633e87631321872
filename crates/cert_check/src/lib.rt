//! The checker of answers: it judges bytes by points or a graph alone, and rests on nothing that proposes or bounds.
#![tactic(auto)]

mod answer_judge;
mod border;
mod checker;
mod law;
mod read;
mod step;
mod subject;
mod verdict;
mod workroom;

pub use checker::Checker;
pub use law::{accepted_bound_holds, one_verdict, upgrading_keeps_verdict};
pub use subject::Subject;
pub use tree_judge::Cause;
pub use verdict::{Finished, Ruling, Verdict};
pub use workroom::Workroom;
