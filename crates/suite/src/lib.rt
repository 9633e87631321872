//! The top call, which runs the tool that the words ask for.
#![tactic(auto)]

mod laws;
mod program;

pub use laws::trial_is_solve;
pub use program::run;
