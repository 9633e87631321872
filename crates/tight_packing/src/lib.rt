//! Packings of whole-weighted directed cuts whose value is the length of a given network (the
//! exchange method, this project's own). It proposes: what it finds is judged by `packing_judge`.
#![tactic(auto)]

mod budget;
mod cuts;
mod farkas;
mod groups;
mod guesses;
mod line;
mod loads;
mod marks;
mod method;
mod phases;
mod rounding;
mod rounds;
mod scale;
mod settings;
mod start;
mod state;
mod sweep;
mod taking_over;

pub use budget::Budget;
pub use guesses::Guesses;
pub use method::{Aims, Proposal, propose};
pub use settings::Settings;
