//! A pool of cuts in groups, each with a weight, and the search that moves single units of weight from one cut to
//! another. It serves proposals: nothing rests on it.
#![tactic(auto)]

mod entering;
mod flood;
mod kept;
mod new_cuts;
mod pool;
mod seeker;
mod tidy;
mod unit_moves;
mod unit_search;
mod units;
mod users;

pub use entering::find_entered;
pub use pool::{Cut, Offered, PARTS, Pool};
pub use seeker::Seeker;
pub use tidy::Tidier;
pub use unit_search::UnitSearch;
