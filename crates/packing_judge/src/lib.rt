//! Packings that an exchange or an ascent along a network proposes, judged: nothing rests on how they were found.
#![tactic(auto)]

mod bound;
mod ground;
mod guiding;
mod method;
mod outcome;

pub use bound::Bound;
pub use ground::Ground;
pub use guiding::guided;
pub use method::{Exchanged, exchange};
pub use outcome::Outcome;
