//! Points that a generator draws from a seed.
#![tactic(auto)]

mod distinct;
mod draw;
mod drawn;
mod laws;

pub use distinct::distinct_points;
pub use draw::draw_points;
pub use drawn::Drawn;
pub use laws::short_grid;
