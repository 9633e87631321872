//! The search for a concatenation of full trees of least total: what it finds joins all terminals, and it is told as
//! least only where a trail of bounded ends shows it.
#![tactic(auto)]

mod best;
mod bound;
mod choosing;
mod chosen;
mod fault;
mod judge;
mod laws;
mod level;
mod listed;
mod parts;
mod proposal;
mod start;
mod touching;
mod trail;
mod trail_search;

pub use choosing::concat;
pub use chosen::{Chosen, ChosenKind};
pub use fault::ConcatFault;
pub use laws::trees_in_form_have_members;
pub use trail::Trail;
