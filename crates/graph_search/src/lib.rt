//! The search for a shortest network in a graph that the tools for points and for graphs share: it begins with a
//! network, and goes by the rules that the words choose.
#![tactic(auto)]

mod anew;
mod answering;
mod chains;
mod children;
mod exchanging;
mod guiding;
mod in_plane;
mod on_grid;
mod proposing;
mod raised_search;
mod raising;
mod shortening;
mod solution;
mod splitting;
mod trials;
mod under;

pub use answering::answer_with;
pub use exchanging::Exchanges;
pub use on_grid::searched_on;
pub use raised_search::searched;
pub use raising::Raising;
pub use shortening::{Shortening, offer_shorter};
pub use solution::Solution;
pub use splitting::Splitting;
