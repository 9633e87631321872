//! Shorter networks that a local search proposes, judged: nothing rests on how they were found.
#![tactic(auto)]

mod by_shares;
mod shortening;

pub use by_shares::shortened_by_shares;
pub use shortening::{ENOUGH_DESCENTS, cleaned, shortened};
