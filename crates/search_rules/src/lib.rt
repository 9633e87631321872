//! What a caller may choose of a search: the rules of ascents and splits with their names, and how far the search may
//! go.
#![tactic(auto)]

mod choosing;
mod options;
mod rules;

pub use choosing::{ascent_place, split_place};
pub use options::{GraphOptions, SearchOptions};
pub use rules::{AscentRule, SplitRule, UnknownRule};
