//! Least sets of pairs that join, and the bottlenecks of terminals.
#![tactic(auto)]

mod joining;
mod laws;
mod pair;
mod part;
mod table;

pub use joining::{Joined, least_joining};
pub use laws::{bottlenecks_are_distances, tight_pairs_join};
pub use pair::{Pair, PlaceList};
pub use table::{Table, bottlenecks};
