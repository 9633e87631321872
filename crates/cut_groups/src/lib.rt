//! A network directed as a tree, the groups of cuts that the tree enters once, what finds cheapest cuts of a group, and
//! drawn numbers. It serves proposals: nothing rests on it.
#![tactic(auto)]

mod cells;
mod ends;
mod finder;
mod random;
mod tree;
mod walk;

pub use cells::{NONE, add_at, at, count, set};
pub use ends::{Ends, ends_of};
pub use finder::{BLOCKED, CutFinder, Wanted};
pub use random::Random;
pub use tree::Tree;
