//! A smaller graph that has the same least length but for a fixed part, and the way back: packings of it become
//! packings of the given graph. It proposes: what it finds is judged by `packing_judge`.
#![tactic(auto)]

mod lifting;
mod parts;
mod smaller;
mod steps;
mod work;

pub use smaller::Smaller;
