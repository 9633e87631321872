//! Proposals of partitions and of a concatenation for a search: what it finds is to be judged by others, who weigh
//! the partitions again.
#![tactic(auto)]

mod chain;
mod cluster;
mod concatenation;
mod fit;
mod fitted;
mod fitter;
mod groups;
mod growth;
mod improve;
mod item;
mod joining;
mod proposal;
mod repair;
mod rest;
mod sets;
mod shift;
mod sides;
mod sweep;
mod table;

pub use fitter::Fitter;
pub use item::Item;
pub use proposal::{Level, Proposal};
