//! A list of items that only grows, and rows of numbers of a length that never changes.
#![tactic(auto)]

mod items;
mod row;

pub use items::ItemList;
pub use row::Row;
