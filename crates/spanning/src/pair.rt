//! Pairs of numbers that may be joined, at a length.

use lists::ItemList;

/// A pair of numbers that a hop may lead between, either way, with its length.
#[derive(Clone, Copy)]
pub struct Pair {
    pub a: u8,
    pub b: u8,
    pub length: u64,
}

/// A list of places in a list of pairs, each counted from 0.
pub type PlaceList = ItemList<u32>;
