//! What finds cheapest cuts.

use crate::tree::Tree;
use std::alloc::AllocError;

/// A price above that of every cut.
pub const BLOCKED: i64 = 1 << 60;

/// A cut that is looked for.
#[derive(Clone, Copy)]
pub struct Wanted {
    /// Its group: the tree enters it at the arc of this group and nowhere else.
    pub group: u32,
    /// A terminal that it has, at or below the head of this arc.
    pub terminal: u32,
    /// What its other arcs cost is below this, which is at most `BLOCKED`.
    pub limit: i64,
}

/// Finds cheapest cuts of the groups of a tree.
pub trait CutFinder {
    /// The price of a cheapest cut that is wanted; `None` where there is none. `prices` are those of the arcs, each
    /// from 0 to `BLOCKED`; the cut's price is that of the arcs off the tree that enter it, and `entered` becomes
    /// their list. An `Err` is want of memory.
    fn cheapest(
        &mut self,
        tree: &Tree,
        prices: &[i64],
        wanted: Wanted,
        entered: &mut Vec<u32>,
    ) -> Result<Option<i64>, AllocError>;

    /// Another cheapest cut, where the finder has one at hand: the largest. The arguments are those of the last call of
    /// `cheapest`, which found one; `entered` becomes the list of its arcs. Whether there is one. An `Err` is want of
    /// memory.
    fn largest(
        &mut self,
        tree: &Tree,
        prices: &[i64],
        wanted: Wanted,
        entered: &mut Vec<u32>,
    ) -> Result<bool, AllocError>;

    /// How many arcs it has looked at so far.
    fn looks(&self) -> u64;
}
