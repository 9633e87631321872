//! What looks for cuts.

use cut_groups::{CutFinder, Random, Tree, Wanted};
use std::alloc::{AllocError, Global};

/// What looks for cuts along a tree by a finder.
#[derive(Drop)]
pub struct Seeker {
    /// The drawn numbers.
    pub random: Random,
    // The arcs off the tree that enter the cut that was found last.
    found: Vec<u32>,
    searches: u32,
}

impl Seeker {
    /// What has looked for nothing yet, with numbers drawn from a seed. It takes no memory.
    pub fn new(alloc: Global, seed: u64) -> Seeker {
        Seeker {
            random: Random::new(seed),
            found: Vec::new(alloc),
            searches: 0,
        }
    }

    /// Searches a cheapest cut, and tells its price; `None` where none is as wanted. An `Err` is want of memory.
    pub fn cheapest<F: CutFinder>(
        &mut self,
        finder: &mut F,
        tree: &Tree,
        prices: &[i64],
        wanted: Wanted,
    ) -> Result<Option<i64>, AllocError> {
        self.searches = self.searches.saturating_add(1);
        finder.cheapest(tree, prices, wanted, &mut self.found)
    }

    /// Takes the largest cheapest cut in place of the one that the last search found, where the finder has one at hand,
    /// and tells whether it has. The arguments are those of that search. An `Err` is want of memory.
    pub fn largest<F: CutFinder>(
        &mut self,
        finder: &mut F,
        tree: &Tree,
        prices: &[i64],
        wanted: Wanted,
    ) -> Result<bool, AllocError> {
        finder.largest(tree, prices, wanted, &mut self.found)
    }

    /// The arcs off the tree that enter the cut that was found last.
    pub fn found(&self) -> &[u32] {
        self.found.as_slice()
    }

    /// How many searches for a cheapest cut there were.
    pub fn searches(&self) -> u32 {
        self.searches
    }
}
