//! The groups of cuts, one for each arc of the tree.

use crate::loads::Loads;
use cut_groups::{NONE, Random, Tree, at, set};
use cut_pool::PARTS;
use std::alloc::{AllocError, Global};

/// The groups along a tree: what each lacks, and how it is looked after.
#[derive(Drop)]
pub struct Groups {
    tree: Tree,
    // Of each group the weight in parts that its cuts lack of the length of its arc.
    lacking: Vec<i64>,
    // The weights of each group move in multiples of so many parts.
    grains: Vec<i64>,
    // Of each group how many searches in a row found no new cut.
    failures: Vec<u32>,
    // The groups in the order of their visits.
    visits: Vec<u32>,
}

impl Groups {
    /// The groups along a tree, which lack all weight. An `Err` is want of memory.
    pub fn along(alloc: Global, tree: Tree, loads: &Loads) -> Result<Groups, AllocError> {
        let count = tree.groups();
        let mut lacking = Vec::new(alloc);
        for group in 0..count {
            lacking.push(loads.length(tree.arc(group)))?;
        }
        Ok(Groups {
            tree,
            lacking,
            grains: vec![in alloc; 1; count as usize]?,
            failures: vec![in alloc; 0; count as usize]?,
            visits: numbers_below(alloc, count)?,
        })
    }

    /// The tree.
    #[inline]
    pub fn tree(&self) -> &Tree {
        &self.tree
    }

    /// The tree alone.
    pub fn into_tree(self) -> Tree {
        self.tree
    }

    /// The weight in parts that a group lacks.
    pub fn lacking(&self, group: u32) -> i64 {
        at(&self.lacking, group, 0)
    }

    /// Notes that a group got some weight.
    pub fn take(&mut self, group: u32, weight: i64) {
        let lacking = self.lacking(group).wrapping_sub(weight);
        set(&mut self.lacking, group, lacking);
    }

    /// In multiples of how many parts the weights of a group move.
    #[inline]
    pub fn grain(&self, group: u32) -> i64 {
        at(&self.grains, group, 1)
    }

    /// Lets the weights of a group move in whole units.
    pub fn coarsen(&mut self, group: u32) {
        set(&mut self.grains, group, PARTS);
    }

    /// Lets the weights of all groups move in parts of a unit again.
    pub fn refine_all(&mut self) {
        self.grains.fill(1);
    }

    /// How many searches in a row found no new cut of a group.
    pub fn failures(&self, group: u32) -> u32 {
        at(&self.failures, group, 0)
    }

    /// Notes a search for new cuts of a group, and whether it found one.
    pub fn note_search(&mut self, group: u32, found: bool) {
        let failures = if found {
            0
        } else {
            self.failures(group).wrapping_add(1)
        };
        set(&mut self.failures, group, failures);
    }

    /// Draws the order of the visits.
    pub fn shuffle(&mut self, random: &mut Random) {
        random.shuffle(&mut self.visits);
    }

    /// The group that is visited at a place of the order.
    pub fn visited(&self, place: u32) -> u32 {
        at(&self.visits, place, NONE)
    }
}

/// The numbers below a count. An `Err` is want of memory.
pub fn numbers_below(alloc: Global, count: u32) -> Result<Vec<u32>, AllocError> {
    let mut numbers = Vec::new(alloc);
    for number in 0..count {
        numbers.push(number)?;
    }
    Ok(numbers)
}
