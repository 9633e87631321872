//! Local search for a shorter tree.

use crate::cleaning::Cleaner;
use crate::exchange::Exchanger;
use crate::instance::Instance;
use crate::key_vertices::{KeyVertices, Start};
use crate::subgraph::Subgraph;
use std::alloc::{AllocError, Global};
use std::mem::swap;

// How often a descent goes on, and how often all Steiner vertices are left out in turn, at most
// while that gains.
const REPEATS: u32 = 100;

/// What the search works with.
#[derive(Drop)]
pub struct LocalSearch {
    cleaner: Cleaner,
    exchanger: Exchanger,
    keys: KeyVertices,
    paths: Subgraph,
    found: Subgraph,
}

impl LocalSearch {
    /// The work space for a graph. An `Err` is want of memory.
    pub fn new(alloc: Global, g: Instance) -> Result<LocalSearch, AllocError> {
        Ok(LocalSearch {
            cleaner: Cleaner::new(alloc, g)?,
            exchanger: Exchanger::new(alloc, g)?,
            keys: KeyVertices::new(alloc, g)?,
            paths: Subgraph::empty(alloc, g)?,
            found: Subgraph::empty(alloc, g)?,
        })
    }

    /// Makes a tree shorter by at most so many descents: the first begins with the tree, the second
    /// with the terminals alone, and each further one with the shortest tree so far without one of
    /// its Steiner vertices, each of them in turn as long as that gains. An `Err` is want of
    /// memory.
    pub fn improve(
        &mut self,
        g: Instance,
        descents: u32,
        tree: &mut Subgraph,
    ) -> Result<(), AllocError> {
        if descents > 0 {
            self.exchanger.exchange_all(g, tree)?;
            self.descend(g, Start::Tree, tree)?;
        }
        if descents > 1 {
            self.descend(g, Start::Terminals, tree)?;
        }
        let mut left = descents.saturating_sub(2);
        for _ in 0..REPEATS {
            let length = tree.length();
            left = self.perturb(g, left, tree)?;
            if tree.length() >= length {
                break;
            }
        }
        Ok(())
    }

    // Leaves each Steiner vertex of a tree out in turn, in at most so many descents; tells how many
    // are left. An `Err` is want of memory.
    fn perturb(
        &mut self,
        g: Instance,
        descents: u32,
        tree: &mut Subgraph,
    ) -> Result<u32, AllocError> {
        let mut left = descents;
        for vertex in 0..g.vertex_count() {
            if left > 0 && tree.degree(vertex) > 2 && !g.is_terminal(vertex) {
                left -= 1;
                self.descend(g, Start::Without(vertex), tree)?;
            }
        }
        Ok(left)
    }

    // Moves key vertices and exchanges key paths until nothing is gained, and takes what is shorter
    // than the tree. An `Err` is want of memory.
    fn descend(
        &mut self,
        g: Instance,
        start: Start,
        tree: &mut Subgraph,
    ) -> Result<(), AllocError> {
        self.keys.take(g, tree, start)?;
        for _ in 0..REPEATS {
            self.keys.improve(g)?;
            if self.keys.length() >= tree.length() {
                break;
            }
            self.find_tree(g)?;
            self.exchanger.exchange_all(g, &mut self.found)?;
            swap(tree, &mut self.found);
            self.keys.take(g, tree, Start::Tree)?;
        }
        Ok(())
    }

    // Finds a tree that is no longer than that of the key vertices. An `Err` is want of memory.
    fn find_tree(&mut self, g: Instance) -> Result<(), AllocError> {
        self.paths.clear();
        self.keys.add_paths(g, &mut self.paths);
        self.cleaner.clean(g, &self.paths, &mut self.found)
    }
}
