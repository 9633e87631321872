//! Moves of key vertices: insertion of Steiner vertices, and their elimination.

ghost use Rattle.std.specs.Prelude.{◌<◌, vec_len};

use crate::distances::Distances;
use crate::instance::Instance;
use crate::key_path::is_key;
use crate::key_tree::KeyTree;
use crate::subgraph::Subgraph;
use std::alloc::{AllocError, Global};
use std::mem::swap;

// How many key vertices a tree has at most whose key vertices are moved: for more it would take too
// long.
const MAX_KEYS: usize = 300;

// How often insertion and elimination are repeated at most while they gain.
const REPEATS: u32 = 100;

/// What the moves begin with.
#[derive(Clone, Copy)]
pub enum Start {
    /// The key vertices of a tree.
    Tree,
    /// The terminals alone.
    Terminals,
    /// The key vertices of a tree but one, which isn't inserted again.
    Without(u32),
}

/// What moves work with; it keeps its memory from call to call.
#[derive(Drop)]
pub struct KeyVertices {
    // The terminals and Steiner vertices; none of them where there are too many.
    keys: Vec<u32>,
    tree: KeyTree,
    tried: KeyTree,
    distances: Distances,
    start: Start,
    // Vertices with which the tree is shorter, each behind its length then.
    gaining: Vec<(u64, u32)>,
}

impl KeyVertices {
    /// The work space for a graph. An `Err` is want of memory.
    pub fn new(alloc: Global, g: Instance) -> Result<KeyVertices, AllocError> {
        Ok(KeyVertices {
            keys: Vec::with_capacity(alloc, MAX_KEYS)?,
            tree: KeyTree::new(alloc),
            tried: KeyTree::new(alloc),
            distances: Distances::new(alloc, g)?,
            start: Start::Terminals,
            gaining: Vec::with_capacity(alloc, g.vertex_count() as usize)?,
        })
    }

    /// Takes key vertices, as a start says. An `Err` is want of memory.
    pub fn take(&mut self, g: Instance, tree: &Subgraph, start: Start) -> Result<(), AllocError> {
        self.start = start;
        self.keys.clear();
        for vertex in 0..g.vertex_count() {
            if self.keys.len() < MAX_KEYS && is_taken(g, tree, start, vertex) {
                self.keys.push(vertex)?;
                self.distances.find(g, vertex)?;
            }
        }
        if self.keys.len() >= MAX_KEYS {
            self.keys.clear();
        }
        self.tree.span(&self.keys, &self.distances)
    }

    /// Inserts and eliminates Steiner vertices until nothing is gained. An `Err` is want of memory.
    pub fn improve(&mut self, g: Instance) -> Result<(), AllocError> {
        if self.keys.is_empty() {
            return Ok(());
        }
        for _ in 0..REPEATS {
            let length = self.tree.length();
            self.find_gaining(g)?;
            self.insert_gaining(g)?;
            self.eliminate_all(g)?;
            if self.tree.length() >= length {
                break;
            }
        }
        Ok(())
    }

    /// The length of a least spanning tree of the key vertices by their distances; `FAR` where
    /// there are too many of them.
    pub fn length(&self) -> u64 {
        self.tree.length()
    }

    /// Adds shortest paths for the whole tree of the key vertices.
    pub fn add_paths(&self, g: Instance, subgraph: &mut Subgraph) {
        self.tree.add_paths(g, &self.distances, subgraph);
    }

    // Finds the vertices with which the tree is shorter, the best ones first. An `Err` is want of
    // memory.
    fn find_gaining(&mut self, g: Instance) -> Result<(), AllocError> {
        self.gaining.clear();
        for vertex in 0..g.vertex_count() {
            let length = self.tree.length_with(vertex, &self.distances)?;
            if length < self.tree.length() && !is_left_out(self.start, vertex) {
                self.gaining.push((length, vertex))?;
            }
        }
        self.gaining.sort_unstable();
        Ok(())
    }

    // Inserts those of the vertices found that make the tree shorter still (Minoux 1990, Kahng and
    // Robins 1992). An `Err` is want of memory.
    fn insert_gaining(&mut self, g: Instance) -> Result<(), AllocError> {
        for (_, vertex) in &self.gaining {
            let length = self.tree.length_with(*vertex, &self.distances)?;
            if length < self.tree.length() && self.keys.len() < MAX_KEYS {
                self.keys.push(*vertex)?;
                self.distances.find(g, *vertex)?;
                self.tree.span(&self.keys, &self.distances)?;
            }
        }
        Ok(())
    }

    // Eliminates each Steiner vertex without which the tree is no longer (Uchoa and Werneck 2012).
    // An `Err` is want of memory.
    fn eliminate_all(&mut self, g: Instance) -> Result<(), AllocError> {
        for place in (0..self.keys.len()).rev() {
            if place < self.keys.len() && !g.is_terminal(self.keys[place]) {
                self.eliminate(place)?;
            }
        }
        Ok(())
    }

    // Eliminates the key vertex at a place, where the tree is no longer then. An `Err` is want of
    // memory.
    fn eliminate(&mut self, place: usize) -> Result<(), AllocError>
        requires { place < vec_len self.old.keys }
    {
        let vertex = self.keys.swap_remove(place);
        self.tried.span(&self.keys, &self.distances)?;
        if self.tried.length() <= self.tree.length() {
            swap(&mut self.tree, &mut self.tried);
        } else {
            self.keys.push(vertex)?;
        }
        Ok(())
    }
}

// Whether a vertex is a terminal, or a key vertex to begin with.
fn is_taken(g: Instance, tree: &Subgraph, start: Start, vertex: u32) -> bool {
    let is_steiner = tree.degree(vertex) > 0 && is_key(g, tree, vertex);
    g.is_terminal(vertex)
        || match start {
            Start::Tree => is_steiner,
            Start::Terminals => false,
            Start::Without(other) => is_steiner && vertex != other,
        }
}

// Whether a start leaves a vertex out.
fn is_left_out(start: Start, vertex: u32) -> bool {
    match start {
        Start::Without(other) => vertex == other,
        _ => false,
    }
}
