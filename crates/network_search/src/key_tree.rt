//! Least spanning trees of some vertices of a graph by their distances.

use crate::distances::Distances;
use crate::instance::Instance;
use crate::shortest_paths::FAR;
use crate::subgraph::Subgraph;
use std::alloc::{AllocError, Global};

/// A vertex that a tree joins to one before it.
#[derive(Clone, Copy)]
struct Joined {
    vertex: u32,
    // The place, in the order of joining, of the one that it is joined to.
    parent: usize,
    length: u64,
}

/// A least spanning tree of some vertices, of which each two are joined at their distance.
#[derive(Drop)]
pub struct KeyTree {
    // In the order of joining, which the first begins.
    joined: Vec<Joined>,
    waiting: Vec<Joined>,
    // For each place the least length by which one more vertex may be joined to what hangs there.
    links: Vec<u64>,
    length: u64,
}

impl KeyTree {
    /// The tree of no vertex. It takes no memory before it spans.
    pub fn new(alloc: Global) -> KeyTree {
        KeyTree {
            joined: Vec::new(alloc),
            waiting: Vec::new(alloc),
            links: Vec::new(alloc),
            length: 0,
        }
    }

    /// The sum of its lengths; `FAR` of a tree of no vertex.
    pub fn length(&self) -> u64 {
        self.length
    }

    /// Spans some vertices, whose distances were found (Jarnik 1930, Prim 1957). An `Err` is want
    /// of memory.
    pub fn span(&mut self, keys: &[u32], distances: &Distances) -> Result<(), AllocError> {
        self.joined.clear();
        self.waiting.clear();
        self.length = if keys.is_empty() { FAR } else { 0 };
        for vertex in keys {
            self.waiting.push(Joined {
                vertex: *vertex,
                parent: 0,
                length: FAR,
            })?;
        }
        for place in 0..keys.len() {
            if let Some(next) = take_nearest(&mut self.waiting) {
                if place > 0 {
                    self.length = self.length.saturating_add(next.length);
                }
                self.joined.push(next)?;
                offer(&mut self.waiting, next.vertex, place, distances);
            }
        }
        Ok(())
    }

    /// The length of a least spanning tree with one more vertex (Spira and Pan 1975). An `Err` is
    /// want of memory.
    pub fn length_with(&mut self, vertex: u32, distances: &Distances) -> Result<u64, AllocError> {
        self.links.clear();
        for joined in &self.joined {
            self.links.push(distances.between(joined.vertex, vertex))?;
        }
        let mut length = 0u64;
        for place in (1..self.joined.len()).rev() {
            length = length.saturating_add(self.cut_cycle(place));
        }
        let last = self.links.first().copied().unwrap_or(0);
        Ok(length.saturating_add(last))
    }

    /// Adds shortest paths for all that is joined.
    pub fn add_paths(&self, g: Instance, distances: &Distances, subgraph: &mut Subgraph) {
        for joined in self.joined.iter().skip(1) {
            if let Some(parent) = self.joined.get(joined.parent) {
                distances.add_path(g, parent.vertex, joined.vertex, subgraph);
            }
        }
    }

    // Of the joining of a place and of its link it keeps the shorter, and hands the longer on as a
    // link of the parent.
    fn cut_cycle(&mut self, place: usize) -> u64 {
        if place >= self.joined.len() || place >= self.links.len() {
            return 0;
        }
        let joined = self.joined[place];
        let link = self.links[place];
        if joined.parent < self.links.len() {
            let longer = link.max(joined.length);
            self.links[joined.parent] = self.links[joined.parent].min(longer);
        }
        link.min(joined.length)
    }
}

// Takes the first of the nearest of those that wait.
fn take_nearest(waiting: &mut Vec<Joined>) -> Option<Joined> {
    let mut nearest = None;
    let mut length = FAR;
    for (place, joined) in waiting.iter().enumerate() {
        if nearest.is_none() || joined.length < length {
            nearest = Some(place);
            length = joined.length;
        }
    }
    match nearest {
        Some(place) if place < waiting.len() => Some(waiting.swap_remove(place)),
        _ => None,
    }
}

// Joins those that wait to a vertex, where that is nearer.
fn offer(waiting: &mut [Joined], vertex: u32, place: usize, distances: &Distances) {
    for joined in waiting.iter_mut() {
        let length = distances.between(vertex, joined.vertex);
        if length < joined.length {
            joined.parent = place;
            joined.length = length;
        }
    }
}
