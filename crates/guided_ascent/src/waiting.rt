//! The terminals to which saturated arcs don't lead from the root, as far as is known.

use cut_groups::NONE;
use net_graph::{NetGraph, VertexSet};
use std::alloc::{AllocError, Global};

// A terminal that waits for its cut.
#[derive(Drop)]
struct Place {
    terminal: u32,
    // By what its set was compared last. The set has grown since then, or is the same.
    score: u32,
    // Its set, where it is put aside until this grows.
    aside: Option<VertexSet>,
}

/// The terminals that wait.
#[derive(Drop)]
pub struct Waiting {
    places: Vec<Place>,
}

impl Waiting {
    /// All terminals but the root. An `Err` is want of memory.
    pub fn of(alloc: Global, graph: &NetGraph) -> Result<Waiting, AllocError> {
        let mut places = Vec::new(alloc);
        for terminal in graph.terminals() {
            if *terminal != graph.root() {
                places.push(Place {
                    terminal: *terminal,
                    score: 0,
                    aside: None,
                })?;
            }
        }
        Ok(Waiting { places })
    }

    /// Whether none waits.
    pub fn is_empty(&self) -> bool {
        self.places.is_empty()
    }

    /// The place of one of the least score, of those that aren't put aside.
    pub fn next(&self) -> Option<usize> {
        let mut next = None;
        let mut least = u32::MAX;
        for (place, waits) in self.places.iter().enumerate() {
            if waits.aside.is_none() && (waits.score < least || next.is_none()) {
                least = waits.score;
                next = Some(place);
            }
        }
        next
    }

    /// The terminal at a place.
    pub fn terminal(&self, place: usize) -> u32 {
        match self.places.get(place) {
            Some(waits) => waits.terminal,
            None => NONE,
        }
    }

    /// Takes out the terminal at a place.
    pub fn leave(&mut self, place: usize) {
        if place < self.places.len() {
            self.places.swap_remove(place);
        }
    }

    /// Puts the terminal at a place, which has a set, aside.
    pub fn put_aside(&mut self, place: usize, set: VertexSet) {
        if let Some(waits) = self.places.get_mut(place) {
            waits.aside = Some(set);
        }
    }

    /// Takes back those that are put aside whose sets grow, as arcs to these vertices are saturated.
    pub fn take_back(&mut self, heads: &[u32]) {
        for waits in self.places.iter_mut() {
            if waits.may_grow(heads) {
                waits.aside = None;
            }
        }
    }

    /// Gives the terminal at a place a score; whether it still comes first, as the score is no greater than before or
    /// no other one has a lesser.
    pub fn comes_first(&mut self, place: usize, score: u32) -> bool {
        let Some(waits) = self.places.get_mut(place) else {
            return false;
        };
        let is_less = score <= waits.score;
        waits.score = score;
        if is_less {
            return true;
        }
        for other in &self.places {
            if other.aside.is_none() && other.score < score {
                return false;
            }
        }
        true
    }
}

impl Place {
    // Whether it is put aside and has one of some vertices in its set.
    fn may_grow(&self, heads: &[u32]) -> bool {
        let Some(set) = &self.aside else {
            return false;
        };
        for head in heads {
            if set.holds(*head) {
                return true;
            }
        }
        false
    }
}
