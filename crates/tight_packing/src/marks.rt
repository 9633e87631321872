//! Marks on arcs.

use cut_groups::{at, set};
use std::alloc::{AllocError, Global};

/// A set of arcs that is emptied at once.
#[derive(Drop)]
pub struct Marks {
    // The number of the set in which each arc was put last.
    put: Vec<u32>,
    number: u32,
}

impl Marks {
    /// The empty set among so many arcs. An `Err` is want of memory.
    pub fn none(alloc: Global, arcs: u32) -> Result<Marks, AllocError> {
        Ok(Marks {
            put: vec![in alloc; 0; arcs as usize]?,
            number: 1,
        })
    }

    /// Empties it.
    #[inline]
    pub fn clear(&mut self) {
        self.number = self.number.wrapping_add(1);
    }

    /// Puts an arc in.
    #[inline]
    pub fn put(&mut self, arc: u32) {
        set(&mut self.put, arc, self.number);
    }

    /// Takes an arc out.
    #[inline]
    pub fn take(&mut self, arc: u32) {
        set(&mut self.put, arc, 0);
    }

    /// Whether an arc is in the set.
    #[inline]
    pub fn has(&self, arc: u32) -> bool {
        at(&self.put, arc, 0) == self.number
    }
}
