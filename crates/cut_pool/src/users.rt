//! The cuts that each arc enters.

use cut_groups::{NONE, at, count, set};
use std::alloc::{AllocError, Global};

/// A cut that an arc enters, and where the next one stands, or `NONE`.
#[derive(Clone, Copy)]
pub struct User {
    pub cut: u32,
    pub next: u32,
}

/// Lists of cuts by arcs.
#[derive(Drop)]
pub struct Users {
    firsts: Vec<u32>,
    users: Vec<User>,
}

impl Users {
    /// No list. It takes no memory.
    pub fn new(alloc: Global) -> Users {
        Users {
            firsts: Vec::new(alloc),
            users: Vec::new(alloc),
        }
    }

    /// Empty lists for so many arcs. An `Err` is want of memory.
    pub fn clear(&mut self, arcs: u32) -> Result<(), AllocError> {
        self.users.clear();
        self.firsts.clear();
        for _ in 0..arcs {
            self.firsts.push(NONE)?;
        }
        Ok(())
    }

    /// How many places the lists have in all.
    pub fn len(&self) -> u32 {
        count(&self.users)
    }

    /// Where the first cut of an arc stands, or `NONE`.
    pub fn first(&self, arc: u32) -> u32 {
        at(&self.firsts, arc, NONE)
    }

    /// The cut at a place.
    #[inline]
    pub fn get(&self, place: u32) -> Option<User> {
        self.users.get(place as usize).copied()
    }

    /// Adds a cut to the lists of arcs. An `Err` is want of memory.
    pub fn add(&mut self, cut: u32, arcs: &[u32]) -> Result<(), AllocError> {
        for arc in arcs {
            let place = self.len();
            let next = self.first(*arc);
            self.users.push(User { cut, next })?;
            set(&mut self.firsts, *arc, place);
        }
        Ok(())
    }
}
