//! Short lists of places.

ghost use Rattle.std.specs.Prelude.{◌≡◌, ◌<◌, ◌≤◌, [], ◌∷◌, ◌++◌, length, slice_get, Some, IsTrue, ◌↔◌};

use smallvec::SmallVec;
use std::alloc::Global;
use std::marker::Model;

/// How many places a list holds at most.
pub const MAX_PLACES: usize = 8;

/// A list of at most 8 places of points, in the value itself: it takes no memory. Contracts see the
/// list of the places.
#[derive(Drop)]
pub struct Places {
    items: SmallVec<u8, 8>,
}

impl Model for Places {
    ghost use Rattle.std.specs.Prelude.{◌≡◌, ◌≤◌, List, ℕ, length};

    ghost Value = { List ℕ };

    ghost view = { λ p. p.items.items };

    ghost invariant = { λ p. (p.items.capacity ≡ 8) × (length p.items.items ≤ 8) };
}

impl Places {
    /// The empty list. The allocator is kept and never asked.
    pub fn empty(alloc: Global) -> Places
        ensures { result ≡ [] }
    {
        Places {
            items: SmallVec::new(alloc),
        }
    }

    /// Appends a place. It takes no memory.
    pub fn push(&mut self, place: u8)
        requires { length self.old < 8 }
        ensures { self.new ≡ self.old ++ place ∷ [] }
    {
        self.items.push_reserved(place);
    }

    /// The list of a slice's places. The allocator is kept and never asked.
    pub fn from_slice(alloc: Global, places: &[u8]) -> Places
        requires { length places.now ≤ 8 }
        ensures { result ≡ places.now }
    {
        match SmallVec::from_slice(alloc, places) {
            Ok(items) => Places { items },
            Err(_) => unreachable!(),
        }
    }

    /// A list of the same places.
    pub fn copy(&self) -> Places
        ensures { result ≡ self.now }
    {
        Places::from_slice(*self.items.allocator(), self.items.as_slice())
    }

    /// How many places there are, at most 8.
    pub fn len(&self) -> usize
        ensures value { result ≡ length self.now }
        ensures few { result ≤ 8 }
    {
        self.items.len()
    }

    /// Whether there is no place.
    pub fn is_empty(&self) -> bool
        ensures { IsTrue result ↔ (self.now ≡ []) }
    {
        self.items.is_empty()
    }

    /// The place at a position, counted from 0.
    pub fn get(&self, n: usize) -> u8
        requires { n < length self.now }
        ensures { slice_get self.now n ≡ Some result }
    {
        self.items.as_slice()[n]
    }

    /// All places, in order.
    pub fn as_slice(&self) -> &[u8]
        ensures { result.now ≡ self.now }
    {
        self.items.as_slice()
    }
}
