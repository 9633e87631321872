//! Lists of distinct points.

ghost use Rattle.std.specs.Prelude.{◌≡◌, ◌<◌, ◌≤◌, [], ◌∷◌, ◌++◌, length, slice_get, All, Contains, IfOk, OnErr};
ghost use Rattle.std.specs.Prelude.{IsErrOf};
ghost use Rattle.points_in.specs.Text.{IsPoint};
ghost use Rattle.points_in.specs.Terminals.{AreDistinct};

use crate::point::Point;
use std::alloc::{AllocError, Global};
use std::marker::Model;
use thiserror::Error;

/// How many points a list holds at most.
pub const MAX_POINTS: usize = 50;

/// 1 to 50 distinct points, in the order in which they came. Contracts see the list of the points.
/// Room for 50 is kept from the start, so that only making a list takes memory.
#[derive(Drop)]
pub struct Points {
    items: Vec<Point>,
}

impl Model for Points {
    ghost use Rattle.std.specs.Prelude.{List, ◌≤◌, vec_capacity};
    ghost use Rattle.points_in.specs.declared.point.Point.{Point};
    ghost use Rattle.points_in.specs.Points.{ArePoints};

    ghost Value = { List Point };

    ghost view = { λ p. p.items.items };

    ghost invariant = { λ p. (50 ≤ vec_capacity p.items) × ArePoints p.items.items };
}

/// What became of a point that was added.
#[derive(Clone, Copy)]
pub enum Added {
    /// It is the last of the list now.
    New,
    /// It was in the list, which stays as it was.
    Repeat,
}

/// Why a point was not added.
#[derive(Debug, Drop, Error)]
pub enum AddFault {
    /// The list holds 50 points, and the point is none of them.
    #[error("there are 50 points already")]
    Full,
    /// There was no memory.
    #[error(transparent)]
    Memory(#[from(alloc)] AllocError),
}

impl Points {
    /// The list of one point.
    pub fn begin(alloc: Global, first: Point) -> Result<Points, AllocError>
        ensures { IfOk result (λ points. points ≡ first ∷ []) }
    {
        let mut items = Vec::with_capacity(alloc, MAX_POINTS)?;
        items.push_reserved(first);
        Ok(Points { items })
    }

    /// Appends a point that the list doesn't hold. It takes no memory.
    pub fn add(&mut self, point: Point) -> Result<Added, AddFault>
        ensures new { result ≡ Ok Added.New → self.new ≡ self.old ++ point ∷ [] }
        ensures new_point { result ≡ Ok Added.New → ¬ Contains self.old point }
        ensures repeat { result ≡ Ok Added.Repeat → Contains self.old point }
        ensures repeat_kept { result ≡ Ok Added.Repeat → self.new ≡ self.old }
        ensures held { Contains self.old point → result ≡ Ok Added.Repeat }
        ensures full { IsErrOf result AddFault.Full → (length self.old ≡ 50) × ¬ Contains self.old point }
        ensures room { length self.old < 50 → ¬ Contains self.old point → result ≡ Ok Added.New }
        ensures no_room { length self.old ≡ 50 → ¬ Contains self.old point → result ≡ Err AddFault.Full }
        ensures no_memory { (e : AllocError) → IsErrOf result (AddFault.Memory e) → ⊥ }
        ensures err { OnErr result (self.new ≡ self.old) }
    {
        if self.items.contains(&point) {
            return Ok(Added::Repeat);
        }
        if self.items.len() == MAX_POINTS {
            return Err(AddFault::Full);
        }
        self.items.push_reserved(point);
        Ok(Added::New)
    }

    /// How many points the list holds, 1 to 50. The other clauses say what every list keeps.
    pub fn len(&self) -> usize
        ensures value { result ≡ length self.now }
        ensures some { 0 < length self.now }
        ensures few { length self.now ≤ 50 }
        ensures distinct { AreDistinct self.now }
        ensures points { All IsPoint self.now }
    {
        self.items.len()
    }

    /// The point at a place, which begins at 0.
    pub fn get(&self, place: usize) -> Point
        requires { place < length self.now }
        ensures { slice_get self.now place ≡ Some result }
    {
        self.items[place]
    }

    /// The points in their order.
    pub fn as_slice(&self) -> &[Point]
        ensures { result.now ≡ self.now }
    {
        self.items.as_slice()
    }

    /// A list of the same points. The memory comes from where the original's came from.
    pub fn copy(&self) -> Result<Points, AllocError>
        ensures { IfOk result (λ points. points ≡ self.now) }
    {
        let mut items = Vec::with_capacity(*self.items.allocator(), MAX_POINTS)?;
        items.extend_from_slice(self.items.as_slice())?;
        Ok(Points { items })
    }
}
