//! The members of codes.

ghost use Rattle.std.specs.Prelude.{◌≡◌, ◌+◌, ◌<◌, ◌≤◌, [], ◌∷◌, ◌++◌, length, slice_get, Some};
ghost use Rattle.std.specs.Ordering.{nat_cmp};
ghost use Rattle.std.specs.List.Sorted.{IsPermutation, IsSorted};
ghost use Rattle.full_tree.specs.Code.{named_places, members_of, HasFewMembers};

use crate::code::TreeCode;
use crate::places::Places;
use std::alloc::Global;
use std::marker::Model;

/// At most 8 places in an array. Contracts see the list of the places.
#[derive(Drop)]
pub struct PlaceArray {
    places: [u8; 8],
    count: usize,
}

impl Model for PlaceArray {
    ghost use Rattle.std.specs.Prelude.{◌≤◌, List, ℕ, take};

    ghost Value = { List ℕ };

    ghost view = { λ a. take a.count a.places };

    ghost invariant = { λ a. a.count ≤ 8 };
}

impl PlaceArray {
    /// No places.
    pub fn empty() -> PlaceArray
        ensures { result ≡ [] }
    {
        PlaceArray {
            places: [0; 8],
            count: 0,
        }
    }

    /// Appends a place.
    pub fn push(&mut self, place: u8)
        requires { length self.old < 8 }
        ensures { self.new ≡ self.old ++ place ∷ [] }
    {
        self.places[self.count] = place;
        self.count += 1;
    }

    /// Appends places.
    pub fn push_all(&mut self, places: &[u8])
        requires { length self.old + length places.now ≤ 8 }
        ensures { self.new ≡ self.old ++ places.now }
    {
        for place in places {
            self.push(*place);
        }
    }

    /// Puts the places in ascending order.
    pub fn sort(&mut self)
        ensures permutation { IsPermutation self.old self.new }
        ensures sorted { IsSorted nat_cmp self.new }
    {
        self.places[..self.count].sort_unstable();
    }

    /// The places, in order.
    pub fn as_slice(&self) -> &[u8]
        ensures places { result.now ≡ self.now }
        ensures few { length result.now ≤ 8 }
    {
        &self.places[..self.count]
    }
}

/// How many places a code names.
pub fn named_count(code: &TreeCode) -> usize
    ensures { result ≡ length (named_places code.now) }
{
    match code {
        TreeCode::Long { drops, side, .. } => drops.len() + usize::from(side.is_some()) + 2,
        TreeCode::Cross { .. } => 4,
    }
}

/// The places that a code names, in the order in which it names them.
pub fn named(code: &TreeCode) -> PlaceArray
    requires { length (named_places code.now) ≤ 8 }
    ensures { result ≡ named_places code.now }
{
    let mut places = PlaceArray::empty();
    match code {
        TreeCode::Long {
            root,
            drops,
            side,
            tip,
            ..
        } => {
            places.push(*root);
            places.push_all(drops.as_slice());
            if let Some(side) = side {
                places.push(*side);
            }
            places.push(*tip);
        }
        TreeCode::Cross {
            west,
            south,
            east,
            north,
        } => {
            places.push(*west);
            places.push(*south);
            places.push(*east);
            places.push(*north);
        }
    }
    places
}

/// The members in an array.
pub fn sorted(code: &TreeCode) -> PlaceArray
    requires { HasFewMembers code.now }
    ensures { result ≡ members_of code.now }
{
    let mut places = named(code);
    places.sort();
    places
}

/// The members of a code, which are the places that it names, in ascending order. The allocator is
/// kept and never asked.
pub fn members(alloc: Global, code: &TreeCode) -> Places
    requires { HasFewMembers code.now }
    ensures { result ≡ members_of code.now }
{
    let sorted = sorted(code);
    Places::from_slice(alloc, sorted.as_slice())
}

/// How many members a code has.
pub fn member_count(code: &TreeCode) -> usize
    requires { HasFewMembers code.now }
    ensures { result ≡ length (members_of code.now) }
{
    named_count(code)
}

/// The nth member, counted from 0, in ascending order.
pub fn member(code: &TreeCode, n: usize) -> u8
    requires few { HasFewMembers code.now }
    requires within { n < length (members_of code.now) }
    ensures { slice_get (members_of code.now) n ≡ Some result }
{
    sorted(code).as_slice()[n]
}
