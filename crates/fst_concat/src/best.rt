//! The best concatenation so far.

ghost use Rattle.std.specs.Prelude.{◌≡◌, ◌≤◌, ◌*◌, Bool, length, OnOk, IfOk};
ghost use Rattle.net_graph.specs.Members.{members_of};
ghost use Rattle.concatenation.specs.Concatenation.{IsConcatenation, total_of};
ghost use Rattle.fst_concat.specs.Chosen.{IsChosen};

use full_tree::Tree;
use spanning::PlaceList;
use std::alloc::{AllocError, Global};

/// A concatenation: the places of its trees and its total.
#[derive(Drop)]
pub struct Best {
    pub places: PlaceList,
    pub total: u128,
}

impl Best {
    /// The concatenation of a set of trees. An `Err` is want of memory.
    pub fn of_set(
        alloc: Global,
        points: u8,
        trees: &[Tree],
        set: &[bool],
    ) -> Result<Best, AllocError>
        requires few_trees { length trees.now ≤ 20000 }
        requires joins { IsConcatenation points trees.now set.now }
        ensures chosen { IfOk result (λ best. IsChosen points trees.now best.places best.total) }
        ensures total { IfOk result (λ best. best.total ≡ total_of trees.now set.now) }
    {
        let places = places_of(alloc, set)?;
        let total = total_of(trees, set);
        Ok(Best { places, total })
    }

    /// Takes the concatenation of a set of trees, where it is shorter. An `Err` is want of memory.
    pub fn offer(
        &mut self,
        alloc: Global,
        points: u8,
        trees: &[Tree],
        set: &[bool],
    ) -> Result<(), AllocError>
        requires few_trees { length trees.now ≤ 20000 }
        requires joins { IsConcatenation points trees.now set.now }
        requires chosen { IsChosen points trees.now self.old.places self.old.total }
        ensures chosen { OnOk result (IsChosen points trees.now self.new.places self.new.total) }
        ensures below { OnOk result (self.new.total ≤ self.old.total) }
        ensures taken { OnOk result (self.new.total ≤ total_of trees.now set.now) }
    {
        if total_of(trees, set) < self.total {
            *self = Best::of_set(alloc, points, trees, set)?;
        }
        Ok(())
    }
}

// The places of a set's trees, ascending. An `Err` is want of memory.
fn places_of(alloc: Global, set: &[bool]) -> Result<PlaceList, AllocError>
    requires { length set.now ≤ 20000 }
    ensures { IfOk result (λ places. places ≡ members_of set.now) }
{
    let mut places = PlaceList::empty(alloc);
    for place in 0..set.len() {
        if set[place] {
            places.push(place as u32)?;
        }
    }
    Ok(places)
}

/// The sum of the lengths of the set's trees.
pub fn total_of(trees: &[Tree], set: &[bool]) -> u128
    requires few_trees { length trees.now ≤ 20000 }
    requires size { length set.now ≡ length trees.now }
    ensures value { result ≡ total_of trees.now set.now }
    ensures small { result ≤ 20000 * 18446744073709551615 }
{
    let mut total = 0;
    for place in 0..trees.len() {
        if set[place] {
            total += u128::from(trees[place].length);
        }
    }
    total
}
