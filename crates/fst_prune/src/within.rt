//! The kept pairs between members of a tree.

ghost use Rattle.std.specs.Prelude.{◌<◌, ◌≤◌, ◌+◌, All, length};
ghost use Rattle.full_tree.specs.MembersLaws.{Climbs};
ghost use Rattle.fst_prune.specs.Firsts.{AreFirsts};
ghost use Rattle.fst_prune.specs.Within.{ArePairsWithin};

use crate::firsts::first_of;
use crate::pair_array::PairArray;
use full_tree::TreeList;
use spanning::Pair;
use std::collections::BTreeMap;

/// The kept pairs between places, as pairs of the numbers at which these stand.
pub fn pairs_within(trees: &TreeList, firsts: &BTreeMap<u64, usize>, places: &[u8]) -> PairArray
    requires firsts { AreFirsts trees.now (length trees.now) firsts.now }
    requires few { length places.now ≤ 8 }
    requires below { All (λ i. i < 50) places.now }
    requires ascending { Climbs places.now }
    ensures { ArePairsWithin trees.now places.now (length places.now) 0 result }
{
    let mut pairs = PairArray::empty();
    for upper in 0..places.len() {
        add_pairs(trees, firsts, places, upper, &mut pairs);
    }
    pairs
}

// Adds the kept pairs of one place and those before it.
fn add_pairs(
    trees: &TreeList,
    firsts: &BTreeMap<u64, usize>,
    places: &[u8],
    upper: usize,
    pairs: &mut PairArray,
)
    requires firsts { AreFirsts trees.now (length trees.now) firsts.now }
    requires few { length places.now ≤ 8 }
    requires below { All (λ i. i < 50) places.now }
    requires ascending { Climbs places.now }
    requires upper { upper < length places.now }
    requires pairs { ArePairsWithin trees.now places.now upper 0 pairs.old }
    ensures { ArePairsWithin trees.now places.now upper upper pairs.new }
{
    for lower in 0..upper {
        add_pair(trees, firsts, places, upper, lower, pairs);
    }
}

// Adds the kept pair of two places, if there is one.
fn add_pair(
    trees: &TreeList,
    firsts: &BTreeMap<u64, usize>,
    places: &[u8],
    upper: usize,
    lower: usize,
    pairs: &mut PairArray,
)
    requires firsts { AreFirsts trees.now (length trees.now) firsts.now }
    requires few { length places.now ≤ 8 }
    requires below { All (λ i. i < 50) places.now }
    requires ascending { Climbs places.now }
    requires upper { upper < length places.now }
    requires lower { lower < upper }
    requires pairs { ArePairsWithin trees.now places.now upper lower pairs.old }
    ensures { ArePairsWithin trees.now places.now upper (lower + 1) pairs.new }
{
    let two = [places[lower], places[upper]];
    if let Some(place) = first_of(firsts, &two) {
        let length = trees.get(place).length;
        pairs.push(Pair {
            a: lower as u8,
            b: upper as u8,
            length,
        });
    }
}
