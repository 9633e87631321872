//! What partitions bound under choices.

ghost use Rattle.std.specs.Prelude.{ℕ, ◌≡◌, ◌<◌, ◌≤◌, ◌*◌, length, All, IsTrue};
ghost use Rattle.full_tree.specs.Code.{members_of};
ghost use Rattle.concatenation.specs.Choices.{taken_of, IsLeastUnder};
ghost use Rattle.concatenation.specs.Concatenation.{total_of};
ghost use Rattle.concatenation.specs.Partitions.{PacksLayers};
ghost use Rattle.fst_concat.specs.Levels.{layers_of, FitsChoice};
ghost use Rattle.fst_concat.specs.Listed.{IsListed};

use crate::level::{Level, MAX_LEVELS, are_sized, bound, lies_inside, load};
use concatenation::{Choice, more_trees, partition_bound};
use full_tree::{Places, Tree};

/// How many units of the amounts make one of length.
pub const SCALE: u8 = 12;

/// A total below which no concatenation that respects the choices lies, and which is no less than what is taken:
/// that and what the levels bound, where they pack into the open trees.
pub fn least_under(
    points: u8,
    trees: &[Tree],
    listed: &[Places],
    levels: &[Level],
    choices: &[Choice],
    taken: u128,
) -> u128
    requires few { points ≤ 50 }
    requires few_trees { length trees.now ≤ 20000 }
    requires listed { IsListed points trees.now listed.now }
    requires size { length choices.now ≡ length trees.now }
    requires taken { taken ≡ total_of trees.now (taken_of choices.now) }
    requires small { taken ≤ 20000 * 18446744073709551615 }
    ensures least { IsLeastUnder points trees.now choices.now result }
    ensures above { taken ≤ result }
{
    more_trees();
    partition_bound();
    if levels.len() > MAX_LEVELS || !packs(points, trees, listed, levels, choices) {
        return taken;
    }
    taken + bound(points, levels).div_ceil(u128::from(SCALE))
}

// Whether the levels pack into the trees under the choices.
fn packs(
    points: u8,
    trees: &[Tree],
    listed: &[Places],
    levels: &[Level],
    choices: &[Choice],
) -> bool
    requires few { points ≤ 50 }
    requires listed { IsListed points trees.now listed.now }
    requires size { length choices.now ≡ length trees.now }
    requires few_levels { length levels.now ≤ 64 }
    ensures { IsTrue result → PacksLayers points 12 trees.now choices.now (layers_of points levels.now) }
{
    if !are_sized(points, levels) {
        return false;
    }
    for place in 0..trees.len() {
        if !fits(
            points,
            levels,
            choices[place],
            &trees[place],
            listed[place].as_slice(),
        ) {
            return false;
        }
    }
    true
}

// Whether the levels leave room for a tree of a choice.
fn fits(points: u8, levels: &[Level], choice: Choice, tree: &Tree, members: &[u8]) -> bool
    requires few { points ≤ 50 }
    requires few_levels { length levels.now ≤ 64 }
    requires few_members { length members.now ≤ 8 }
    requires below { All (λ i. i < points) members.now }
    requires members { members.now ≡ members_of tree.now.code }
    ensures { IsTrue result → FitsChoice 12 (layers_of points levels.now) tree.now choice }
{
    match choice {
        Choice::Open => load(points, levels, tree, members)
            <= u128::from(SCALE) * u128::from(tree.length),
        Choice::Taken => lies_inside(points, levels, tree, members),
        Choice::LeftOut => true,
    }
}
