//! The trees of points.

ghost use Rattle.std.specs.Prelude.{◌≡◌, ◌≤◌, length, IfOk, OnOk, IsErrOf, All, Contains, IsTrue};
ghost use Rattle.std.specs.Ordering.{nat_cmp};
ghost use Rattle.std.specs.BTreeMap.{IsOrdered, btree_map_len};
ghost use Rattle.fst_gen.specs.declared.fault.GenFault.TheVariants.{TooManyTrees};
ghost use Rattle.fst_gen.specs.Trees.{AreTreesOf, HasMoreSets};
ghost use Rattle.full_tree.specs.Pairs.{PairsJoinAll};
ghost use Rattle.fst_gen.specs.Joins.{JoinsAll};
ghost use Rattle.fst_gen.specs.Store.{IsStore, CoversAll, Generates};

use crate::crosses::cross_all;
use crate::fault::GenFault;
use crate::growth::grow_all;
use crate::listing::{freed, gathered, put_in_order};
use full_tree::{Tree, TreeList};
use hanan_grid::Grid;
use spanning::{Table, bottlenecks};
use std::alloc::{AllocError, Global};
use std::collections::BTreeMap;

/// The trees of a grid's terminals for `k`: for each set of 2 to `k` terminals that has a passing code, the
/// least such code by length and then code, in file order. They join all terminals, and so do those of two
/// members alone. An `Err` says that there are more than 20,000 of them, or is want of memory.
pub fn generate(alloc: Global, grid: &Grid, k: u8) -> Result<TreeList, GenFault>
    requires least { 2 ≤ k }
    requires most { k ≤ 8 }
    ensures trees { IfOk result (AreTreesOf grid.now k) }
    ensures few { IfOk result (λ trees. length trees ≤ 20000) }
    ensures joins { IfOk result (JoinsAll (length grid.now)) }
    ensures pairs_join { IfOk result (PairsJoinAll (length grid.now)) }
    ensures too_many { IsErrOf result TooManyTrees → HasMoreSets grid.now k 20000 }
    ensures not_many { IfOk result (λ trees. ¬ HasMoreSets grid.now k 20000) }
{
    let table = bottlenecks(alloc, grid)?;
    let mut trees = BTreeMap::new(alloc);
    fill(alloc, grid, &table, usize::from(k), &mut trees)?;
    Ok(listed(alloc, grid, usize::from(k), trees)?)
}

// Keeps the trees of all codes.
fn fill(
    alloc: Global,
    grid: &Grid,
    table: &Table,
    most: usize,
    trees: &mut BTreeMap<u64, Tree>,
) -> Result<(), GenFault>
    requires table { table.now ≡ grid.now }
    requires most { most ≤ 8 }
    requires store { IsStore grid.now most trees.old }
    ensures { Generates grid.now most (λ code. Unit {0}) trees.old trees.new result }
{
    grow_all(alloc, grid, table, most, trees)?;
    cross_all(alloc, grid, table, most, trees)
}

// The list of the trees of a store. An `Err` is want of memory.
fn listed(
    alloc: Global,
    grid: &Grid,
    most: usize,
    trees: BTreeMap<u64, Tree>,
) -> Result<TreeList, AllocError>
    requires least { 2 ≤ most }
    requires store { IsStore grid.now most trees }
    requires covers { CoversAll grid.now most trees }
    ensures trees { IfOk result (AreTreesOf grid.now most) }
    ensures few { IfOk result (λ list. length list ≤ 20000) }
    ensures joins { IfOk result (JoinsAll (length grid.now)) }
    ensures pairs_join { IfOk result (PairsJoinAll (length grid.now)) }
    ensures not_many { IfOk result (λ list. ¬ HasMoreSets grid.now most 20000) }
{
    let _kept = trees.len();
    let _points = grid.points().len();
    let mut list = gathered(alloc, trees)?;
    put_in_order(&mut list);
    freed(alloc, list)
}
