//! Long codes, grown drop by drop from a root and a direction. A beginning is given up only where no code
//! that begins so passes, or where no further drop is allowed.

ghost use Rattle.std.specs.Prelude.{ℕ, ◌≡◌, ◌+◌, ◌<◌, ◌≤◌, [], length, IsTrue, ◌↔◌};
ghost use Rattle.hanan_grid.specs.Distance.{distance_between};
ghost use Rattle.full_tree.specs.Pieces.{foot};
ghost use Rattle.full_tree.specs.Passing.{IsWithinBottleneck};
ghost use Rattle.fst_gen.specs.Prefix.{IsPrefix, HasPrefix, MayEndAt, EndsAt, EndsBelow, IsHung, HangsBelow};
ghost use Rattle.fst_gen.specs.Kinds.{IsRootedAt, IsRootedBelow};
ghost use Rattle.fst_gen.specs.Store.{IsStore, Generates};

use crate::begin::{begin, code_of, with_drop};
use crate::fault::GenFault;
use crate::prefix::Prefix;
use crate::tries::try_code;
use full_tree::{Tree, Way, foot, gap, goes_forward, is_on_short_leg, lie_in_turn};
use hanan_grid::Grid;
use points_in::Point;
use spanning::Table;
use std::alloc::Global;
use std::collections::BTreeMap;

/// Keeps the trees of all long codes.
pub fn grow_all(
    alloc: Global,
    grid: &Grid,
    table: &Table,
    most: usize,
    trees: &mut BTreeMap<u64, Tree>,
) -> Result<(), GenFault>
    requires table { table.now ≡ grid.now }
    requires most { most ≤ 8 }
    requires store { IsStore grid.now most trees.old }
    ensures { Generates grid.now most (IsRootedBelow (length grid.now)) trees.old trees.new result }
{
    for root in 0..count(grid) {
        grow_from(alloc, grid, table, most, trees, root)?;
    }
    Ok(())
}

/// How many terminals there are.
pub fn count(grid: &Grid) -> u8
    ensures { result ≡ length grid.now }
{
    let count = grid.points().len();
    prove!(count <= 50);
    count as u8
}

// Keeps the trees of the long codes of a root.
fn grow_from(
    alloc: Global,
    grid: &Grid,
    table: &Table,
    most: usize,
    trees: &mut BTreeMap<u64, Tree>,
    root: u8,
) -> Result<(), GenFault>
    requires table { table.now ≡ grid.now }
    requires most { most ≤ 8 }
    requires root { root < length grid.now }
    requires store { IsStore grid.now most trees.old }
    ensures { Generates grid.now most (IsRootedAt root) trees.old trees.new result }
{
    grow_towards(alloc, grid, table, most, trees, root, Way::East)?;
    grow_towards(alloc, grid, table, most, trees, root, Way::North)?;
    grow_towards(alloc, grid, table, most, trees, root, Way::West)?;
    grow_towards(alloc, grid, table, most, trees, root, Way::South)
}

// Keeps the trees of the long codes of a root and a direction.
fn grow_towards(
    alloc: Global,
    grid: &Grid,
    table: &Table,
    most: usize,
    trees: &mut BTreeMap<u64, Tree>,
    root: u8,
    toward: Way,
) -> Result<(), GenFault>
    requires table { table.now ≡ grid.now }
    requires most { most ≤ 8 }
    requires root { root < length grid.now }
    requires store { IsStore grid.now most trees.old }
    ensures { Generates grid.now most (HasPrefix root toward []) trees.old trees.new result }
{
    let prefix = begin(alloc, grid.points().as_slice(), root, toward);
    grow(alloc, grid, table, most, trees, &prefix)
}

// Keeps the trees of the long codes of a beginning.
fn grow(
    alloc: Global,
    grid: &Grid,
    table: &Table,
    most: usize,
    trees: &mut BTreeMap<u64, Tree>,
    prefix: &Prefix,
) -> Result<(), GenFault>
    requires table { table.now ≡ grid.now }
    requires most { most ≤ 8 }
    requires prefix { IsPrefix grid.now prefix.now }
    requires store { IsStore grid.now most trees.old }
    ensures { Generates grid.now most
        (HasPrefix prefix.now.root prefix.now.toward prefix.now.drops) trees.old trees.new result }
{
    end_all(alloc, grid, table, most, trees, prefix)?;
    if prefix.drops.len() + 3 > most {
        return Ok(());
    }
    for drop in 0..count(grid) {
        match with_drop(grid.points().as_slice(), table, prefix, drop) {
            Some(longer) => grow(alloc, grid, table, most, trees, &longer)?,
            None => {}
        }
    }
    Ok(())
}

// Keeps the trees of the long codes of a beginning that have no further drop.
fn end_all(
    alloc: Global,
    grid: &Grid,
    table: &Table,
    most: usize,
    trees: &mut BTreeMap<u64, Tree>,
    prefix: &Prefix,
) -> Result<(), GenFault>
    requires table { table.now ≡ grid.now }
    requires prefix { IsPrefix grid.now prefix.now }
    requires store { IsStore grid.now most trees.old }
    ensures { Generates grid.now most
        (EndsBelow prefix.now.root prefix.now.toward prefix.now.drops (length grid.now)) trees.old trees.new result }
{
    for tip in 0..count(grid) {
        end_at(alloc, grid, table, most, trees, prefix, tip)?;
    }
    Ok(())
}

// Keeps the trees of the long codes of a beginning that have no further drop and end at a tip.
fn end_at(
    alloc: Global,
    grid: &Grid,
    table: &Table,
    most: usize,
    trees: &mut BTreeMap<u64, Tree>,
    prefix: &Prefix,
    tip: u8,
) -> Result<(), GenFault>
    requires table { table.now ≡ grid.now }
    requires prefix { IsPrefix grid.now prefix.now }
    requires tip { tip < length grid.now }
    requires store { IsStore grid.now most trees.old }
    ensures { Generates grid.now most
        (EndsAt prefix.now.root prefix.now.toward prefix.now.drops tip) trees.old trees.new result }
{
    let points = grid.points().as_slice();
    if !may_end_at(points, prefix, tip) {
        return Ok(());
    }
    if !is_near(points, table, prefix, tip) {
        return Ok(());
    }
    try_code(alloc, grid, table, most, trees, code_of(prefix, None, tip))?;
    hang_sides(alloc, grid, table, most, trees, prefix, tip)
}

// Whether a tip lies ahead of the drops, and across from the last one or on the long leg itself.
fn may_end_at(points: &[Point], prefix: &Prefix, tip: u8) -> bool
    requires prefix { IsPrefix points.now prefix.now }
    requires tip { tip < length points.now }
    ensures { IsTrue result ↔ MayEndAt points.now prefix.now.root prefix.now.toward prefix.now.drops tip }
{
    let drops = prefix.drops.as_slice();
    if !goes_forward(points, prefix.root, prefix.toward, drops, tip) {
        return false;
    }
    if !lie_in_turn(points, prefix.root, prefix.toward, drops, tip) {
        return false;
    }
    true
}

// Whether the long leg from the last foot to a tip's corner is at most the bottleneck of the last member
// and the tip.
fn is_near(points: &[Point], table: &Table, prefix: &Prefix, tip: u8) -> bool
    requires points { points.now ≡ table.now }
    requires prefix { IsPrefix points.now prefix.now }
    requires tip { tip < length points.now }
    ensures { IsTrue result ↔ IsWithinBottleneck points.now prefix.now.last tip
        (distance_between prefix.now.foot (foot points.now prefix.now.root prefix.now.toward tip)) }
{
    let corner = foot(points, prefix.root, prefix.toward, tip);
    let most = table.between(usize::from(prefix.last), usize::from(tip));
    if gap(prefix.foot, corner) > u128::from(most) {
        return false;
    }
    true
}

// Keeps the trees of the long codes of a beginning and a tip, with no further drop and with a side.
fn hang_sides(
    alloc: Global,
    grid: &Grid,
    table: &Table,
    most: usize,
    trees: &mut BTreeMap<u64, Tree>,
    prefix: &Prefix,
    tip: u8,
) -> Result<(), GenFault>
    requires table { table.now ≡ grid.now }
    requires prefix { IsPrefix grid.now prefix.now }
    requires tip { tip < length grid.now }
    requires store { IsStore grid.now most trees.old }
    ensures { Generates grid.now most
        (HangsBelow prefix.now.root prefix.now.toward prefix.now.drops tip (length grid.now))
        trees.old trees.new result }
{
    for side in 0..count(grid) {
        hang_side(alloc, grid, table, most, trees, prefix, side, tip)?;
    }
    Ok(())
}

// Keeps the tree of the long code of a beginning, a side and a tip, with no further drop.
fn hang_side(
    alloc: Global,
    grid: &Grid,
    table: &Table,
    most: usize,
    trees: &mut BTreeMap<u64, Tree>,
    prefix: &Prefix,
    side: u8,
    tip: u8,
) -> Result<(), GenFault>
    requires table { table.now ≡ grid.now }
    requires prefix { IsPrefix grid.now prefix.now }
    requires side { side < length grid.now }
    requires tip { tip < length grid.now }
    requires store { IsStore grid.now most trees.old }
    ensures { Generates grid.now most
        (IsHung prefix.now.root prefix.now.toward prefix.now.drops side tip) trees.old trees.new result }
{
    if !is_on_short_leg(
        grid.points().as_slice(),
        prefix.root,
        prefix.toward,
        tip,
        side,
    ) {
        return Ok(());
    }
    try_code(
        alloc,
        grid,
        table,
        most,
        trees,
        code_of(prefix, Some(side), tip),
    )
}
