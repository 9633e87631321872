//! Crosses, tried terminal by terminal.

ghost use Rattle.std.specs.Prelude.{◌≡◌, ◌<◌, ◌≤◌, length};
ghost use Rattle.fst_gen.specs.Kinds.{CrossesHalf, CrossesLevel, CrossesWest, IsAnyCross};
ghost use Rattle.fst_gen.specs.Store.{IsStore, Generates};

use crate::fault::GenFault;
use crate::growth::count;
use crate::tries::try_code;
use full_tree::{Tree, TreeCode, are_level, go_right, point_at};
use hanan_grid::Grid;
use spanning::Table;
use std::alloc::Global;
use std::collections::BTreeMap;

/// Keeps the trees of all crosses.
pub fn cross_all(
    alloc: Global,
    grid: &Grid,
    table: &Table,
    most: usize,
    trees: &mut BTreeMap<u64, Tree>,
) -> Result<(), GenFault>
    requires table { table.now ≡ grid.now }
    requires store { IsStore grid.now most trees.old }
    ensures { Generates grid.now most IsAnyCross trees.old trees.new result }
{
    for west in 0..count(grid) {
        cross_west(alloc, grid, table, most, trees, west)?;
    }
    Ok(())
}

// Keeps the trees of the crosses with a west.
fn cross_west(
    alloc: Global,
    grid: &Grid,
    table: &Table,
    most: usize,
    trees: &mut BTreeMap<u64, Tree>,
    west: u8,
) -> Result<(), GenFault>
    requires table { table.now ≡ grid.now }
    requires west { west < length grid.now }
    requires store { IsStore grid.now most trees.old }
    ensures { Generates grid.now most (CrossesWest west) trees.old trees.new result }
{
    for east in 0..count(grid) {
        cross_level(alloc, grid, table, most, trees, west, east)?;
    }
    Ok(())
}

// Keeps the trees of the crosses with a west and an east.
fn cross_level(
    alloc: Global,
    grid: &Grid,
    table: &Table,
    most: usize,
    trees: &mut BTreeMap<u64, Tree>,
    west: u8,
    east: u8,
) -> Result<(), GenFault>
    requires table { table.now ≡ grid.now }
    requires west { west < length grid.now }
    requires east { east < length grid.now }
    requires store { IsStore grid.now most trees.old }
    ensures { Generates grid.now most (CrossesLevel west east) trees.old trees.new result }
{
    let points = grid.points().as_slice();
    if !are_level(point_at(points, west), point_at(points, east)) {
        return Ok(());
    }
    for south in 0..count(grid) {
        cross_half(alloc, grid, table, most, trees, west, east, south)?;
    }
    Ok(())
}

// Keeps the trees of the crosses with a west, an east and a south.
fn cross_half(
    alloc: Global,
    grid: &Grid,
    table: &Table,
    most: usize,
    trees: &mut BTreeMap<u64, Tree>,
    west: u8,
    east: u8,
    south: u8,
) -> Result<(), GenFault>
    requires table { table.now ≡ grid.now }
    requires west { west < length grid.now }
    requires east { east < length grid.now }
    requires south { south < length grid.now }
    requires store { IsStore grid.now most trees.old }
    ensures { Generates grid.now most (CrossesHalf west east south) trees.old trees.new result }
{
    let points = grid.points().as_slice();
    if !go_right(
        point_at(points, west),
        point_at(points, south),
        point_at(points, east),
    ) {
        return Ok(());
    }
    for north in 0..count(grid) {
        let code = TreeCode::Cross {
            west,
            south,
            east,
            north,
        };
        try_code(alloc, grid, table, most, trees, code)?;
    }
    Ok(())
}
